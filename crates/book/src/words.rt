// The words of the book: still, hold(u) for each state u, and how they are written.
ghost use Rattle.std.specs.Prelude.{◌≡◌, ◌++◌, ◌+◌, ◌<◌, length, drop};
ghost use Rattle.std.specs.Int.Count.{ones};
ghost use Rattle.meaning.specs.RuleFile.{rule_of};
ghost use Rattle.meaning.specs.SkipBook.{still_marks, hold_marks, word_of, book_of};
ghost use Rattle.book.specs.Sets.{Holds};

use crate::moves::changes;
use crate::reach::Reach;
use crate::sets::{only, states_with, table_of};

impl<'a> Reach<'a> {
    // The states whose reach is themselves alone.
    fn still(&self) -> u64
        ensures { result ≡ word_of (still_marks (rule_of self.now.ends.rule.file.now)) }
    {
        states_with(self.ends.rule.rule.states, |state| {
            self.sets[usize::from(state)] == only(state)
        })
    }

    // The states whose reach has none of the states that change the level above.
    fn hold(&self, upper: u8) -> u64
        requires { upper < self.now.ends.rule.rule.states }
        ensures { result ≡ word_of (hold_marks (rule_of self.now.ends.rule.file.now) upper) }
    {
        let change = changes(self.ends.rule, upper);
        states_with(self.ends.rule.rule.states, |state| {
            self.sets[usize::from(state)] & change == 0
        })
    }

    // hold(u) for each state u.
    fn holds(&self) -> [u64; 64]
        ensures long { length result ≡ 64 }
        ensures holds { Holds (rule_of self.now.ends.rule.file.now) result }
    {
        table_of(self.ends.rule.rule.states, |upper| self.hold(upper))
    }

    // The book, made in its own room and then written: word 0 is still, and word 1+u is hold(u). The words past them stay. The
    // answer is how many states are still, counted as the ones in that word.
    pub fn write_book(&self, book: &mut [u64]) -> u32
        requires { self.now.ends.rule.rule.states < length book.old }
        ensures still_count { result ≡ ones (word_of (still_marks (rule_of self.now.ends.rule.file.now))) }
        ensures book_after { book.new ≡ book_of (rule_of self.now.ends.rule.file.now) ++ drop (self.now.ends.rule.rule.states + 1) book.old }
    {
        let still = self.still();
        let holds = self.holds();
        let count = usize::from(self.ends.rule.rule.states);
        book[0] = still;
        book[1..1 + count].copy_from_slice(&holds[..count]);
        still.count_ones()
    }
}
