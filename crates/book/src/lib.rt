// The making of skip books, a part of opening: it finds the states in which a tree can end and then Reach in rounds in its own
// room, and writes the book last.
#![tactic(auto)]

mod moves;
mod reach;
mod sets;
mod tree_ends;
mod words;

ghost use Rattle.std.specs.Prelude.{◌≡◌};
ghost use Rattle.meaning.specs.RuleFile.{rule_of};
ghost use Rattle.meaning.specs.SkipBook.{make_book, book_after};
ghost use Rattle.meaning.specs.Calls.{says};

use meaning::{Reason, Refusal};
use reach::Reach;
use rule::CheckedRule;
use tree_ends::TreeEnds;

// The rounds before the last one.
const BEFORE_LAST: u8 = 63;

// The book of an accepted rule: how many states are still, or a refusal, which leaves what was lent untouched.
pub fn make_book(rule: CheckedRule, book: &mut [u64]) -> Result<u32, Refusal>
    ensures answer { says result ≡ make_book (rule_of rule.entry.file.now) book.old }
    ensures book_after { book.new ≡ book_after (make_book (rule_of rule.entry.file.now) book.old) (rule_of rule.entry.file.now) book.old }
{
    if book.len() <= usize::from(rule.rule.states) {
        return Err(Reason::BookTooShort.at(0));
    }
    let reach = Reach::of(TreeEnds::of(rule));
    let used_up = reach.last_round_adds();
    if used_up {
        return Err(Reason::RoundsUsedUp.at(0));
    }
    Ok(reach.write_book(book))
}
