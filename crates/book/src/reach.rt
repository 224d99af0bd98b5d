// Reach in rounds, of which each adds all states one move away, with lower states in which a tree can end.
ghost use Rattle.std.specs.Prelude.{◌≡◌, ◌<◌};
ghost use Rattle.meaning.specs.RuleFile.{rule_of};
ghost use Rattle.meaning.specs.SkipBook.{rounds_used_up};
ghost use Rattle.book.specs.Sets.{Reached, Reached-prop, reached_word};

use crate::BEFORE_LAST;
use crate::sets::{only, table_of, with_members};
use crate::tree_ends::TreeEnds;

// For each state the states reached from it, as the rounds before the last find them.
#[derive(Clone, Copy)]
pub struct Reach<'a> {
    pub ends: TreeEnds<'a>,
    pub sets: [u64; 64],
    ghost reached: { Reached (rule_of ends.rule.file.now) 63 sets } by { Reached-prop (rule_of ends.rule.file.now) 63 sets },
}

impl<'a> TreeEnds<'a> {
    // The states reached from a state. A round that adds nothing ends them, since none after it adds.
    fn reach_from(&self, state: u8) -> u64
        requires { state < self.now.rule.rule.states }
        ensures { result ≡ reached_word (rule_of self.now.rule.file.now) 63 state }
    {
        let mut set = only(state);
        for _round in 0..BEFORE_LAST {
            let next = with_members(&self.moves, set);
            if next == set {
                break;
            }
            set = next;
        }
        set
    }
}

impl<'a> Reach<'a> {
    pub fn of(ends: TreeEnds<'a>) -> Self
        ensures { result.ends ≡ ends.entry }
    {
        let sets = table_of(ends.rule.rule.states, |state| ends.reach_from(state));
        Reach { ends, sets }
    }

    // Whether the last round still adds a state, to the set of the tree start or from some state.
    pub fn last_round_adds(&self) -> bool
        ensures { result ≡ rounds_used_up (rule_of self.now.ends.rule.file.now) }
    {
        let ends = &self.ends;
        if with_members(&ends.moves, ends.set) != ends.set {
            return true;
        }
        self.sets[..usize::from(ends.rule.rule.states)]
            .iter()
            .any(|set| with_members(&ends.moves, *set) != *set)
    }
}
