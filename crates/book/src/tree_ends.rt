// The states in which a tree can end, in rounds, of which each adds all states one move away, with lower states from that very
// set.
ghost use Rattle.std.specs.Prelude.{◌≡◌, ◌≤◌};
ghost use Rattle.meaning.specs.RuleFile.{rule_of};
ghost use Rattle.book.specs.Sets.{EndsFound, EndsFound-prop};

use crate::BEFORE_LAST;
use crate::moves::{letter_moves, target, with_trees};
use crate::sets::with_members;
use rule::CheckedRule;

// The states in which a tree can end, and the moves with these lower states, as the rounds before the last find them.
#[derive(Clone, Copy)]
pub struct TreeEnds<'a> {
    pub rule: CheckedRule<'a>,
    pub set: u64,
    pub moves: [u64; 64],
    ghost few_states: { rule.rule.states ≤ 64 },
    ghost found: { EndsFound (rule_of rule.file.now) 63 set moves } by { EndsFound-prop (rule_of rule.file.now) 63 set moves },
}

impl<'a> TreeEnds<'a> {
    // The set of a round is the lower states of the next: the table gets the tree moves of what a round added, so that each
    // tree move is looked at once at most.
    // No loop shared with reach_from: here the moves grow with the set.
    pub fn of(rule: CheckedRule<'a>) -> Self
        ensures { result.rule ≡ rule.entry }
    {
        let mut set = target(rule::tables::tree_start(rule.rule));
        let letters = letter_moves(rule);
        let mut moves = with_trees(rule, &letters, set);
        for _round in 0..BEFORE_LAST {
            let next = with_members(&moves, set);
            if next == set {
                break;
            }
            moves = with_trees(rule, &moves, next ^ set);
            set = next;
        }
        TreeEnds { rule, set, moves }
    }
}
