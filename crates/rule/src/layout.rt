// Where the records of a rule file stand and how long their bodies are: counted once, for the check and for the writer.
ghost use Rattle.rule.specs.Places.{IsLayout};

use crate::Rule;
use crate::tables::{HEADER, product};

// The bytes of the body of kind 1.
pub const NUMBERS: usize = 5;

// The place of the second record.
pub const LETTER_RECORD: usize = HEADER + NUMBERS;

// The bytes of the letter moves and of the tree moves, the places of the third and the fourth record, and the bytes of the
// whole file.
#[derive(Clone, Copy, Debug, PartialEq, Eq, Hash)]
pub struct Layout {
    pub letter_moves: usize,
    pub tree_moves: usize,
    pub tree_record: usize,
    pub class_record: usize,
    pub count: usize,
}

impl Layout {
    #[tactic(auto, unfolding(meaning::specs::RuleFile::letter_record, meaning::specs::RuleFile::tree_record, meaning::specs::RuleFile::class_record, meaning::specs::RuleFile::file_length))]
    pub fn of(rule: Rule) -> Self
        ensures { IsLayout rule.states rule.letters result }
    {
        let states = rule.states as u16;
        let letter_moves = product(states, rule.letters);
        let tree_moves = product(states, states);
        let tree_record = LETTER_RECORD + HEADER + letter_moves;
        let class_record = tree_record + HEADER + tree_moves;
        Layout {
            letter_moves,
            tree_moves,
            tree_record,
            class_record,
            count: class_record + HEADER + rule.states as usize,
        }
    }
}
