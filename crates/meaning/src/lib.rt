// The data that the calls take and answer, in the words of document 01. What runs here is the codes alone: the number of a reason,
// and the class and the word of a verdict. The definitions that say what each call answers are in specs/, and what is proved of
// them is in proofs/.
#![tactic(auto)]

mod reason;
mod verdict;

pub use reason::Reason;
use std::fmt;
pub use verdict::{NoClass, Verdict};

// A refusal: its number in document 01's table, and the place that the table gives it. The number is no `Reason`, since
// `program::passes::Pass::end_of` and `program::body::refused_text` promise an answer for any number.
#[derive(Clone, Copy, Debug, PartialEq, Eq, Hash)]
pub struct Refusal {
    pub number: u8,
    pub place: usize,
}

impl fmt::Display for Refusal {
    fn fmt<W: fmt::Write>(&self, f: &mut fmt::Formatter<W>) -> fmt::Result {
        write!(f, "refused {} {}", self.number, self.place)
    }
}

// A verdict with its end state.
#[derive(Clone, Copy, Debug, PartialEq, Eq, Hash)]
pub struct Judgement {
    pub verdict: Verdict,
    pub state: u8,
}

// A reading: the current state, the stored depth, the skip depth, the events taken and the looks made.
#[derive(Clone, Copy, Debug, Default, PartialEq, Eq, Hash)]
pub struct Reading {
    pub state: u8,
    pub depth: u32,
    pub skip: u32,
    pub taken: u32,
    pub looks: u32,
}

// One record of the level store: the state above the level, and the place of its opening.
#[repr(C)]
#[derive(Clone, Copy, Debug, Default, PartialEq, Eq, Hash)]
pub struct Level {
    pub above: u8,
    pub opened: u32,
}

// What opening gives: the fresh reading, and how many states are still.
#[derive(Clone, Copy, Debug, PartialEq, Eq, Hash)]
pub struct Opening {
    pub reading: Reading,
    pub still: u32,
}

// What feeding answers: how many events it took, the reading after them, and how it ended: all events taken, or one refused.
#[derive(Clone, Copy, Debug, PartialEq, Eq, Hash)]
pub struct Fed {
    pub taken: u32,
    pub reading: Reading,
    pub ended: Result<(), Refusal>,
}
