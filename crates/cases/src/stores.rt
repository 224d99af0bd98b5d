// A case of a reading: what it hands the calls, which are made over levels held by value, so many as the case needs.
ghost use Rattle.cases.specs.Stores.{OutcomeIs};

use crate::lines::{self, Given};
use meaning::{Fed, Judgement, Level, Reading, Refusal};
use std::io;

// So many levels that their count decides nothing.
pub const ENOUGH: usize = 1024;

// What feed answered, and finish after it over the same levels.
#[derive(Clone, Copy, Debug, PartialEq, Eq)]
pub struct Outcome {
    pub fed: Fed,
    pub end: Result<Judgement, Refusal>,
}

// The reading that opening gives for a rule of up to three states, and the rule's own book.
pub fn reading_and_book(file: &[u8]) -> (Reading, [u64; 4]) {
    let mut book = [0; 4];
    let answer = reading::open(file, &mut book);
    (reading::first_of(answer), book)
}

// A reading with so many levels open, after as many events and looks.
pub fn at_depth(depth: u32) -> Reading {
    Reading {
        depth,
        taken: depth,
        looks: depth,
        ..Reading::default()
    }
}

// The name of a case, and what its calls are handed but for the levels.
#[derive(Clone, Copy)]
pub struct Case<'a> {
    pub name: &'a str,
    pub file: &'a [u8],
    pub book: &'a [u64],
    pub ceiling: u32,
    pub reading: Reading,
    pub events: &'a [u16],
}

impl<'a> Case<'a> {
    // The reading that opening a rule gives, by some book, with no event yet and no ceiling that counts.
    pub fn opened(file: &'a [u8], book: &'a [u64]) -> Case<'a> {
        Case {
            name: "",
            file,
            book,
            ceiling: u32::MAX,
            reading: reading_and_book(file).0,
            events: &[],
        }
    }

    // Fed, and then finished. The levels are lent: `feed_array` at any N asks that what it answers is no larger than memory.
    pub fn over<const N: usize>(self, mut levels: [Level; N]) -> Outcome
        ensures { let case = self.entry in OutcomeIs case.file.now case.book.now case.ceiling case.reading levels.entry case.events.now result }
    {
        let fed = reading::feed(
            self.file,
            self.book,
            self.ceiling,
            self.reading,
            &mut levels,
            self.events,
        );
        let end = reading::finish(self.file, self.book, fed.reading, &levels);
        Outcome { fed, end }
    }

    // How many events feeding took, or what it refused.
    pub fn tell_fed<const N: usize>(self, rt: &impl Print, levels: [Level; N]) -> io::Result<()> {
        let fed = self.over(levels).fed;
        lines::line(rt, self.name, fed.ended.map(|()| Given::Taken(fed.taken)))
    }

    // The end of the reading and its looks, or else what feeding refused.
    pub fn tell_end<const N: usize>(self, rt: &impl Print, levels: [Level; N]) -> io::Result<()> {
        let Outcome { fed, end } = self.over(levels);
        lines::end(rt, self.name, fed.ended.and(end), fed.reading.looks)
    }
}
