// Readings that are opened, with the rule's own book: the cases with few levels and with a low ceiling.
use crate::rules::RULE_A;
use crate::stores::{Case, ENOUGH, reading_and_book};
use meaning::Level;
use std::io;

pub fn cases(rt: &impl Print) -> io::Result<()> {
    let (_, book) = reading_and_book(&RULE_A);
    let skipping = Case::opened(&RULE_A, &book);
    let one_level = Case {
        name: "A6 with one level",
        events: &[0, 0, 3, 1, 1],
        ..skipping
    };
    one_level.tell_end(rt, [Level::default(); 1])?;
    let two_levels = Case {
        name: "A6 with two levels",
        ..one_level
    };
    two_levels.tell_end(rt, [Level::default(); 2])?;
    let short = Case {
        events: &[0, 3, 1],
        ..skipping
    };
    let others = [
        Case {
            name: "A2 with ceiling 2",
            ceiling: 2,
            ..short
        },
        Case {
            name: "A2 with ceiling 3",
            ceiling: 3,
            ..short
        },
        Case {
            name: "a close at the top",
            events: &[1],
            ..skipping
        },
        Case {
            name: "an open tree",
            events: &[0],
            ..skipping
        },
        Case {
            name: "a skipped tree left open",
            events: &[3, 0],
            ..skipping
        },
        Case {
            name: "a letter that is not known",
            events: &[3, 4],
            ..skipping
        },
    ];
    for case in others {
        case.tell_end(rt, [Level::default(); ENOUGH])?;
    }
    Ok(())
}

// Full reading of rule A, opened and then fed with a book of zeros: no move inside what skipping passes over.
pub fn full_case(rt: &impl Print) -> io::Result<()> {
    let case = Case {
        name: "A4 in full",
        events: &[0, 3, 1, 3],
        ..Case::opened(&RULE_A, &[0; 4])
    };
    case.tell_end(rt, [Level::default(); ENOUGH])
}
