// Readings that are none, and the limits of a reading: numbers 6, 13, 16 and 12.
use crate::lines;
use crate::rules::RULE_A;
use crate::stores::{Case, ENOUGH, at_depth, reading_and_book};
use meaning::{Level, Reading};
use std::io;

// One event fed to a reading, by some book, over levels with a state above them.
fn feedings(rt: &impl Print) -> io::Result<()> {
    let (fresh, book) = reading_and_book(&RULE_A);
    let one = Case {
        name: "a fresh reading",
        events: &[2],
        ..Case::opened(&RULE_A, &book)
    };
    let short = Case {
        name: "a book too short to read with",
        book: &[0; 3],
        ..one
    };
    let out = Case {
        name: "a state of n",
        reading: Reading { state: 3, ..fresh },
        ..one
    };
    for case in [one, short, out] {
        case.tell_fed(rt, [Level::default(); ENOUGH])?;
    }
    let deep = Case {
        name: "three levels in a store of two",
        reading: at_depth(3),
        ..one
    };
    deep.tell_fed(rt, [Level::default(); 2])?;
    let stored = Case {
        name: "a stored state of n",
        reading: at_depth(1),
        ..one
    };
    let above = Level {
        above: 3,
        ..Level::default()
    };
    stored.tell_fed(rt, [above; ENOUGH])?;
    let readings = [
        (
            "skipping on an unsettled level",
            Reading {
                skip: 1,
                taken: 1,
                looks: 1,
                ..fresh
            },
        ),
        ("more levels than events", Reading { depth: 1, ..fresh }),
        (
            "more looks than events",
            Reading {
                taken: 1,
                looks: 2,
                ..fresh
            },
        ),
        (
            "the last event but one",
            Reading {
                taken: u32::MAX - 1,
                ..fresh
            },
        ),
        (
            "all events taken already",
            Reading {
                taken: u32::MAX,
                ..fresh
            },
        ),
    ];
    for (name, reading) in readings {
        let case = Case {
            name,
            reading,
            ..one
        };
        case.tell_fed(rt, [Level::default(); ENOUGH])?;
    }
    Ok(())
}

// Ends, over levels of which the second was opened at another place than the rest.
fn finishings(rt: &impl Print) -> io::Result<()> {
    let (fresh, book) = reading_and_book(&RULE_A);
    let mut levels = [Level {
        opened: 9,
        ..Level::default()
    }; ENOUGH];
    levels[1].opened = 11;
    let inside = Reading {
        taken: 20,
        looks: 20,
        ..at_depth(2)
    };
    let out = Reading { state: 3, ..fresh };
    let last = Reading {
        state: 2,
        taken: 3,
        looks: 3,
        ..fresh
    };
    let ends = [
        ("the innermost opening", inside),
        ("a state of n at the end", out),
        ("an end", last),
    ];
    for (name, reading) in ends {
        let end = reading::finish_array(&RULE_A, &book, reading, levels);
        lines::end(rt, name, end, reading.looks)?;
    }
    Ok(())
}

pub fn refusals(rt: &impl Print) -> io::Result<()> {
    feedings(rt)?;
    finishings(rt)
}
