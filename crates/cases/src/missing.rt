// A move that is not there: which of the three it is, after 8 and 9, and not where an event is passed over.
use crate::rules::{RULE_B, RULE_OF_NONE};
use crate::stores::{Case, ENOUGH, at_depth};
use meaning::Level;
use std::io;

// One event read in full where the rule has no move at all, over one level.
fn one_event(rt: &impl Print) -> io::Result<()> {
    let top = Case::opened(&RULE_OF_NONE, &[0; 4]);
    let inside = Case {
        reading: at_depth(1),
        ..top
    };
    let cases = [
        Case {
            name: "no letter move",
            events: &[2],
            ..top
        },
        Case {
            name: "no tree start",
            events: &[0],
            ..top
        },
        Case {
            name: "no tree move",
            events: &[1],
            ..inside
        },
        Case {
            name: "no letter move at the ceiling",
            events: &[2],
            ceiling: 0,
            ..top
        },
        Case {
            name: "no tree start at the ceiling",
            events: &[0],
            ceiling: 0,
            ..top
        },
        Case {
            name: "no tree move at the ceiling",
            events: &[1],
            ceiling: 1,
            ..inside
        },
        Case {
            name: "no tree start and a full store",
            events: &[0],
            ..inside
        },
        Case {
            name: "no tree start, a full store and the ceiling",
            events: &[0],
            ceiling: 1,
            ..inside
        },
    ];
    for case in cases {
        case.tell_fed(rt, [Level::default(); 1])?;
    }
    Ok(())
}

pub fn moves(rt: &impl Print) -> io::Result<()> {
    one_event(rt)?;
    let cases = [
        Case {
            name: "no move, passed over",
            events: &[0, 2, 1, 2],
            ..Case::opened(&RULE_OF_NONE, &[7; 4])
        },
        Case {
            name: "B2 by skipping",
            events: &[0, 1],
            ..Case::opened(&RULE_B, &[4, 7, 7, 7])
        },
        Case {
            name: "B2 in full",
            events: &[0, 1],
            ..Case::opened(&RULE_B, &[0; 4])
        },
    ];
    for case in cases {
        case.tell_fed(rt, [Level::default(); ENOUGH])?;
    }
    Ok(())
}
