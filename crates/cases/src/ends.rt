// Reach counts only lower states in which a tree can end: books that differ from those with any lower state, and a document that
// is now skipped.
use crate::files::open;
use crate::rules::{RULE_MET_LATER, RULE_NO_START, RULE_WITH_SPARE};
use crate::stores::{Case, ENOUGH};
use meaning::Level;
use std::io;

pub fn cases(rt: &impl Print) -> io::Result<()> {
    open(
        rt,
        "no tree start, where no tree move counts",
        &RULE_NO_START,
    )?;
    open(rt, "a lower state met later", &RULE_MET_LATER)?;
    open(rt, "a spare row", &RULE_WITH_SPARE)?;
    let books = [
        ("a spare row, by its book", [6, 3, 3, 7]),
        ("a spare row, by the book that counts it", [4, 0, 0, 7]),
        ("a spare row in full", [0; 4]),
    ];
    for (name, book) in books {
        // a tree within a tree, a letter that changes the state at the top, and one more
        let case = Case {
            name,
            events: &[0, 2, 0, 2, 1, 2, 1, 3, 2],
            ..Case::opened(&RULE_WITH_SPARE, &book)
        };
        case.tell_end(rt, [Level::default(); ENOUGH])?;
    }
    Ok(())
}
