// The rule check, the writer and opening: every refusal that they can be brought to give.
use crate::lines;
use crate::rules::{RULE_A, RULE_B, RULE_C, RULE_OF_NONE, RULE_OF_ONE, longer_a};
use rule::Rule;
use rule::writer::{self, Parts};
use std::io;

// Rule A with one byte changed.
fn changed(place: usize, byte: u8) -> [u8; 47] {
    let mut file = RULE_A;
    if let Some(old) = file.get_mut(place) {
        *old = byte;
    }
    file
}

pub fn rule_checks(rt: &impl Print) -> io::Result<()> {
    let fronts = [
        ("rule A", &RULE_A[..]),
        ("an empty file", &[]),
        ("a header cut short", &RULE_A[..14]),
        ("a body cut short", &RULE_A[..20]),
    ];
    for (name, front) in fronts {
        lines::checked(rt, name, Rule::of_file(front))?;
    }
    let changes = [
        ("another kind", 15, 3),
        ("another length", 11, 7),
        ("65 states", 6, 65),
        ("no state", 6, 0),
        ("an initial state of n", 7, 3),
        ("a tree start of n", 8, 3),
        ("no letter", 9, 0),
        ("257 letters", 10, 1),
        ("a letter move of n", 18, 3),
        ("a tree move of n", 30, 3),
        ("a class of none", 45, Rule::NONE),
    ];
    for (name, place, byte) in changes {
        lines::checked(rt, name, Rule::of_file(&changed(place, byte)))?;
    }
    let longer = longer_a();
    lines::checked(rt, "a byte after the fourth record", Rule::of_file(&longer))
}

pub fn writings(rt: &impl Print) -> io::Result<()> {
    let rule = Rule {
        states: 3,
        initial: 0,
        tree_start: 0,
        letters: 2,
    };
    let right = Parts {
        rule,
        letter_moves: &[0, 1, 1, 1, 2, Rule::NONE],
        tree_moves: &[0, 2, 0, 1, 1, 1, 2, 2, Rule::NONE],
        classes: &[1, 0, 2],
    };
    let with = |rule| Parts { rule, ..right };
    let wrong = [
        ("65 states written", with(Rule { states: 65, ..rule })),
        (
            "an initial state of n written",
            with(Rule { initial: 3, ..rule }),
        ),
        (
            "a tree start of n written",
            with(Rule {
                tree_start: 3,
                ..rule
            }),
        ),
        ("no letter written", with(Rule { letters: 0, ..rule })),
        (
            "a short table",
            Parts {
                letter_moves: &[0, 1, 1, 1, 2],
                ..right
            },
        ),
        (
            "a letter move of n written",
            Parts {
                letter_moves: &[0, 1, 1, 3, 2, Rule::NONE],
                ..right
            },
        ),
    ];
    for (name, parts) in wrong {
        lines::written(rt, name, writer::write(parts, &mut [7; 64]))?;
    }
    let answer = writer::write(right, &mut [7; 46]);
    lines::written(rt, "one byte too little room", answer)?;
    let mut enough = [7; 47];
    let answer = writer::write(right, &mut enough);
    lines::written(rt, "just enough room", answer)?;
    lines::checked(rt, "what was written", Rule::of_file(&enough))
}

// A file opened. The book is lent full of sevens: what is not written stays.
pub fn open(rt: &impl Print, name: &str, file: &[u8]) -> io::Result<()> {
    let mut book = [7; 4];
    let answer = reading::open(file, &mut book);
    lines::opened(rt, name, answer, book)
}

pub fn openings(rt: &impl Print) -> io::Result<()> {
    open(rt, "rule A opened", &RULE_A)?;
    open(rt, "rule B opened", &RULE_B)?;
    open(rt, "rule C opened", &RULE_C)?;
    open(rt, "another initial state opened", &changed(7, 1))?;
    open(rt, "one state opened", &RULE_OF_ONE)?;
    open(rt, "no moves opened", &RULE_OF_NONE)
}

pub fn unopened(rt: &impl Print) -> io::Result<()> {
    open(rt, "a cut file opened", &RULE_A[0..46])?;
    let mut book = [7; 4];
    let answer = reading::open(&RULE_A, &mut book[..3]);
    lines::opened(rt, "a book of three words", answer, book)
}
