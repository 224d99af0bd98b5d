// The largest rules: 64 states and 256 letters, written, read back and given their books. In the one each state's letter moves
// lead to the next state, so that Reach takes every round there is before nothing more is added. In the other a tree move leads to
// the next state, with the state itself as lower state: so does the set of the tree start, and the last move waits for all of it.
ghost use Rattle.std.specs.Prelude.{ℕ};

use crate::lines;
use rule::Rule;
use rule::writer::{self, Parts};
use std::io;

const STATES: usize = Rule::MOST_STATES as usize;

const LETTERS: usize = Rule::MOST_LETTERS as usize;

const LETTER_MOVES: usize = STATES * LETTERS;

const TREE_MOVES: usize = STATES * STATES;

// four headers, the four numbers and the three tables
const LONGEST: usize = 4 * 6 + 5 + LETTER_MOVES + TREE_MOVES + STATES;

// A rule that never moves, with every class accepting and no tree start.
const NO_MOVE: Parts<'static> = Parts {
    rule: Rule {
        states: Rule::MOST_STATES,
        initial: 0,
        tree_start: Rule::NONE,
        letters: Rule::MOST_LETTERS,
    },
    letter_moves: &[Rule::NONE; LETTER_MOVES],
    tree_moves: &[Rule::NONE; TREE_MOVES],
    classes: &[2; STATES],
};

// The next state, and a state of its own for the last one.
fn next_of(state: usize, last: u8) -> u8 {
    if state < STATES - 1 {
        state as u8 + 1
    } else {
        last
    }
}

// A table filled in place, by what stands at each place of it: made apart and then moved, the larger one would be on the stack twice.
fn fill<F: Fn(usize) -> u8>(moves: &mut [u8], move_at: F)
    requires { (place : ℕ) → F.pre move_at place }
{
    for (place, to) in moves.iter_mut().enumerate() {
        *to = move_at(place);
    }
}

fn book_of(rt: &impl Print, name: &str, file: &[u8]) -> io::Result<()> {
    let mut book = [0; 65];
    match reading::open(file, &mut book) {
        Ok(opening) => {
            println!(rt;
                "{name} {} {} {} {}",
                opening.still, book[0], book[1], book[64]
            )
        }
        Err(refusal) => println!(rt; "{name} {}", refusal.number),
    }
}

pub fn letters(rt: &impl Print) -> io::Result<()> {
    // a row for each state
    let mut moves = [0; LETTER_MOVES];
    fill(&mut moves, |place| next_of(place / LETTERS, 63));
    let parts = Parts {
        letter_moves: &moves,
        ..NO_MOVE
    };
    let mut file = [0; LONGEST];
    lines::written(rt, "the largest rule", writer::write(parts, &mut file))?;
    lines::checked(rt, "the largest rule read back", Rule::of_file(&file))?;
    book_of(rt, "the largest rule's book", &file)
}

pub fn trees(rt: &impl Print) -> io::Result<()> {
    // only a state with itself as lower state has a move, and the last one goes back
    let mut moves = [0; TREE_MOVES];
    fill(&mut moves, |place| {
        let upper = place / STATES;
        let lower = place % STATES;
        if lower == upper {
            next_of(upper, 62)
        } else {
            Rule::NONE
        }
    });
    let parts = Parts {
        rule: Rule {
            tree_start: 0,
            ..NO_MOVE.rule
        },
        tree_moves: &moves,
        ..NO_MOVE
    };
    let mut file = [0; LONGEST];
    lines::written(
        rt,
        "the longest chain of trees",
        writer::write(parts, &mut file),
    )?;
    book_of(rt, "the longest chain's book", &file)
}
