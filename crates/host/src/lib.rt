// What a host in C or Rust links: the calls of rule and reading on numbers and slices. Each call lays its answer into a
// lent slice of 64-bit numbers: the number of the refusal or 0, its place or 0, and then the values that were given. It returns
// whether they fitted: into a slice that is too short nothing is laid. Eight numbers are room enough for every call.
#![tactic(auto)]

mod answers;
mod lay;

ghost use Rattle.std.specs.Prelude.{◌≡◌, length};
ghost use Rattle.meaning.specs.RuleFile.{write_check, output_after};
ghost use Rattle.meaning.specs.Calls.{open_call, opened_book, feed_call, finish_call, whole_document};
ghost use Rattle.rule.specs.Says.{check_answer};
ghost use Rattle.rule.specs.Checks.{rule_from};
ghost use Rattle.host.specs.Numbers.{Laid, answer_numbers, rule_values, count_value, opening_values, judged_values, reading_from, FeedLaid, DocumentLaid};

use answers::{lay_answer, lay_fed};
use meaning::{Level, Reading};
use reading::{feed, finish, open, read_document};
use rule::Rule;
use rule::writer::{Parts, write};

// A reading is five parameters in the C interface, of venticapro_feed and venticapro_finish.
fn reading_of(state: u8, depth: u32, skip: u32, taken: u32, looks: u32) -> Reading
    ensures { result ≡ reading_from state depth skip taken looks }
{
    Reading {
        state,
        depth,
        skip,
        taken,
        looks,
    }
}

// The rule check: n, the initial state, the tree start and k.
#[unsafe(no_mangle)]
pub extern "C" fn venticapro_check_rule(file: &[u8], answer: &mut [u64]) -> bool
    ensures { Laid (answer_numbers rule_values (check_answer file.now)) answer.old result answer.new }
{
    lay_answer(Rule::of_file(file), answer)
}

// The writer: the count of bytes, which lie in the output.
// A rule's numbers and tables are parameters in the C interface, of venticapro_write_rule.
#[unsafe(no_mangle)]
pub extern "C" fn venticapro_write_rule(
    states: u8,
    initial: u8,
    tree_start: u8,
    letters: u16,
    letter_moves: &[u8],
    tree_moves: &[u8],
    classes: &[u8],
    output: &mut [u8],
    answer: &mut [u64],
) -> bool
    ensures laid { Laid (answer_numbers count_value (write_check (rule_from states initial tree_start letters letter_moves.now tree_moves.now classes.now) (length output.old))) answer.old result answer.new }
    ensures output_after { output.new ≡ output_after (write_check (rule_from states initial tree_start letters letter_moves.now tree_moves.now classes.now) (length output.old)) (rule_from states initial tree_start letters letter_moves.now tree_moves.now classes.now) output.old }
{
    let rule = Rule {
        states,
        initial,
        tree_start,
        letters,
    };
    let parts = Parts {
        rule,
        letter_moves,
        tree_moves,
        classes,
    };
    lay_answer(write(parts, output), answer)
}

// Open: how many states are still, and the fresh reading, its state and its four counts; the book lies in the words lent. A host
// hands that reading and that book on to feeding and finish. One that wants full reading opens too, and then feeds and finishes
// with a book of n+1 zeros.
#[unsafe(no_mangle)]
pub extern "C" fn venticapro_open(file: &[u8], book: &mut [u64], answer: &mut [u64]) -> bool
    ensures laid { Laid (answer_numbers opening_values (open_call file.now book.old)) answer.old result answer.new }
    ensures book_after { book.new ≡ opened_book file.now book.old }
{
    lay_answer(open(file, book), answer)
}

// Feeding: the events it took and the reading after them, also where an event is refused. The level store is lent as records:
// the state above the level, and the place of its opening.
#[unsafe(no_mangle)]
pub extern "C" fn venticapro_feed(
    file: &[u8],
    book: &[u64],
    ceiling: u32,
    state: u8,
    depth: u32,
    skip: u32,
    taken: u32,
    looks: u32,
    levels: &mut [Level],
    events: &[u16],
    answer: &mut [u64],
) -> bool
    ensures { FeedLaid (feed_call file.now book.now ceiling (reading_from state depth skip taken looks) levels.old events.now) (reading_from state depth skip taken looks) answer.old result levels.new answer.new }
{
    let reading = reading_of(state, depth, skip, taken, looks);
    let fed = feed(file, book, ceiling, reading, levels, events);
    lay_fed(fed, answer)
}

// The end of a reading: the class of the verdict and the end state.
#[unsafe(no_mangle)]
#[tactic(auto, using(crate::proofs::Same::judged_alike))]
pub extern "C" fn venticapro_finish(
    file: &[u8],
    book: &[u64],
    state: u8,
    depth: u32,
    skip: u32,
    taken: u32,
    looks: u32,
    levels: &[Level],
    answer: &mut [u64],
) -> bool
    ensures { Laid (answer_numbers judged_values (finish_call file.now book.now (reading_from state depth skip taken looks) levels.now)) answer.old result answer.new }
{
    let reading = reading_of(state, depth, skip, taken, looks);
    lay_answer(finish(file, book, reading, levels), answer)
}

// A whole document: the class of the verdict and the end state.
#[unsafe(no_mangle)]
#[tactic(auto, using(crate::proofs::Same::judged_alike))]
pub extern "C" fn venticapro_read_document(
    file: &[u8],
    book: &mut [u64],
    levels: &mut [Level],
    events: &[u16],
    answer: &mut [u64],
) -> bool
    ensures { DocumentLaid (whole_document file.now book.old levels.old events.now) answer.old result book.new levels.new answer.new }
{
    lay_answer(read_document(file, book, levels, events), answer)
}
