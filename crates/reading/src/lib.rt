// The calls of a reading over the lent level store: open, feed, finish and the whole document. What one event leads to is found
// by value, in `turning`; here it is stored, and the calls check what they are handed.
#![tactic(auto)]

mod checking;
mod ending;
mod feeding;
mod opening;
mod store;

ghost use Rattle.std.specs.Prelude.{◌≡◌};
ghost use Rattle.meaning.specs.Calls.{says, open_call, opened_book, end_says, feed_call, finish_call, whole_document};
ghost use Rattle.reading.specs.Feeding.{FedIs};
ghost use Rattle.reading.specs.Whole.{opened_reading, ReadIs};

use checking::admit;
use ending::end_of;
use feeding::{fed_of, feed_loop};
use meaning::{Fed, Judgement, Level, Opening, Reading, Refusal};
use store::top_of;

// The largest ceiling.
pub const LARGEST_CEILING: u32 = u32::MAX;

// What feeding answers over levels of one's own: the answer, and the levels after it.
#[derive(Clone, Copy)]
pub struct FedArray<const N: usize> {
    pub fed: Fed,
    pub levels: [Level; N],
}

// Open a rule, given as the bytes of its file: the lent book is filled, and the answer is the fresh reading and how many states
// are still. Whoever feeds that reading with that book skips; with a book of zeros it is read in full.
pub fn open(file: &[u8], book: &mut [u64]) -> Result<Opening, Refusal>
    ensures answer { says result ≡ open_call file.now book.old }
    ensures book_after { book.new ≡ opened_book file.now book.old }
{
    let opened = opening::open(file, book)?;
    Ok(opened.gave)
}

// The reading that opening gave, or five zeros where it refused.
// Five zeros and no Option: the call promises a reading for every answer.
#[tactic(auto, unfolding(crate::specs::Whole::opened_reading))]
pub fn first_of<E: Copy>(opened: Result<Opening, E>) -> Reading
    ensures { result ≡ opened_reading opened }
{
    opened.map(|opening| opening.reading).unwrap_or_default()
}

// Feed events to a reading, over the lent level store. The rule check is once a call.
// Six parameters: the call's own, as document 01 lists them.
pub fn feed(
    file: &[u8],
    book: &[u64],
    ceiling: u32,
    reading: Reading,
    levels: &mut [Level],
    events: &[u16],
) -> Fed
    ensures { FedIs (feed_call file.now book.now ceiling reading levels.old events.now) reading result levels.new }
{
    match admit(file, book, reading, &*levels) {
        Ok(rule) => {
            let last = feed_loop(rule, book, ceiling, reading, &mut *levels, events);
            fed_of(reading, last)
        }
        Err(refusal) => Fed {
            taken: 0,
            reading,
            ended: Err(refusal),
        },
    }
}

// The end of a reading: the verdict of its state, or a refusal where a level or skip depth is open.
pub fn finish(
    file: &[u8],
    book: &[u64],
    reading: Reading,
    levels: &[Level],
) -> Result<Judgement, Refusal>
    ensures { end_says result ≡ finish_call file.now book.now reading levels.now }
{
    let rule = admit(file, book, reading, levels)?;
    end_of(rule, reading, top_of(reading, levels))
}

// Feed over levels of one's own, for a caller that holds them by value.
// Six parameters: the call's own, as document 01 lists them.
pub fn feed_array<const N: usize>(
    file: &[u8],
    book: &[u64],
    ceiling: u32,
    reading: Reading,
    mut levels: [Level; N],
    events: &[u16],
) -> FedArray<N>
    ensures { FedIs (feed_call file.now book.now ceiling reading levels.entry events.now) reading result.fed result.levels }
{
    let fed = feed(file, book, ceiling, reading, &mut levels, events);
    FedArray { fed, levels }
}

// Finish over levels of one's own.
pub fn finish_array<const N: usize>(
    file: &[u8],
    book: &[u64],
    reading: Reading,
    levels: [Level; N],
) -> Result<Judgement, Refusal>
    ensures { end_says result ≡ finish_call file.now book.now reading levels.entry }
{
    finish(file, book, reading, &levels)
}

// A whole document: it opens, feeds and finishes, with the largest ceiling. The reading that opening gave and the book that it wrote
// pass every check of feed and finish, so no other is made.
pub fn read_document(
    file: &[u8],
    book: &mut [u64],
    levels: &mut [Level],
    events: &[u16],
) -> Result<Judgement, Refusal>
    ensures { ReadIs (whole_document file.now book.old levels.old events.now) result book.new levels.new }
{
    let opened = opening::open(file, &mut *book)?;
    let first = opened.gave.reading;
    let last = feed_loop(
        opened.rule,
        &*book,
        LARGEST_CEILING,
        first,
        &mut *levels,
        events,
    );
    last.end()?;
    end_of(opened.rule, last.reading, top_of(last.reading, &*levels))
}
