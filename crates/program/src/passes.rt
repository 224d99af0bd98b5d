// One reading of the two, fed block by block over 1,024 levels of its own.
ghost use Rattle.std.specs.Prelude.{◌≡◌, [], replicate};
ghost use Rattle.meaning.specs.FullReading.{blank};
ghost use Rattle.meaning.specs.Calls.{end_says, feed_call, finish_fed, largest_ceiling};
ghost use Rattle.meaning.specs.CheckProgram.{program_levels};
ghost use Rattle.program.specs.Passes.{pass_says, fed_on};

use meaning::{Judgement, Level, Reading, Refusal};
use reading::LARGEST_CEILING;

// The levels of a pass.
const LEVELS: usize = 1024;

// A reading so far: once an event is refused, no more is taken.
#[derive(Clone, Copy)]
pub struct Pass {
    pub reading: Reading,
    pub ended: Result<(), Refusal>,
    pub levels: [Level; LEVELS],
}

// Levels that hold nothing.
#[tactic(auto, unfolding(meaning::specs::FullReading::blank))]
fn no_levels() -> [Level; LEVELS]
    ensures { result ≡ replicate program_levels blank }
{
    [Level::default(); LEVELS]
}

impl Pass {
    // Before the first event: a feed of none, from the reading that opening gave.
    pub fn begin(file: &[u8], book: &[u64], first: Reading) -> Pass
        ensures { pass_says result ≡ feed_call file.now book.now largest_ceiling first (replicate program_levels blank) [] }
    {
        let mut pass = Pass {
            reading: first,
            ended: Ok(()),
            levels: no_levels(),
        };
        pass.go_on(file, book, &[]);
        pass
    }

    // More events.
    // File and book are lent to each call: the two passes differ in the book.
    pub fn go_on(&mut self, file: &[u8], book: &[u64], events: &[u16])
        ensures { pass_says self.new ≡ fed_on file.now book.now (pass_says self.old) events.now }
    {
        if self.ended.is_ok() {
            let fed = reading::feed(
                file,
                book,
                LARGEST_CEILING,
                self.reading,
                &mut self.levels,
                events,
            );
            self.reading = fed.reading;
            self.ended = fed.ended;
        }
    }

    // After the last event.
    pub fn end_of(&self, file: &[u8], book: &[u64]) -> Result<Judgement, Refusal>
        ensures { end_says result ≡ finish_fed file.now book.now (pass_says self.now) }
    {
        self.ended?;
        reading::finish(file, book, self.reading, &self.levels)
    }
}
