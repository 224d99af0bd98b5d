// Passing over a run of events on a settled level, by counting alone: no table, no store and no book is read.
ghost use Rattle.std.specs.Prelude.{◌≡◌, true, List, [], ◌∷◌, ℕ, ◌+◌, ◌≤◌, ◌<◌, length, IfSome};
ghost use Rattle.meaning.specs.FullReading.{most_events};
ghost use Rattle.meaning.specs.Skipping as skipping;
ghost use Rattle.turning.specs.Readings.{Counted};
ghost use Rattle.turning.specs.PassingOver.{CountsOf, no_event, one_more, joined, Short, DepthsOf, AllPassed, PassedIn, PassesOver};

use crate::PassedTo;
use crate::turns::{CLOSE, FIRST_LETTER, MOST_EVENTS, OPEN};
use meaning::{Level, Reading};

// How many events are looked at together, and how many are looked at one by one before that: a short part is over by then.
const BLOCK: usize = 256;

const FIRST: usize = 128;

// A part of a block, of four.
const QUARTER: usize = BLOCK / 4;

// How many events of a run open a tree, how many close one, and the largest event.
#[derive(Clone, Copy, Default)]
struct Counts {
    pub opens: u16,
    pub closes: u16,
    pub largest: u16,
}

impl Counts {
    // The counts of a block. Counting has no branch on an event, so that it is done for many at a time.
    fn of(block: &[u16]) -> Counts
        requires { length block.now ≤ 256 }
        ensures { CountsOf block.now result }
    {
        let mut counts = Counts::default();
        for &event in block {
            counts.opens += u16::from(event == OPEN);
            counts.closes += u16::from(event == CLOSE);
            counts.largest = counts.largest.max(event);
        }
        counts
    }
}

// The skip depths of a run: the one at which it was begun, the lowest and the last.
#[derive(Clone, Copy, Debug, PartialEq, Eq)]
struct Depths {
    pub begun: u16,
    pub lowest: u16,
    pub last: u16,
}

impl Depths {
    // A run of no events.
    #[tactic(auto, unfolding(crate::specs::PassingOver::no_event))]
    fn begun_at(depth: u16) -> Depths
        ensures { result ≡ no_event depth }
    {
        Depths {
            begun: depth,
            lowest: depth,
            last: depth,
        }
    }

    // A run with one event more.
    #[tactic(auto, unfolding(crate::specs::PassingOver::one_more))]
    fn with(self, event: u16) -> Depths
        requires not_low { 0 < self.last }
        requires not_high { self.last ≤ 256 }
        ensures { result ≡ one_more self event }
    {
        let last = self.last + u16::from(event == OPEN) - u16::from(event == CLOSE);
        Depths {
            begun: self.begun,
            lowest: self.lowest.min(last),
            last,
        }
    }

    // Two runs, one after the other.
    #[tactic(auto, unfolding(crate::specs::PassingOver::joined))]
    fn then(self, next: Depths) -> Depths
        requires short { Short self }
        requires next_short { Short next }
        ensures { result ≡ joined self next }
    {
        Depths {
            begun: self.begun + next.begun,
            lowest: (self.lowest + next.begun).min(self.last + next.lowest),
            last: self.last + next.last,
        }
    }

    // The depths of a block, which is begun at 256: no close of it then falls below zero. Its four parts, each begun at 64, are
    // followed side by side, since none has to wait for another; by one index, which is plainer than four iterators in one.
    fn of(block: &[u16]) -> Depths
        requires { length block.now ≡ 256 }
        ensures depths { DepthsOf block.now result }
        ensures begun { result.begun ≡ 256 }
    {
        let mut a = Depths::begun_at(QUARTER as u16);
        let mut b = a;
        let mut c = a;
        let mut d = a;
        for i in 0..QUARTER {
            a = a.with(block[i]);
            b = b.with(block[QUARTER + i]);
            c = c.with(block[2 * QUARTER + i]);
            d = d.with(block[3 * QUARTER + i]);
        }
        a.then(b).then(c.then(d))
    }
}

// How many events were passed over, and the skip depth after them.
#[derive(Clone, Copy, Debug, PartialEq, Eq)]
struct Passed {
    pub count: usize,
    pub skip: u32,
}

// The skip depth after an event, unless it is unknown or its close ends the level.
fn after_event(known: u16, skip: u32, event: u16) -> Option<u32>
    requires { skip < most_events }
    ensures { IfSome result (λ after. AllPassed known skip (event ∷ []) after) }
{
    if known <= event {
        return None;
    }
    // The open is counted first, so that no branch hangs on which event it is.
    let opened = skip + u32::from(event == OPEN);
    opened.checked_sub(u32::from(event == CLOSE))
}

// A run of events on a settled level, the skip depth before it, and how many events are known.
#[derive(Clone, Copy)]
struct Run<'a> {
    known: u16,
    skip: u32,
    events: &'a [u16],
    ghost within_limit: { skip + length events.now ≤ most_events },
}

impl Run<'_> {
    // Its events one by one, up to the close that ends the level or an event that is unknown.
    fn pass_events(&self) -> Passed
        ensures { PassedIn self.now.known self.now.skip self.now.events.now result }
    {
        let mut skip = self.skip;
        for (count, &event) in self.events.iter().enumerate() {
            let Some(after) = after_event(self.known, skip, event) else {
                return Passed { count, skip };
            };
            skip = after;
        }
        let count = self.events.len();
        Passed { count, skip }
    }

    // The skip depth after it, where it is a whole block of known events and it can be told that no close of it ends the level:
    // its closes are no more than the skip depth, or else its lowest depth, from here, is not below zero.
    fn after_block(&self) -> Option<u32>
        ensures { IfSome result (λ after. AllPassed self.now.known self.now.skip self.now.events.now after) }
    {
        if self.events.len() != BLOCK {
            return None;
        }
        let counts = Counts::of(self.events);
        if self.known <= counts.largest {
            return None;
        }
        if let Some(left) = self.skip.checked_sub(u32::from(counts.closes)) {
            return Some(left + u32::from(counts.opens));
        }
        let depths = Depths::of(self.events);
        let lowest = self
            .skip
            .checked_sub(u32::from(depths.begun - depths.lowest))?;
        Some(lowest + u32::from(depths.last - depths.lowest))
    }

    // A block at once where that can be, and else its events one by one.
    fn pass_block(&self) -> Passed
        ensures { PassedIn self.now.known self.now.skip self.now.events.now result }
    {
        match self.after_block() {
            Some(skip) => {
                let count = self.events.len();
                Passed { count, skip }
            }
            None => self.pass_events(),
        }
    }

    // Its first events one by one, and then block by block.
    fn pass(&self) -> Passed
        ensures { PassedIn self.now.known self.now.skip self.now.events.now result }
    {
        let known = self.known;
        let (first, rest) = self.events.split_at(FIRST.min(self.events.len()));
        let begun = Run {
            known,
            skip: self.skip,
            events: first,
        };
        let mut passed = begun.pass_events();
        if passed.count < first.len() {
            return passed;
        }
        for block in rest.chunks(BLOCK) {
            let going = Run {
                known,
                skip: passed.skip,
                events: block,
            };
            let next = going.pass_block();
            passed = Passed {
                count: passed.count + next.count,
                skip: next.skip,
            };
            if next.count < block.len() {
                return passed;
            }
        }
        passed
    }
}

// What can be passed over from here: on a settled level the events up to the close that ends it or an event that is refused, and on
// any other nothing.
// A flag and no Settled: still or held, what is passed over is the same.
pub fn pass_settled(
    letters: u16,
    settled: bool,
    reading: Reading,
    events: &[u16],
    from: usize,
) -> PassedTo
    requires counted { Counted reading }
    requires few_letters { letters ≤ 256 }
    requires not_past { from ≤ length events.now }
    ensures { (book : List ℕ) (top : Level) → settled ≡ skipping.settled book reading top → PassesOver letters book reading top events.now from result }
{
    if !settled {
        return PassedTo {
            reading,
            next: from,
        };
    }
    let left = &events[from..];
    let room = (MOST_EVENTS - reading.taken) as usize;
    let run = Run {
        known: letters + FIRST_LETTER,
        skip: reading.skip,
        events: &left[..room.min(left.len())],
    };
    let passed = run.pass();
    PassedTo {
        reading: Reading {
            skip: passed.skip,
            taken: reading.taken + passed.count as u32,
            ..reading
        },
        next: from + passed.count,
    }
}
