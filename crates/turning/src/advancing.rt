// One turn of feeding, by value: what is passed over on a settled level, and then one event.
ghost use Rattle.std.specs.Prelude.{◌≡◌, ℕ, ◌-◌, ◌<◌, List, length};
ghost use Rattle.meaning.specs.Calls.{top_of};
ghost use Rattle.turning.specs.Turns.{Stands};
ghost use Rattle.turning.specs.Advancing.{FeedsBy, AdvancesBy};

use crate::passing::pass_settled;
use crate::settling::Settled;
use crate::{Advance, Entry, Going, Standing, Turn};
use meaning::{Level, Reading};

// Where the innermost record lies in the store. At the top no record counts, and it is the first.
pub fn top_place(reading: Reading) -> usize
    ensures { result ≡ reading.depth - 1 }
{
    reading.depth.saturating_sub(1) as usize
}

impl<'a> Standing<'a> {
    // One event: what its turn says becomes of the reading, and of the store. That the level is settled as told is a premise and no
    // field: it is of a book, which is asked before and not handed on.
    fn take_event(&self, settled: Settled, events: &[u16], next: usize) -> Advance
        requires { next < length events.now }
        ensures { (book : List ℕ) (store : List Level) → Stands book self.now.reading self.now.top settled → FeedsBy book self.now store → top_of self.now.reading store ≡ self.now.top → length store ≡ self.now.room → AdvancesBy book self.now store events.now next result }
    {
        match self.skip_event(settled, events[next]) {
            // Two arms alike: under `Ok`, of `Stays(after) | Ends(after)`, a proof does not learn which case it was.
            Ok(Turn::Stays(after)) => Advance::storing_none(after, next + 1),
            Ok(Turn::Ends(after)) => Advance::storing_none(after, next + 1),
            Ok(Turn::Stores(level, after)) => {
                let place = self.reading.depth as usize;
                Advance {
                    going: Going::on(after, next + 1),
                    stores: Some(Entry { place, level }),
                }
            }
            Err(reason) => Advance {
                going: Going {
                    reading: self.reading,
                    next: events.len(),
                    ended: Err(reason),
                },
                stores: None,
            },
        }
    }

    // One turn: what can be passed over where the reading stands is taken at once, and then the next event, if one is left. The
    // book is asked once: what is passed over leaves the level as it was.
    // Events and an index: the caller's loop counts from the whole slice, in which AdvancesBy places the next.
    pub fn advance(&self, book: &[u64], events: &[u16], next: usize) -> Advance
        requires book_long { self.now.rule.rule.states < length book.now }
        requires event_left { next < length events.now }
        ensures { (store : List Level) → FeedsBy book.now self.now store → top_of self.now.reading store ≡ self.now.top → length store ≡ self.now.room → AdvancesBy book.now self.now store events.now next result }
    {
        let settled = Settled::of(book, self.reading, self.top);
        let passed = pass_settled(
            self.rule.rule.letters,
            settled.is_settled(),
            self.reading,
            events,
            next,
        );
        if passed.next < events.len() {
            let mut standing = *self;
            standing.reading = passed.reading;
            return standing.take_event(settled, events, passed.next);
        }
        Advance::storing_none(passed.reading, passed.next)
    }
}
