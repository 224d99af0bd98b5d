// What one event leads to, from the reading and the innermost level's record alone: the level store is not seen here.
// Each function answers what the definition of its name says.
ghost use Rattle.std.specs.Prelude.{◌≡◌, List, ℕ, ◌+◌, ◌<◌, Result};
ghost use Rattle.meaning.specs.RuleFile.{rule_of};
ghost use Rattle.meaning.specs.FullReading.{opens, closes, letter, event_of, most_events};
ghost use Rattle.meaning.specs.FullReading as full;
ghost use Rattle.meaning.specs.Skipping as skipping;
ghost use Rattle.meaning.specs.Skipping.{skip_event};
ghost use Rattle.turning.specs.Turns.{turn_says, look_says, look_answer, Stands, full_by, ends_by, settled_by};

use crate::settling::Settled;
use crate::{Standing, Turn};
use meaning::{Level, Reading, Reason};
use rule::tables;
use rule::tables::Table;

// The most events that a reading takes.
pub const MOST_EVENTS: u32 = u32::MAX;

// The events that open and close a tree; from the first letter on, all are letters.
// Numbers and no enum: events are a lent slice of u16.
pub(crate) const OPEN: u16 = 0;

pub(crate) const CLOSE: u16 = 1;

pub(crate) const FIRST_LETTER: u16 = 2;

impl<'a> Standing<'a> {
    // An event: the event limit and the known letters, and then what the settled level or full reading makes of it.
    pub fn skip_event(&self, settled: Settled, event: u16) -> Result<Turn, Reason>
        ensures { (book : List ℕ) → Stands book self.now.reading self.now.top settled → turn_says self.now.reading result ≡ skip_event (rule_of self.now.rule.file.now) book self.now.room self.now.ceiling self.now.reading self.now.top event }
    {
        let known = self.rule.rule.letters + FIRST_LETTER;
        if MOST_EVENTS <= self.reading.taken {
            return Err(Reason::EventLimit);
        }
        if known <= event {
            return Err(Reason::UnknownEvent);
        }
        let taking = Taking { standing: *self };
        if settled.is_settled() {
            return taking.settled_turn(settled, event);
        }
        taking.full_turn(event)
    }
}

// An event that is taken: the event limit is not reached yet.
#[derive(Clone, Copy)]
struct Taking<'a> {
    standing: Standing<'a>,
    ghost more: { standing.reading.taken < most_events },
}

impl<'a> Taking<'a> {
    // The reading after an event that was no look, and that left the level as it was.
    #[tactic(auto, unfolding(meaning::specs::Skipping::passed))]
    fn taken(&self) -> Reading
        ensures { result ≡ skipping.passed self.now.standing.reading self.now.standing.reading.state self.now.standing.reading.depth self.now.standing.reading.skip }
    {
        let reading = self.standing.reading;
        Reading {
            taken: reading.taken + 1,
            ..reading
        }
    }

    // The reading after an event that was a look.
    #[tactic(auto, unfolding(meaning::specs::Skipping::passed, meaning::specs::FullReading::looked))]
    fn looked(&self, state: u8, depth: u32) -> Reading
        ensures { result ≡ full.looked self.now.standing.reading state depth }
    {
        let looks = self.standing.reading.looks + 1;
        Reading {
            state,
            depth,
            looks,
            ..self.taken()
        }
    }

    // A look: the ceiling first, and then the move that the table has.
    fn look_up(&self, found: Result<u8, Table>) -> Result<u8, Reason>
        ensures { look_says self.now.standing.reading result ≡ look_answer self.now.standing.ceiling self.now.standing.reading found }
    {
        if self.standing.ceiling <= self.standing.reading.looks {
            return Err(Reason::AtCeiling);
        }
        Ok(found?)
    }

    // A letter in full reading. The level store's length and the innermost record do not matter.
    fn full_letter(&self, a: u16) -> Result<Turn, Reason>
        requires { a < self.now.standing.rule.rule.letters }
        ensures { turn_says self.now.standing.reading result ≡ full_by self.now.standing (letter a) }
    {
        let rule = self.standing.rule;
        let reading = self.standing.reading;
        let state = self.look_up(tables::letter_move(rule.file, rule.rule, reading.state, a))?;
        Ok(Turn::Stays(self.looked(state, reading.depth)))
    }

    // An open in full reading.
    fn full_open(&self) -> Result<Turn, Reason>
        ensures { turn_says self.now.standing.reading result ≡ full_by self.now.standing opens }
    {
        let reading = self.standing.reading;
        if self.standing.room <= reading.depth as usize {
            return Err(Reason::StoreFull);
        }
        let state = self.look_up(tables::tree_start(self.standing.rule.rule))?;
        let opened = Level {
            above: reading.state,
            opened: reading.taken,
        };
        Ok(Turn::Stores(opened, self.looked(state, reading.depth + 1)))
    }

    // A close in full reading.
    fn full_close(&self) -> Result<Turn, Reason>
        ensures { turn_says self.now.standing.reading result ≡ full_by self.now.standing closes }
    {
        let rule = self.standing.rule;
        let reading = self.standing.reading;
        if reading.depth == 0 {
            return Err(Reason::CloseAtTop);
        }
        let state = self.look_up(tables::tree_move(
            rule.file,
            rule.rule,
            self.standing.top.above,
            reading.state,
        ))?;
        Ok(Turn::Ends(self.looked(state, reading.depth - 1)))
    }

    // An event in full reading.
    fn full_turn(&self, event: u16) -> Result<Turn, Reason>
        requires { event < self.now.standing.rule.rule.letters + 2 }
        ensures { turn_says self.now.standing.reading result ≡ full_by self.now.standing (event_of event) }
    {
        match event {
            OPEN => self.full_open(),
            CLOSE => self.full_close(),
            _ => self.full_letter(event - FIRST_LETTER),
        }
    }

    // A close on a settled level at skip depth zero, which ends the level. Only a held level ends without a look.
    fn ends_level(&self, settled: Settled) -> Result<Turn, Reason>
        ensures { (book : List ℕ) → Stands book self.now.standing.reading self.now.standing.top settled → turn_says self.now.standing.reading result ≡ ends_by book self.now.standing }
    {
        let reading = self.standing.reading;
        if settled.is_held() {
            let depth = reading.depth.saturating_sub(1);
            return Ok(Turn::Ends(Reading {
                state: self.standing.top.above,
                depth,
                ..self.taken()
            }));
        }
        self.full_close()
    }

    // An event that stands on a settled level: nothing is looked up until the close that ends the level.
    fn settled_turn(&self, settled: Settled, event: u16) -> Result<Turn, Reason>
        ensures { (book : List ℕ) → Stands book self.now.standing.reading self.now.standing.top settled → turn_says self.now.standing.reading result ≡ settled_by book self.now.standing (event_of event) }
    {
        let reading = self.standing.reading;
        match event {
            OPEN => Ok(Turn::Stays(Reading {
                skip: reading.skip + 1,
                ..self.taken()
            })),
            CLOSE if 0 < reading.skip => Ok(Turn::Stays(Reading {
                skip: reading.skip - 1,
                ..self.taken()
            })),
            CLOSE => self.ends_level(settled),
            _ => Ok(Turn::Stays(self.taken())),
        }
    }
}
