// One event and one turn of feeding, by value: from the reading and the innermost level's record alone. The level store is not
// seen here.
#![tactic(auto)]

pub mod advancing;
pub mod passing;
pub mod settling;
pub mod turns;

ghost use Rattle.std.specs.Prelude.{◌≡◌, Ok, None};
ghost use Rattle.turning.specs.Readings.{StatesIn, Counted};

use meaning::{Level, Reading, Reason, Refusal};
use rule::CheckedRule;

// What an event is judged by: the rule, the length of the level store, the ceiling, the reading, and the innermost level's record.
// The states are the rule's, and the levels and the looks are within the events taken.
#[derive(Clone, Copy)]
pub struct Standing<'a> {
    pub rule: CheckedRule<'a>,
    pub room: usize,
    pub ceiling: u32,
    pub reading: Reading,
    pub top: Level,
    pub ghost states_in: { StatesIn rule.rule reading top },
    pub ghost counted: { Counted reading },
}

// What one event leads to where it is not refused: the open levels stay, a record is stored for one more level, or the innermost
// level ends.
#[derive(Clone, Copy, Debug, PartialEq, Eq)]
pub enum Turn {
    Stays(Reading),
    Stores(Level, Reading),
    Ends(Reading),
}

// Where passing over a run of events was left: the reading there, and the index of the next event.
#[derive(Clone, Copy, Debug, PartialEq, Eq)]
pub struct PassedTo {
    pub reading: Reading,
    pub next: usize,
}

// Where feeding stands: the reading there, the index of the next event, and whether one was refused, as then none is left. The place
// of a refused event is not kept beside its reason, since the reading has it: the count of events taken.
#[derive(Clone, Copy, Debug, PartialEq, Eq)]
pub struct Going {
    pub reading: Reading,
    pub next: usize,
    pub ended: Result<(), Reason>,
}

impl Going {
    ghost use Rattle.turning.specs.Advancing.{ended_at};

    // Feeding goes on at the event given: none was refused.
    pub fn on(reading: Reading, next: usize) -> Self
        ensures { result ≡ record { reading = reading; next = next; ended = Ok tt } }
    {
        Going {
            reading,
            next,
            ended: Ok(()),
        }
    }

    // How feeding ended, with the place of the event that was refused.
    #[tactic(auto, unfolding(crate::specs::Advancing::ended_at, crate::specs::Advancing::placed))]
    pub fn end(self) -> Result<(), Refusal>
        ensures { result ≡ ended_at self }
    {
        self.ended
            .map_err(|reason| reason.at(self.reading.taken as usize))
    }
}

// A record to store, with its place in the level store.
#[derive(Clone, Copy, Debug, PartialEq, Eq)]
pub struct Entry {
    pub place: usize,
    pub level: Level,
}

// What one turn leads to: where feeding stands then, and the record to store, if there is one.
#[derive(Clone, Copy, Debug, PartialEq, Eq)]
pub struct Advance {
    pub going: Going,
    pub stores: Option<Entry>,
}

impl Advance {
    // Feeding goes on at the event given, and no record is stored.
    fn storing_none(reading: Reading, next: usize) -> Self
        ensures { result ≡ record { going = record { reading = reading; next = next; ended = Ok tt }; stores = None } }
    {
        Advance {
            going: Going::on(reading, next),
            stores: None,
        }
    }
}
