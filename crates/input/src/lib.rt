// The check program's input: where the record of events stands, and the events in its bytes.
#![tactic(auto)]

ghost use Rattle.std.specs.Prelude.{◌≡◌, ◌+◌, ◌<◌, ◌≤◌, length};
ghost use Rattle.meaning.specs.CheckProgram.{front_check};
ghost use Rattle.meaning.specs.RuleFile.{number2};
ghost use Rattle.input.specs.Decoding.{event_count, decoded};
ghost use Rattle.input.specs.Says.{front_says, header_answer};

use meaning::{Reason, Refusal};
use rule::tables::HEADER;
use rule::{Kind, Rule, check};

// Where the record of events starts, which is where the rule's file ends, and how many bytes its body has.
#[derive(Clone, Copy, Debug, PartialEq, Eq)]
pub struct EventsAt {
    pub place: usize,
    pub size: u32,
}

// The header of the record of events.
#[tactic(auto, using(crate::proofs::Headers::header_cases), unfolding(crate::specs::Says::front_says, meaning::specs::Calls::refusal_says, meaning::specs::Calls::number_of, rule::specs::Checks::kind_code))]
fn header_at(front: &[u8], place: usize) -> Result<EventsAt, Refusal>
    ensures { front_says result ≡ header_answer front.now place }
{
    let count = front.len();
    if count < HEADER || count - HEADER < place {
        return Err(Reason::CutShort.at(count));
    }
    if check::number2(front, place + 4) != Kind::Events.code() {
        return Err(Reason::WrongKind.at(place + 4));
    }
    let size = check::number4(front, place);
    if size % 2 == 1 {
        return Err(Reason::WrongLength.at(place));
    }
    Ok(EventsAt { place, size })
}

// The front of an input, which holds the rule's records and a header: where the record of events stands, or the refusal of a bad
// record. The rule check refuses it by the bytes after the fourth record, and there the fifth begins.
pub fn events_at(front: &[u8]) -> Result<EventsAt, Refusal>
    ensures { front_says result ≡ front_check front.now }
{
    match Rule::of_file(front) {
        Ok(_) => Err(Reason::CutShort.at(front.len())),
        Err(refusal) if refusal.number == Reason::BytesAfter.number() => {
            header_at(front, refusal.place)
        }
        Err(refusal) => Err(refusal),
    }
}

// The event that stands at a place.
fn event_at(bytes: &[u8], place: usize) -> u16
    requires { place + 1 < length bytes.now }
    ensures { result ≡ number2 bytes.now place }
{
    check::number2(bytes, place)
}

// The events that bytes hold, two bytes each, into the front of a lent slice, as many as find a slot; the rest stays. It answers
// their count.
pub fn decode(bytes: &[u8], events: &mut [u16]) -> usize
    ensures count { result ≡ event_count (length bytes.now) (length events.old) }
    ensures fits { result ≤ length events.old }
    ensures events { events.new ≡ decoded result bytes.now events.old }
{
    let count = (bytes.len() / 2).min(events.len());
    // By the index: after a `zip` of `iter_mut` nothing is known of the slots, and number2 reads both bytes, here as in the header.
    for (i, event) in events[..count].iter_mut().enumerate() {
        *event = event_at(bytes, i * 2);
    }
    count
}
