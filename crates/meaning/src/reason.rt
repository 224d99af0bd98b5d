// Why a call refuses.
ghost use Rattle.std.specs.Prelude.{◌≡◌};
ghost use Rattle.meaning.specs.Calls.{number_of};

use crate::Refusal;

// The rows of document 01's table, each with its number.
#[derive(Clone, Copy, Debug, PartialEq, Eq, Hash)]
pub enum Reason {
    CutShort = 1,
    WrongKind = 2,
    WrongLength = 3,
    OutOfRange = 4,
    BytesAfter = 5,
    BookTooShort = 6,
    CloseAtTop = 7,
    StoreFull = 8,
    AtCeiling = 9,
    UnknownEvent = 10,
    NoLetterMove = 11,
    LeftOpen = 12,
    NotAReading = 13,
    OutputTooShort = 14,
    RoundsUsedUp = 15,
    EventLimit = 16,
    NoTreeStart = 17,
    NoTreeMove = 18,
}

impl Reason {
    pub fn number(self) -> u8
        ensures { result ≡ number_of self }
    {
        self as u8
    }

    // The refusal for this reason at a place.
    pub fn at(self, place: usize) -> Refusal
        ensures { result ≡ record { number = number_of self; place = place } }
    {
        Refusal {
            number: self.number(),
            place,
        }
    }
}
