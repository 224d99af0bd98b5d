// Whether a level is settled: the words of the book, one bit for each state.
ghost use Rattle.std.specs.Prelude.{◌≡◌, ◌+◌, ◌<◌, length};
ghost use Rattle.meaning.specs.SkipBook.{bit};
ghost use Rattle.meaning.specs.Skipping as skipping;
ghost use Rattle.turning.specs.Readings.{BookServes};
ghost use Rattle.turning.specs.Turns.{is_held, is_settled, Stands};

use meaning::{Level, Reading};

// How a level is settled by the book: not at all, since its state is in still, or since it has an upper state u and its state is
// in hold(u).
#[derive(Clone, Copy, Debug, PartialEq, Eq)]
pub enum Settled {
    Not,
    Still,
    Held,
}

impl Settled {
    // How the book settles the level.
    pub fn of(book: &[u64], reading: Reading, top: Level) -> Self
        requires { BookServes book.now reading top }
        ensures { Stands book.now reading top result }
    {
        Settled::by(book, reading, in_hold(book, reading, top))
    }

    // The same, where it is known whether the level is held. A flag, since this call asks for no more of the book than it did.
    pub fn by(book: &[u64], reading: Reading, held: bool) -> Self
        requires state_bit { reading.state < 64 }
        requires still_word { 0 < length book.now }
        ensures { (top : Level) → held ≡ skipping.held book.now reading top → Stands book.now reading top result }
    {
        if held {
            return Settled::Held;
        }
        if in_set(book[0], reading.state) {
            return Settled::Still;
        }
        Settled::Not
    }

    #[tactic(auto, unfolding(crate::specs::Turns::is_held))]
    pub fn is_held(self) -> bool
        ensures { result ≡ is_held self }
    {
        matches!(self, Settled::Held)
    }

    #[tactic(auto, unfolding(crate::specs::Turns::is_settled))]
    pub fn is_settled(self) -> bool
        ensures { result ≡ is_settled self }
    {
        !matches!(self, Settled::Not)
    }
}

// Whether a state is in the set that a word stands for: its bit.
#[tactic(auto, unfolding(meaning::specs::SkipBook::bit))]
fn in_set(word: u64, state: u8) -> bool
    requires { state < 64 }
    ensures { result ≡ bit word state }
{
    (word >> state) % 2 == 1
}

// Whether the level has an upper state u and the state is in hold(u). What it asks of book, reading and record is asked in three
// places, and by no type: nothing holds just these three.
pub fn in_hold(book: &[u64], reading: Reading, top: Level) -> bool
    requires { BookServes book.now reading top }
    ensures { result ≡ skipping.held book.now reading top }
{
    if reading.depth == 0 {
        return false;
    }
    let hold = 1 + usize::from(top.above);
    in_set(book[hold], reading.state)
}
