// The level store as a reading sees it: its innermost record is read, and what a turn stores is laid in it.
ghost use Rattle.std.specs.Prelude.{◌≡◌};
ghost use Rattle.meaning.specs.Calls.{top_of};
ghost use Rattle.turning.specs.Advancing.{stored};

use levels::{level_at, put_level};
use meaning::{Level, Reading};
use turning::Entry;
use turning::advancing::top_place;

// The innermost stored record, if the depth is above zero.
#[tactic(auto, unfolding(meaning::specs::Calls::top_of))]
pub fn top_of(reading: Reading, levels: &[Level]) -> Level
    ensures { result ≡ top_of reading levels.now }
{
    level_at(levels, top_place(reading))
}

// The record that a turn stores, if there is one.
#[tactic(auto, unfolding(turning::specs::Advancing::stored))]
pub fn lay(levels: &mut [Level], stores: Option<Entry>)
    ensures { levels.new ≡ stored stores levels.old }
{
    if let Some(entry) = stores {
        put_level(levels, entry.place, entry.level);
    }
}
