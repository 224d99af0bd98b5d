// The level store: a lent slice of records, one for each open level. It is indexed in two functions only, and every
// other function reads and writes it through them.
#![tactic(auto)]

ghost use Rattle.std.specs.Prelude.{◌≡◌, length, get_or, set};
ghost use Rattle.meaning.specs.FullReading.{blank};

use meaning::Level;

// How many records the store has.
pub fn room(levels: &[Level]) -> usize
    ensures { result ≡ length levels.now }
{
    levels.len()
}

// The record at a place, or one that stands for nothing where the store has none.
#[tactic(auto, unfolding(meaning::specs::FullReading::blank))]
pub fn level_at(levels: &[Level], at: usize) -> Level
    ensures { result ≡ get_or levels.now at blank }
{
    levels.get(at).copied().unwrap_or_default()
}

// Stores a record at a place, and nothing where the store has no such place.
pub fn put_level(levels: &mut [Level], place: usize, level: Level)
    ensures { levels.new ≡ set levels.old place level }
{
    // After `get_mut` of a slice the proof knows the slice's length and no element, by `if let`, `map` and `iter_mut` alike.
    if place < levels.len() {
        levels[place] = level;
    }
}
