// What feed and finish check first: the rule, the length of the book, and that the reading is one.
ghost use Rattle.std.specs.Prelude.{◌≡◌, not, ◌&&◌, ◌||◌, ◌≤◌, ◌<◌, length, IfOk, IfErr};
ghost use Rattle.meaning.specs.Answers.{given, ◌<?◌};
ghost use Rattle.meaning.specs.RuleFile as format;
ghost use Rattle.meaning.specs.RuleFile.{is_state};
ghost use Rattle.meaning.specs.Skipping.{settled};
ghost use Rattle.meaning.specs.Calls.{refusal_says, depth_past_store, levels_past_taken, looks_past_taken, not_reading};
ghost use Rattle.turning.specs.Readings.{BookServes};
ghost use Rattle.reading.specs.Checks.{aboves_in, reading_answer};

use crate::store::top_of;
use levels::{level_at, room};
use meaning::{Level, Reading, Reason, Refusal};
use rule::CheckedRule;
use turning::settling::Settled;

// Whether the stored states below the depth are all below n. By their places: the answer is of every depth, also past the store.
pub fn stored_in(levels: &[Level], depth: usize, states: u8) -> bool
    ensures { result ≡ aboves_in states depth levels.now }
{
    (0..depth).all(|place| level_at(levels, place).above < states)
}

// Whether the skip depth is above zero on a level that is not settled.
fn skips_unsettled(book: &[u64], reading: Reading, top: Level) -> bool
    requires { BookServes book.now reading top }
    ensures { result ≡ (0 <? reading.skip && not (settled book.now reading top)) }
{
    0 < reading.skip && !Settled::of(book, reading, top).is_settled()
}

// Whether the state or a stored one is not below n, or the depth is above the store's length. The store is looked into only where it
// is that long.
fn states_out(states: u8, reading: Reading, levels: &[Level]) -> bool
    ensures { result ≡ (not (is_state states reading.state) || (depth_past_store reading levels.now || not (aboves_in states reading.depth levels.now))) }
{
    let depth = reading.depth as usize;
    states <= reading.state || room(levels) < depth || !stored_in(levels, depth, states)
}

// Whether the open levels or the looks are above the events taken.
fn counts_out(reading: Reading) -> bool
    ensures { result ≡ (levels_past_taken reading || looks_past_taken reading) }
{
    u64::from(reading.taken) < u64::from(reading.depth) + u64::from(reading.skip)
        || reading.taken < reading.looks
}

// Number 13: whether what was handed in is not a reading of a rule with so many states.
fn not_reading(states: u8, book: &[u64], reading: Reading, levels: &[Level]) -> bool
    requires few_states { states ≤ 64 }
    requires long_book { states < length book.now }
    ensures { (R : format.Rule) → R.states ≡ states → result ≡ not_reading R book.now reading levels.now }
{
    states_out(states, reading, levels)
        || skips_unsettled(book, reading, top_of(reading, levels))
        || counts_out(reading)
}

// What feed and finish check first: the rule, 6, 13.
pub fn admit<'a>(
    file: &'a [u8],
    book: &[u64],
    reading: Reading,
    levels: &[Level],
) -> Result<CheckedRule<'a>, Refusal>
    ensures admits { IfOk result (λ checked. (checked.file.now ≡ file.now) × (reading_answer file.now book.now reading levels.now ≡ given checked.rule)) }
    ensures refuses { IfErr result (λ refusal. reading_answer file.now book.now reading levels.now ≡ refusal_says refusal) }
{
    let checked = CheckedRule::of_file(file)?;
    if book.len() <= usize::from(checked.rule.states) {
        return Err(Reason::BookTooShort.at(0));
    }
    if not_reading(checked.rule.states, book, reading, levels) {
        return Err(Reason::NotAReading.at(0));
    }
    Ok(checked)
}
