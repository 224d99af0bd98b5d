// Feeding over the level store: all events turn by turn, and what it answers.
ghost use Rattle.std.specs.Prelude.{◌≡◌, ◌≤◌, length};
ghost use Rattle.meaning.specs.RuleFile.{rule_of};
ghost use Rattle.meaning.specs.FullReading.{feed_by};
ghost use Rattle.meaning.specs.Calls.{store_step};
ghost use Rattle.turning.specs.Turns.{Feeds, over};
ghost use Rattle.turning.specs.Advancing.{Gone};
ghost use Rattle.reading.specs.Feeding.{fed_of};

use crate::store::{lay, top_of};
use levels::room;
use meaning::{Fed, Level, Reading};
use rule::CheckedRule;
use turning::{Going, Standing};

// All events, turn by turn, until none is left. What a turn stores is laid in the level store, and what the next one reads is
// read from it. A turn may take many events, so this is no `for` over them.
// Its parameters are those of feed, with the rule for the file.
pub fn feed_loop(
    rule: CheckedRule,
    book: &[u64],
    ceiling: u32,
    reading: Reading,
    levels: &mut [Level],
    events: &[u16],
) -> Going
    requires { Feeds rule.file.now rule.rule book.now reading levels.old }
    ensures { Gone (feed_by (store_step (rule_of rule.entry.file.now) book.now ceiling) (over reading levels.old) events.now) reading (length levels.old) result levels.new }
{
    let count = room(&*levels);
    let mut at = Going::on(reading, 0);
    while at.next < events.len() {
        let standing = Standing {
            rule,
            room: count,
            ceiling,
            reading: at.reading,
            top: top_of(at.reading, &*levels),
        };
        let turn = standing.advance(book, events, at.next);
        lay(&mut *levels, turn.stores);
        at = turn.going;
    }
    at
}

// What feeding answers, from where it began and where it ended.
#[tactic(auto, unfolding(crate::specs::Feeding::fed_of))]
pub fn fed_of(before: Reading, going: Going) -> Fed
    requires { before.taken ≤ going.reading.taken }
    ensures { result ≡ fed_of before going }
{
    Fed {
        taken: going.reading.taken - before.taken,
        reading: going.reading,
        ended: going.end(),
    }
}
