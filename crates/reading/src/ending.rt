// The end of a reading, by value: the class of the state is the verdict.
ghost use Rattle.std.specs.Prelude.{◌≡◌, ◌<◌};
ghost use Rattle.meaning.specs.RuleFile.{rule_of};
ghost use Rattle.meaning.specs.Calls.{end_says, open_place, end_of};

use meaning::{Judgement, Level, Reading, Reason, Refusal, Verdict};
use rule::{CheckedRule, tables};

// The opening in the innermost stored record, or the events taken if none is stored.
fn open_place(reading: Reading, top: Level) -> usize
    ensures { result ≡ open_place reading top }
{
    if 0 < reading.depth {
        return top.opened as usize;
    }
    reading.taken as usize
}

// A level or skip depth still open, or else the verdict.
pub fn end_of(rule: CheckedRule, reading: Reading, top: Level) -> Result<Judgement, Refusal>
    requires { reading.state < rule.rule.states }
    ensures { end_says result ≡ end_of (rule_of rule.entry.file.now) reading top }
{
    if 0 < u64::from(reading.depth) + u64::from(reading.skip) {
        return Err(Reason::LeftOpen.at(open_place(reading, top)));
    }
    let class = tables::class_at(rule.file, rule.rule, reading.state);
    Ok(Judgement {
        verdict: Verdict::try_from(class).unwrap(),
        state: reading.state,
    })
}
