// Opening: the rule check, and then of an accepted rule the book is made, and a reading of it is fresh.
ghost use Rattle.std.specs.Prelude.{◌≡◌, List, ℕ, IfOk, IfErr};
ghost use Rattle.meaning.specs.Answers.{given};
ghost use Rattle.meaning.specs.RuleFile.{rule_of};
ghost use Rattle.meaning.specs.FullReading.{fresh_reading};
ghost use Rattle.meaning.specs.Calls.{says, refusal_says, open_call, opened_book};
ghost use Rattle.rule.specs.Says.{RuleOf};

use book::make_book;
use meaning::{Opening, Reading, Refusal};
use rule::{CheckedRule, Rule};

// A rule that was opened, by which a whole document goes on, and what opening gave.
#[derive(Clone, Copy)]
pub struct Opened<'a> {
    pub rule: CheckedRule<'a>,
    pub gave: Opening,
}

// The initial state and four zeros.
fn fresh_reading(rule: Rule) -> Reading
    ensures { (file : List ℕ) → RuleOf file rule → result ≡ fresh_reading (rule_of file) }
{
    Reading {
        state: rule.initial,
        ..Reading::default()
    }
}

// The book is written last, so a refusal leaves it untouched.
pub fn open_rule(rule: CheckedRule, book: &mut [u64]) -> Result<Opening, Refusal>
    ensures answer { says result ≡ open_call rule.entry.file.now book.old }
    ensures book_after { book.new ≡ opened_book rule.entry.file.now book.old }
{
    let still = make_book(rule, book)?;
    Ok(Opening {
        reading: fresh_reading(rule.rule),
        still,
    })
}

// The rule check, once, and then the rule that it accepts is opened. Whoever opens goes through here.
pub fn open<'a>(file: &'a [u8], book: &mut [u64]) -> Result<Opened<'a>, Refusal>
    ensures opens { IfOk result (λ opened. (opened.rule.file.now ≡ file.now) × (open_call file.now book.old ≡ given opened.gave)) }
    ensures refuses { IfErr result (λ refusal. open_call file.now book.old ≡ refusal_says refusal) }
    ensures book_after { book.new ≡ opened_book file.now book.old }
{
    let rule = CheckedRule::of_file(file)?;
    let gave = open_rule(rule, book)?;
    Ok(Opened { rule, gave })
}
