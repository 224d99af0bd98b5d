// The rule file: the four numbers of a rule, the numbers of the format, and the answers of the check and of the writer.
#![tactic(auto)]

pub mod check;
mod checked;
mod kind;
mod layout;
mod range;
pub mod tables;
pub mod writer;

ghost use Rattle.std.specs.Prelude.{◌≡◌};
ghost use Rattle.meaning.specs.Calls.{says};
ghost use Rattle.rule.specs.Says.{check_answer};
ghost use Rattle.rule.specs.Checks.{numbers_answer};

pub use checked::CheckedRule;
pub use kind::Kind;
use meaning::Refusal;
pub use range::Range;

// The four numbers of a rule. The tree start is the file's byte, none counted, since an answer is promised for any. Its tables stay
// in the bytes of its file, where they are read at computed offsets.
#[derive(Clone, Copy, Debug, PartialEq, Eq, Hash)]
pub struct Rule {
    pub states: u8,
    pub initial: u8,
    pub tree_start: u8,
    pub letters: u16,
}

impl Rule {
    // The most states a rule has.
    pub const MOST_STATES: u8 = 64;

    // The most letters a rule has.
    pub const MOST_LETTERS: u16 = 256;

    // A move or a tree start that is not there.
    pub const NONE: u8 = 255;

    // The rule check: the numbers of the rule that the bytes of a file hold, or the first refusal.
    pub fn of_file(file: &[u8]) -> Result<Self, Refusal>
        ensures { says result ≡ check_answer file.now }
    {
        check::record_check(file, 0, Kind::Numbers.code(), layout::NUMBERS)?;
        let rule = Self::of_numbers(file[6], file[7], file[8], check::number2(file, 9))?;
        check::tables_check(file, rule)?;
        Ok(rule)
    }

    // A rule's numbers, where each is in range. They are handed over apart, since what has them all is a rule. The places of those
    // that are not are the ones in its file.
    pub fn of_numbers(
        states: u8,
        initial: u8,
        tree_start: u8,
        letters: u16,
    ) -> Result<Self, Refusal>
        ensures { says result ≡ numbers_answer states initial tree_start letters }
    {
        let rule = Rule {
            states,
            initial,
            tree_start,
            letters,
        };
        check::numbers_check(rule)?;
        Ok(rule)
    }
}
