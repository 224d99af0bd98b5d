// Verdicts: the class that stands for each in a rule file, and its word.
ghost use Rattle.std.specs.Prelude.{◌≡◌};
ghost use Rattle.meaning.specs.Calls.{verdict_says, IsVerdictOf};

use std::error::Error;
use std::fmt;

// What the class of the end state says.
#[derive(Clone, Copy, Debug, PartialEq, Eq, Hash)]
pub enum Verdict {
    OffSchema = 0,
    Reject = 1,
    Accept = 2,
}

impl From<Verdict> for u8 {
    ghost from_gives = { λ verdict class. class ≡ verdict_says verdict };

    fn from(verdict: Verdict) -> u8 {
        verdict as u8
    }
}

// A byte that is the class of no verdict.
#[derive(Clone, Copy, Debug, PartialEq, Eq, Hash)]
pub struct NoClass(pub u8);

impl TryFrom<u8> for Verdict {
    type Error = NoClass;

    ghost try_from_gives = { IsVerdictOf };

    #[tactic(auto, unfolding(crate::specs::Calls::verdict_says))]
    fn try_from(class: u8) -> Result<Self, NoClass> {
        match class {
            0 => Ok(Verdict::OffSchema),
            1 => Ok(Verdict::Reject),
            2 => Ok(Verdict::Accept),
            _ => Err(NoClass(class)),
        }
    }
}

impl fmt::Display for Verdict {
    fn fmt<W: fmt::Write>(&self, f: &mut fmt::Formatter<W>) -> fmt::Result {
        f.write_str(match self {
            Verdict::OffSchema => "off-schema",
            Verdict::Reject => "reject",
            Verdict::Accept => "accept",
        })
    }
}

impl fmt::Display for NoClass {
    fn fmt<W: fmt::Write>(&self, f: &mut fmt::Formatter<W>) -> fmt::Result {
        write!(f, "no verdict has class {}", self.0)
    }
}

impl Error for NoClass {}
