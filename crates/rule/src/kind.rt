// The kinds of records.
ghost use Rattle.std.specs.Prelude.{◌≡◌};
ghost use Rattle.rule.specs.Checks.{kind_code};

// The four records of a rule file in their order, and the record of events that follows them in the check program's input.
#[derive(Clone, Copy, Debug, PartialEq, Eq, Hash)]
pub enum Kind {
    Numbers = 1,
    LetterMoves = 2,
    TreeMoves = 3,
    Classes = 4,
    Events = 5,
}

impl Kind {
    // The number in a record's kind field.
    pub fn code(self) -> u16
        ensures { result ≡ kind_code self }
    {
        self as u16
    }
}
