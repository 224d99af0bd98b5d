// Which numbers may stand in a table.
ghost use Rattle.std.specs.Prelude.{◌≡◌, true, false};
ghost use Rattle.rule.specs.Checks.{in_range};

use crate::Rule;

// The numbers below a bound, and none where that is allowed. A flag and no enum of two cases: `contains` asks for both at once.
#[derive(Clone, Copy, Debug, PartialEq, Eq, Hash)]
pub struct Range {
    pub below: u8,
    pub none: bool,
}

impl Range {
    // The three classes.
    pub const CLASSES: Range = Range {
        below: 3,
        none: false,
    };

    // The states of a rule with so many.
    pub fn states(states: u8) -> Self
        ensures { result ≡ record { below = states; none = false } }
    {
        Range {
            below: states,
            none: false,
        }
    }

    // The moves of a rule with so many states.
    pub fn moves(states: u8) -> Self
        ensures { result ≡ record { below = states; none = true } }
    {
        Range {
            none: true,
            ..Range::states(states)
        }
    }

    pub fn contains(self, x: u8) -> bool
        ensures { result ≡ in_range self.below self.none x }
    {
        x < self.below || self.none && x == Rule::NONE
    }
}
