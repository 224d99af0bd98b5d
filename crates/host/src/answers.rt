// The numbers of each answer, laid into the lent slice.
ghost use Rattle.std.specs.Prelude.{◌≡◌, ◌≤◌, ℕ, List, [], ◌∷◌};
ghost use Rattle.std.proofs.Common.{rules};
ghost use Rattle.meaning.specs.Calls.{says};
ghost use Rattle.host.specs.Numbers.{Laid, answer_numbers, rule_values, count_value, opening_values, judgement_values, reading_values, fed_numbers};

use crate::lay::lay;
use meaning::{Fed, Judgement, Opening, Reading, Refusal};
use rule::Rule;

// A value that an answer carries: its numbers, at most six of them.
pub trait Values<const N: usize> {
    ghost values: { Self → List ℕ };

    fn values(self) -> [u64; N]
        ensures { result ≡ values self };

    ghost at_most_six: { N ≤ 6 };
}

impl Values<4> for Rule {
    ghost values = { rule_values };

    ghost at_most_six = { Prim.search rules };

    fn values(self) -> [u64; 4] {
        [
            u64::from(self.states),
            u64::from(self.initial),
            u64::from(self.tree_start),
            u64::from(self.letters),
        ]
    }
}

impl Values<1> for usize {
    ghost values = { count_value };

    ghost at_most_six = { Prim.search rules };

    fn values(self) -> [u64; 1] {
        [self as u64]
    }
}

impl Values<6> for Opening {
    ghost values = { opening_values };

    ghost at_most_six = { Prim.search rules };

    fn values(self) -> [u64; 6] {
        counted(self.still, self.reading)
    }
}

impl Values<2> for Judgement {
    ghost values = { judgement_values };

    ghost at_most_six = { Prim.search rules };

    fn values(self) -> [u64; 2] {
        [u64::from(u8::from(self.verdict)), u64::from(self.state)]
    }
}

// A count and a reading.
fn counted(count: u32, reading: Reading) -> [u64; 6]
    ensures { result ≡ count ∷ reading_values reading }
{
    [
        u64::from(count),
        u64::from(reading.state),
        u64::from(reading.depth),
        u64::from(reading.skip),
        u64::from(reading.taken),
        u64::from(reading.looks),
    ]
}

// The answer of a call that gives its values only where it was not refused.
#[tactic(auto, unfolding(crate::specs::Numbers::answer_numbers, meaning::specs::Calls::says, meaning::specs::Calls::refusal_says))]
pub fn lay_answer<const N: usize, T: Values<N>>(
    answered: Result<T, Refusal>,
    answer: &mut [u64],
) -> bool
    ensures { Laid (answer_numbers T.values (says answered)) answer.old result answer.new }
{
    match answered {
        Ok(value) => lay(0, 0, &value.values(), answer),
        Err(refusal) => lay(refusal.number, refusal.place, &[], answer),
    }
}

// The answer of feeding: its values stand also where it was refused.
#[tactic(auto, unfolding(crate::specs::Numbers::fed_numbers, meaning::specs::Calls::says, meaning::specs::Calls::refusal_says))]
pub fn lay_fed(fed: Fed, answer: &mut [u64]) -> bool
    ensures { Laid (fed_numbers (says fed.ended) fed.taken fed.reading) answer.old result answer.new }
{
    let values = counted(fed.taken, fed.reading);
    match fed.ended {
        Ok(()) => lay(0, 0, &values, answer),
        Err(refusal) => lay(refusal.number, refusal.place, &values, answer),
    }
}
