// Numbers laid in front of what a lent slice held.
ghost use Rattle.std.specs.Prelude.{◌∷◌};
ghost use Rattle.host.specs.Numbers.{Laid, fits, in_front};

// The number of a refusal or 0, its place or 0, and then values. A slice that is too short stays as it was.
#[tactic(auto, unfolding(crate::specs::Numbers::fits, crate::specs::Numbers::in_front))]
pub fn lay(number: u8, place: usize, values: &[u64], answer: &mut [u64]) -> bool
    ensures { Laid (number ∷ place ∷ values.now) answer.old result answer.new }
{
    let count = values.len() + 2;
    let short = answer.len() < count;
    if short {
        return false;
    }
    answer[0] = u64::from(number);
    answer[1] = place as u64;
    answer[2..count].copy_from_slice(values);
    true
}
