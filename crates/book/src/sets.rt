// Sets of states as words: bit p for state p.
ghost use Rattle.std.specs.Prelude.{◌≡◌, Bool, true, ℕ, ◌^◌, ◌<◌, ◌≤◌, ◌&&◌, length, get_or};
ghost use Rattle.std.specs.Iterator.{at_most};
ghost use Rattle.meaning.specs.SkipBook.{any_below, bit};
ghost use Rattle.book.specs.Sets.{StandsFor, joined, first_of};
ghost use Rattle.book.specs.Members.{TakesLowest};

// The set with one member.
pub fn only(state: u8) -> u64
    requires { state < 64 }
    ensures { result ≡ 2 ^ state }
{
    1 << state
}

// The members of a set, the lowest first.
#[derive(Drop)]
pub struct Members {
    rest: u64,
}

impl Iterator for Members {
    type Item = u8;

    ghost next_gives = { TakesLowest };

    ghost remaining = { λ members. at_most members.rest };

    fn next(&mut self) -> Option<u8> {
        if self.rest == 0 {
            return None;
        }
        let lowest = self.rest.trailing_zeros() as u8;
        self.rest &= self.rest - 1;
        Some(lowest)
    }
}

impl Members {
    pub fn of(set: u64) -> Members
        ensures { result.rest ≡ set }
    {
        Members { rest: set }
    }
}

// The states of a set's members' own sets, taken together.
pub fn union_of<F: Fn(u8) -> u64>(set: u64, set_of: F) -> u64
    requires { (member : ℕ) → member < 64 → F.pre set_of member }
    ensures { (has : ℕ → ℕ → Bool) → ((member own : ℕ) → bit set member ≡ true → F.post set_of member own → StandsFor own (has member)) → StandsFor result (λ p. any_below 64 (λ member. bit set member && has member p)) }
{
    let mut all: u64 = 0;
    for member in Members::of(set) {
        all |= set_of(member);
    }
    all
}

// The set of those of the first states that pass a test. The bound is the bits of a word; whoever has a rule has it from the rule.
pub fn states_with<F: Fn(u8) -> bool>(states: u8, test: F) -> u64
    requires few_states { states ≤ 64 }
    requires callable { (state : ℕ) → state < states → F.pre test state }
    ensures { (passes : ℕ → Bool) → ((state : ℕ) (answer : Bool) → state < states → F.post test state answer → answer ≡ passes state) → StandsFor result (first_of states passes) }
{
    let mut set: u64 = 0;
    for state in 0..states {
        if test(state) {
            set |= only(state);
        }
    }
    set
}

// A table that has a set for each of the first states.
pub fn table_of<F: Fn(u8) -> u64>(states: u8, set_of: F) -> [u64; 64]
    requires few_states { states ≤ 64 }
    requires callable { (state : ℕ) → state < states → F.pre set_of state }
    ensures long { length result ≡ 64 }
    ensures each { (state : ℕ) → state < states → F.post set_of state (get_or result state 0) }
{
    let mut table = [0; 64];
    // By the state, which the closure takes besides: through iter_mut and zip a proof is told no value of the table.
    for state in 0..states {
        table[usize::from(state)] = set_of(state);
    }
    table
}

// The set, and with it all states that the table has for a member.
pub fn with_members(table: &[u64; 64], set: u64) -> u64
    ensures { StandsFor result (joined table.now set) }
{
    set | union_of(set, |member| table[usize::from(member)])
}
