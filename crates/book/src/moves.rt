// The moves of a rule as sets of states: the tables are walked here, and nowhere else.
ghost use Rattle.std.specs.Prelude.{◌≡◌, ◌||◌, not, [], ◌<◌, get_or};
ghost use Rattle.meaning.specs.RuleFile.{rule_of};
ghost use Rattle.meaning.specs.SkipBook.{bit, goes_to, none_or};
ghost use Rattle.rule.specs.Tables.{move_says};
ghost use Rattle.book.specs.Sets.{StandsFor, StatesOf, Moves, WithTrees, by_letters, by_trees, changing};

use crate::sets::{only, states_with, table_of, union_of};
use rule::tables::Table;
use rule::{CheckedRule, Rule};

// The state that a move leads to, as a set: empty where there is none. By way of the byte for none a look and what is made of it
// compile to one read and one test.
pub fn target(found: Result<u8, Table>) -> u64
    ensures { StandsFor result (λ p. goes_to p (move_says found)) }
{
    let state = found.unwrap_or(Rule::NONE);
    if state < Rule::MOST_STATES {
        only(state)
    } else {
        0
    }
}

// The states that the letters lead to from a state. Letters are no members of a set, and more of them than a set has, so this is
// no `union_of`.
fn by_letters(rule: CheckedRule, state: u8) -> u64
    requires { state < rule.rule.states }
    ensures { StandsFor result (by_letters (rule_of rule.entry.file.now) state) }
{
    let mut set: u64 = 0;
    for letter in 0..rule.rule.letters {
        set |= target(rule::tables::letter_move(rule.file, rule.rule, state, letter));
    }
    set
}

// For each state the states that the letters lead to: the moves with no lower state. The letter table is walked once.
pub fn letter_moves(rule: CheckedRule) -> [u64; 64]
    ensures { Moves (rule_of rule.entry.file.now) [] result }
{
    table_of(rule.rule.states, |state| by_letters(rule, state))
}

// The states that the lower states of a set lead to from an upper state.
fn by_trees(rule: CheckedRule, upper: u8, lowers: u64) -> u64
    requires is_state { upper < rule.rule.states }
    requires lowers_are_states { StatesOf rule.rule.states lowers }
    ensures { StandsFor result (by_trees (rule_of rule.entry.file.now) lowers upper) }
{
    union_of(lowers, |lower| {
        target(rule::tables::tree_move(rule.file, rule.rule, upper, lower))
    })
}

// The table, and in it the tree moves with the lower states of a set.
pub fn with_trees(rule: CheckedRule, table: &[u64; 64], lowers: u64) -> [u64; 64]
    requires { StatesOf rule.rule.states lowers }
    ensures { WithTrees (rule_of rule.entry.file.now) lowers table.now result }
{
    table_of(rule.rule.states, |upper| {
        table[usize::from(upper)] | by_trees(rule, upper, lowers)
    })
}

// Whether a tree move leads from its upper state to another one.
#[tactic(auto, unfolding(rule::specs::Tables::move_says, meaning::specs::SkipBook::none_or))]
fn changed(found: Result<u8, Table>, upper: u8) -> bool
    ensures { result ≡ not (none_or upper (move_says found)) }
{
    found.is_ok_and(|state| state != upper)
}

// The lower states whose tree move leads from an upper state to another one.
pub fn changes(rule: CheckedRule, upper: u8) -> u64
    requires { upper < rule.rule.states }
    ensures { StandsFor result (changing (rule_of rule.entry.file.now) upper) }
{
    states_with(rule.rule.states, |lower| {
        let found = rule::tables::tree_move(rule.file, rule.rule, upper, lower);
        changed(found, upper)
    })
}
