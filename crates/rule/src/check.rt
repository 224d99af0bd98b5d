// The single checks of a rule file: one pass over its bytes, the tables lent as parts of it.
ghost use Rattle.std.specs.Prelude.{◌≡◌, ◌&&◌, ◌+◌, ◌<◌, ◌^◌, length};
ghost use Rattle.meaning.specs.Answers.{refused, ◌≤?◌};
ghost use Rattle.meaning.specs.Calls.{says};
ghost use Rattle.meaning.specs.RuleFile.{number2, number4, numbers_check, record_check, table_check};
ghost use Rattle.rule.specs.Checks.{in_range, bare_rule, kind_code, body_check, tables_check};

use crate::Rule;
use crate::kind::Kind;
use crate::layout::{LETTER_RECORD, Layout};
use crate::range::Range;
use crate::tables::HEADER;
use meaning::{Reason, Refusal};

// A refusal with any number. Where the number is a reason's, it is `Reason::at`.
#[tactic(auto, unfolding(meaning::specs::Calls::says, meaning::specs::Calls::refusal_says))]
pub fn refuse(number: u8, place: usize) -> Result<(), Refusal>
    ensures { says result ≡ refused number place }
{
    Err(Refusal { number, place })
}

// The number that two bytes stand for.
#[tactic(auto, unfolding(meaning::specs::RuleFile::number2))]
pub fn number2(file: &[u8], place: usize) -> u16
    requires { place + 1 < length file.now }
    ensures { result ≡ number2 file.now place }
{
    u16::from_le_bytes([file[place], file[place + 1]])
}

// The number that four bytes stand for.
#[tactic(auto, unfolding(meaning::specs::RuleFile::number2, meaning::specs::RuleFile::number4))]
pub fn number4(file: &[u8], place: usize) -> u32
    requires { place + 3 < length file.now }
    ensures { result ≡ number4 file.now place }
{
    u32::from_le_bytes([
        file[place],
        file[place + 1],
        file[place + 2],
        file[place + 3],
    ])
}

// A count is from 1 to its most.
fn from_one_to(most: u16, x: u16) -> bool
    ensures { result ≡ (1 ≤? x && x ≤? most) }
{
    (1..=most).contains(&x)
}

// The four numbers, in file order.
pub fn numbers_check(rule: Rule) -> Result<(), Refusal>
    ensures { says result ≡ numbers_check (bare_rule rule) }
{
    if !from_one_to(Rule::MOST_STATES as u16, rule.states as u16) {
        return Err(Reason::OutOfRange.at(6));
    }
    if !Range::states(rule.states).contains(rule.initial) {
        return Err(Reason::OutOfRange.at(7));
    }
    if !Range::moves(rule.states).contains(rule.tree_start) {
        return Err(Reason::OutOfRange.at(8));
    }
    if !from_one_to(Rule::MOST_LETTERS, rule.letters) {
        return Err(Reason::OutOfRange.at(9));
    }
    Ok(())
}

// One record that stands at a place, of a kind and with a body of so many bytes. The kind is no `Kind`, since an answer is promised
// for any number.
pub fn record_check(file: &[u8], place: usize, kind: u16, size: usize) -> Result<(), Refusal>
    requires { place + size < 2 ^ 60 }
    ensures { says result ≡ record_check file.now place kind size }
{
    let count = file.len();
    if count < place + HEADER {
        return Err(Reason::CutShort.at(count));
    }
    if number2(file, place + 4) != kind {
        return Err(Reason::WrongKind.at(place + 4));
    }
    if number4(file, place) as usize != size {
        return Err(Reason::WrongLength.at(place));
    }
    if count < place + HEADER + size {
        return Err(Reason::CutShort.at(count));
    }
    Ok(())
}

// The numbers of a table that stands at a place, the first bad one first.
pub fn table_check(body: &[u8], place: usize, good: Range) -> Result<(), Refusal>
    requires { place < 2 ^ 60 }
    ensures { says result ≡ table_check (in_range good.below good.none) place body.now }
{
    for (i, &x) in body.iter().enumerate() {
        if !good.contains(x) {
            return Err(Reason::OutOfRange.at(place + i));
        }
    }
    Ok(())
}

// One record that stands at a place, and then the numbers in its body.
fn body_check(
    file: &[u8],
    place: usize,
    kind: Kind,
    size: usize,
    good: Range,
) -> Result<(), Refusal>
    requires { place + size < 2 ^ 59 }
    ensures { says result ≡ body_check file.now place (kind_code kind) size good.below good.none }
{
    record_check(file, place, kind.code(), size)?;
    let start = place + HEADER;
    let end = start + size;
    table_check(&file[start..end], start, good)
}

// The three tables of a file whose numbers are in range, and nothing after them. No `CheckedRule`: this check is a part of what makes
// one.
#[tactic(auto, unfolding(meaning::specs::RuleFile::letter_record, meaning::specs::RuleFile::tree_record, meaning::specs::RuleFile::class_record, meaning::specs::RuleFile::file_length))]
pub fn tables_check(file: &[u8], rule: Rule) -> Result<(), Refusal>
    ensures { says result ≡ tables_check file.now rule.states rule.letters }
{
    let at = Layout::of(rule);
    let moves = Range::moves(rule.states);
    let states = rule.states as usize;
    body_check(
        file,
        LETTER_RECORD,
        Kind::LetterMoves,
        at.letter_moves,
        moves,
    )?;
    body_check(file, at.tree_record, Kind::TreeMoves, at.tree_moves, moves)?;
    body_check(file, at.class_record, Kind::Classes, states, Range::CLASSES)?;
    let more = at.count < file.len();
    if more {
        return Err(Reason::BytesAfter.at(at.count));
    }
    Ok(())
}
