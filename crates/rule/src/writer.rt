// The writer: the numbers and tables of a rule, laid into a lent output as the bytes of its file.
ghost use Rattle.std.specs.Prelude.{◌≡◌, ◌+◌, ◌≤◌, length, ◌++◌};
ghost use Rattle.meaning.specs.Calls.{says};
ghost use Rattle.meaning.specs.RuleFile.{numbers_body, record_bytes, write_check, output_after};
ghost use Rattle.rule.specs.Checks.{kind_code, bare_rule, parts_rule, given_check};
ghost use Rattle.rule.specs.Laid.{laid, header_bytes};

use crate::Rule;
use crate::check::{numbers_check, table_check};
use crate::kind::Kind;
use crate::layout::{LETTER_RECORD, Layout, NUMBERS};
use crate::range::Range;
use crate::tables::HEADER;
use meaning::{Reason, Refusal};

// A rule as the writer is given it: its numbers, and the bytes of its tables.
#[derive(Clone, Copy)]
pub struct Parts<'a> {
    pub rule: Rule,
    pub letter_moves: &'a [u8],
    pub tree_moves: &'a [u8],
    pub classes: &'a [u8],
}

// The header of a record, laid down at a place.
fn header(output: &mut [u8], place: usize, kind: Kind, size: usize)
    requires { place + 6 ≤ length output.old }
    ensures { output.new ≡ laid place (header_bytes (kind_code kind) size) output.old }
{
    let [low, second, third, fourth, ..] = size.to_le_bytes();
    let [kind_low, kind_high] = kind.code().to_le_bytes();
    output[place] = low;
    output[place + 1] = second;
    output[place + 2] = third;
    output[place + 3] = fourth;
    output[place + 4] = kind_low;
    output[place + 5] = kind_high;
}

// A record with its body: the header is laid down, and the output after it lent on.
fn record(output: &mut [u8], place: usize, kind: Kind, body: &[u8])
    requires { place + 6 + length body.now ≤ length output.old }
    ensures { output.new ≡ laid place (record_bytes (kind_code kind) body.now) output.old }
{
    header(output, place, kind, body.len());
    let start = place + HEADER;
    copy_body(&mut output[start..], body);
}

// A body, copied to the front of what is left of the output. By a loop, since `copy_from_slice` would ask `memmove` of whoever links
// the archive.
fn copy_body(output: &mut [u8], body: &[u8])
    requires { length body.now ≤ length output.old }
    ensures { output.new ≡ laid 0 body.now output.old }
{
    for (i, &byte) in body.iter().enumerate() {
        output[i] = byte;
    }
}

// The first record.
fn numbers(output: &mut [u8], rule: Rule)
    requires { 11 ≤ length output.old }
    ensures { output.new ≡ laid 0 (record_bytes 1 (numbers_body (bare_rule rule))) output.old }
{
    let [low, high] = rule.letters.to_le_bytes();
    let body = [rule.states, rule.initial, rule.tree_start, low, high];
    record(output, 0, Kind::Numbers, &body);
}

// The three tables, after the first record. Their places go by the tables' own lengths, for which alone room is asked.
fn tables(output: &mut [u8], parts: Parts)
    requires { 29 + length parts.letter_moves.now + length parts.tree_moves.now + length parts.classes.now ≤ length output.old }
    ensures { output.new ≡ laid 11 (record_bytes 2 parts.entry.letter_moves.now ++ (record_bytes 3 parts.entry.tree_moves.now ++ record_bytes 4 parts.entry.classes.now)) output.old }
{
    let letter_moves = parts.letter_moves;
    let tree_moves = parts.tree_moves;
    let classes = parts.classes;
    record(output, LETTER_RECORD, Kind::LetterMoves, letter_moves);
    let tree_record = LETTER_RECORD + HEADER + letter_moves.len();
    record(output, tree_record, Kind::TreeMoves, tree_moves);
    let class_record = tree_record + HEADER + tree_moves.len();
    record(output, class_record, Kind::Classes, classes);
}

// The lengths of the tables that are given, and then their bytes; the places are those in the file to be.
#[tactic(auto, unfolding(meaning::specs::RuleFile::letter_record, meaning::specs::RuleFile::tree_record, meaning::specs::RuleFile::class_record, meaning::specs::RuleFile::file_length))]
fn given_check(parts: Parts) -> Result<(), Refusal>
    ensures { says result ≡ given_check (parts_rule parts.entry) }
{
    let rule = parts.rule;
    let at = Layout::of(rule);
    if parts.letter_moves.len() != at.letter_moves {
        return Err(Reason::WrongLength.at(LETTER_RECORD));
    }
    if parts.tree_moves.len() != at.tree_moves {
        return Err(Reason::WrongLength.at(at.tree_record));
    }
    if parts.classes.len() != rule.states as usize {
        return Err(Reason::WrongLength.at(at.class_record));
    }
    let moves = Range::moves(rule.states);
    table_check(parts.letter_moves, LETTER_RECORD + HEADER, moves)?;
    table_check(parts.tree_moves, at.tree_record + HEADER, moves)?;
    table_check(parts.classes, at.class_record + HEADER, Range::CLASSES)
}

// The checks of the writer, in their order: the numbers, the tables, and the room.
fn write_check(parts: Parts, room: usize) -> Result<usize, Refusal>
    ensures { says result ≡ write_check (parts_rule parts.entry) room }
{
    numbers_check(parts.rule)?;
    given_check(parts)?;
    let count = Layout::of(parts.rule).count;
    if room < count {
        return Err(Reason::OutputTooShort.at(count));
    }
    Ok(count)
}

// The bytes of a rule's file, laid into the output: the count of them, or a refusal, all checks made before the first store.
pub fn write(parts: Parts, output: &mut [u8]) -> Result<usize, Refusal>
    ensures answer { says result ≡ write_check (parts_rule parts.entry) (length output.old) }
    ensures output_after { output.new ≡ output_after (write_check (parts_rule parts.entry) (length output.old)) (parts_rule parts.entry) output.old }
{
    let count = write_check(parts, output.len())?;
    numbers(output, parts.rule);
    tables(output, parts);
    Ok(count)
}
