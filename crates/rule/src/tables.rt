// The tables of a rule, read in the bytes of its file: one read at a computed offset, and no copy. What a look finds names its
// table where there is no move, so that whoever looks need not know in which table it was. File and rule are no `CheckedRule`, since
// each look promises an answer for any bytes and any numbers.
ghost use Rattle.std.specs.Prelude.{◌≡◌, ◌+◌, ◌*◌, ◌<◌, ◌^◌, get_or};
ghost use Rattle.meaning.specs.Calls.{number_of};
ghost use Rattle.meaning.specs.FullReading.{no_move_number};
ghost use Rattle.rule.specs.Tables.{table_says, letter_byte, tree_byte, class_byte, move_in};

use crate::Rule;
use crate::layout::{LETTER_RECORD, Layout};
use meaning::Reason;

// The three tables that a look may be in.
#[derive(Clone, Copy, Debug, PartialEq, Eq, Hash)]
pub enum Table {
    LetterMoves,
    TreeStart,
    TreeMoves,
}

// Where there is no move: the number of the refusal is its table's.
impl From<Table> for Reason {
    ghost from_gives = { λ table reason. number_of reason ≡ no_move_number (table_says table) };

    #[tactic(auto, unfolding(meaning::specs::Calls::number_of, meaning::specs::FullReading::no_move_number, crate::specs::Tables::table_says))]
    fn from(table: Table) -> Reason {
        match table {
            Table::LetterMoves => Reason::NoLetterMove,
            Table::TreeStart => Reason::NoTreeStart,
            Table::TreeMoves => Reason::NoTreeMove,
        }
    }
}

// The bytes before the letter moves.
const LETTER_MOVES: usize = LETTER_RECORD + HEADER;

// The bytes of a header.
pub const HEADER: usize = 6;

// The byte at a place, or none past the end. None is the byte 255 of the format, and what the definition reads there too.
fn byte_or_none(file: &[u8], place: usize) -> u8
    ensures { result ≡ get_or file.now place 255 }
{
    file.get(place).copied().unwrap_or(Rule::NONE)
}

// The move that a byte of a table stands for: the state that it leads to, or the table that has none.
fn move_in(table: Table, byte: u8) -> Result<u8, Table>
    ensures { result ≡ move_in table byte }
{
    if byte == Rule::NONE {
        return Err(table);
    }
    Ok(byte)
}

// The product of two small numbers.
pub(crate) fn product(a: u16, b: u16) -> usize
    ensures { (result ≡ a * b) × (result < 2 ^ 32) }
{
    (a as usize) * (b as usize)
}

// The letter move of a state and a letter, as the file has it. The places of the moves are not by `Layout`: no look needs its other
// sums.
pub fn letter_move(file: &[u8], rule: Rule, state: u8, letter: u16) -> Result<u8, Table>
    ensures { result ≡ move_in Table.LetterMoves (letter_byte file.now rule.letters state letter) }
{
    let row = product(state as u16, rule.letters);
    let byte = byte_or_none(file, LETTER_MOVES + row + letter as usize);
    move_in(Table::LetterMoves, byte)
}

// The tree start, as a move.
pub fn tree_start(rule: Rule) -> Result<u8, Table>
    ensures { result ≡ move_in Table.TreeStart rule.tree_start }
{
    move_in(Table::TreeStart, rule.tree_start)
}

// The tree move of an upper and a lower state, as the file has it.
pub fn tree_move(file: &[u8], rule: Rule, upper: u8, lower: u8) -> Result<u8, Table>
    ensures { result ≡ move_in Table.TreeMoves (tree_byte file.now rule.states rule.letters upper lower) }
{
    let before = product(rule.states as u16, rule.letters);
    let row = product(upper as u16, rule.states as u16);
    let byte = byte_or_none(file, LETTER_MOVES + before + HEADER + row + lower as usize);
    move_in(Table::TreeMoves, byte)
}

// The class of a state, as the file has it.
#[tactic(auto, unfolding(meaning::specs::RuleFile::letter_record, meaning::specs::RuleFile::tree_record, meaning::specs::RuleFile::class_record, meaning::specs::RuleFile::file_length))]
pub fn class_at(file: &[u8], rule: Rule, state: u8) -> u8
    ensures { result ≡ class_byte file.now rule.states rule.letters state }
{
    let place = Layout::of(rule).class_record + HEADER + state as usize;
    byte_or_none(file, place)
}
