// The body of the record of events, read block by block.
ghost use Rattle.std.specs.Prelude.{◌≡◌, List, ◌++◌, ℕ, ◌≤◌, length, take, IfOk, OnOk, IfSome};
ghost use Rattle.std.specs.Io.KnownBytes.{Consumes};
ghost use Rattle.meaning.specs.Answers.{given};
ghost use Rattle.meaning.specs.CheckProgram.{front_length, front_check, printed};
ghost use Rattle.program.specs.Bodies.{block_length};
ghost use Rattle.rule_check.specs.BlockRead.{OneBlock, AllBlocks};
ghost use Rattle.rule_check.specs.Failing.{LostSome};

use crate::source;
use input::EventsAt;
use program::body;
use program::body::{BLOCK, Body, Document};
use program::text::Text;
use rule::tables::HEADER;
use std::io;
use std::io::Read;

// A block and how much is there: fixed memory, filled in place.
// One block: what is there already, and as much of the input as it takes. It answers whether there is more to read: a block that
// is not full is the last, and nothing is read after bytes that come after the record.
fn one_block<R: Read>(
    reader: &mut R,
    document: Document,
    body: &mut Body,
    block: &mut [u8],
    there: usize,
) -> io::Result<bool>
    requires whole_block { length block.old ≡ block_length }
    requires there_within { there ≤ length block.old }
    ensures went { IfOk result (OneBlock document.entry body.old (take there block.old) (R.remaining reader.old) (R.remaining reader.new) body.new) }
    ensures lost { LostSome (R.remaining reader.old) (R.remaining reader.new) result }
{
    let count = source::fill(reader, block, there)?;
    document.take(body, &block[..count]);
    Ok(body.taken.is_some() && count == BLOCK)
}

// All blocks, of which the first has some bytes already. Each one after which more is read is full, and its bytes are of the record,
// so they come to an end.
fn read_body<R: Read>(
    reader: &mut R,
    document: Document,
    body: &mut Body,
    block: &mut [u8],
    there: usize,
) -> io::Result<()>
    requires whole_block { length block.old ≡ block_length }
    requires there_within { there ≤ length block.old }
    ensures went { OnOk result (AllBlocks document.entry body.old (take there block.old) (R.remaining reader.old) (R.remaining reader.new) body.new) }
    ensures lost { LostSome (R.remaining reader.old) (R.remaining reader.new) result }
{
    let mut more = one_block(reader, document, body, block, there)?;
    while more {
        more = one_block(reader, document, body, block, 0)?;
    }
    Ok(())
}

// What follows the header of the record of events: both readings of it, and what is printed. That is what is to be printed for
// the front and the bytes that were read after it, and so for the front and all that the reader has, where that is known.
pub fn run<R: Read>(reader: &mut R, front: &[u8], at: EventsAt) -> io::Result<Text>
    requires front_short { length front.now ≤ front_length }
    requires events_there { front_check front.now ≡ given (record { place = at.place; size = at.size }) }
    ensures as_read { IfOk result (λ text. (new : List ℕ) × Consumes (R.remaining reader.old) (R.remaining reader.new) new × (text ≡ printed (front.now ++ new))) }
    ensures as_all { IfOk result (λ text. IfSome (R.remaining reader.old) (λ rest. text ≡ printed (front.now ++ rest))) }
    ensures lost { LostSome (R.remaining reader.old) (R.remaining reader.new) result }
{
    let (file, record) = front.split_at(at.place);
    let opened = body::open(file);
    let book = &opened.book;
    let mut body = Body::begin(file, book, opened.first);
    let mut block = [0u8; BLOCK];
    let there = body::carry(&record[HEADER..], &mut block);
    let document = Document {
        file,
        book,
        size: at.size,
    };
    read_body(reader, document, &mut body, &mut block, there)?;
    Ok(document.text(&body))
}
