// The check program: it reads a rule and events from standard input, and prints what skipping and full reading make of them.
// What it makes of the bytes is the library `program`; here they are read, and the answer is written.
#![tactic(auto)]

mod again;
mod blocks;
mod failure;
mod output;
mod source;

ghost use Rattle.std.specs.Prelude.{◌≡◌, List, ℕ, IfOk, OnOk, OnErr, IfErr, IfSome, IsOkAnd};
ghost use Rattle.std.specs.Io.KnownBytes.{Consumes, Keeps, Appends};
ghost use Rattle.meaning.specs.CheckProgram.{printed};
ghost use Rattle.rule_check.specs.Failing.{LeftBy, LostSome};

use failure::Failure;
use program::body;
use program::text::Text;
use rule::tables::HEADER;
use std::io;
use std::io::{Read, Write};
use std::process::ExitCode;

// The longest rule file and the header of the record after it.
const FRONT: usize = 20573 + HEADER;

// Reads an input, as far as it decides the answer, and makes the answer: what is printed for the bytes that were read, and so for
// all that the reader has, where that is known.
fn answer<R: Read>(reader: &mut R) -> io::Result<Text>
    ensures as_read { IfOk result (λ text. (input : List ℕ) × Consumes (R.remaining reader.old) (R.remaining reader.new) input × (text ≡ printed input)) }
    ensures as_all { IfOk result (λ text. IfSome (R.remaining reader.old) (λ input. text ≡ printed input)) }
    ensures lost { LostSome (R.remaining reader.old) (R.remaining reader.new) result }
{
    let mut front = [0u8; FRONT];
    let count = source::fill(reader, &mut front, 0)?;
    match input::events_at(&front[..count]) {
        Ok(at) => blocks::run(reader, &front[..count], at),
        Err(refusal) => Ok(body::refused_text(refusal)),
    }
}

// Writes an answer. Where a read failed there is none, and nothing is written.
fn tell<W: Write>(writer: &mut W, answer: io::Result<Text>) -> Result<(), Failure>
    requires as_printed { IfOk answer (λ text. (input : List ℕ) × (text ≡ printed input)) }
    ensures told { OnOk result (IsOkAnd answer (Appends (W.contents writer.old) (W.contents writer.new))) }
    ensures silent { OnErr answer (Keeps (W.contents writer.old) (W.contents writer.new)) }
    ensures left { IfErr result (LeftBy (λ bytes. IsOkAnd answer (λ text. text ≡ bytes)) (W.contents writer.old) (W.contents writer.new)) }
{
    let text = answer.map_err(Failure::Input)?;
    output::write_all(writer, text.as_bytes()).map_err(Failure::Output)
}

// The program on any reader and writer: where the bytes that the reader has are known, those that are printed for them are written.
fn check<R: Read, W: Write>(reader: &mut R, writer: &mut W) -> Result<(), Failure>
    ensures prints { OnOk result (IfSome (R.remaining reader.old) (λ input. Appends (W.contents writer.old) (W.contents writer.new) (printed input))) }
    ensures left { IfErr result (LeftBy (λ bytes. (input : List ℕ) × Consumes (R.remaining reader.old) (R.remaining reader.new) input × (bytes ≡ printed input)) (W.contents writer.old) (W.contents writer.new)) }
{
    tell(writer, answer(reader))
}

// What failed is told on standard error.
fn main(rt: HostRuntime) -> ExitCode {
    let mut reader = rt.stdin();
    let mut writer = rt.stdout();
    match check(&mut reader, &mut writer) {
        Ok(()) => ExitCode::SUCCESS,
        Err(failure) => {
            let _ = eprintln!(rt; "{failure}");
            ExitCode::FAILURE
        }
    }
}
