// Standard output, written in one piece at the end.
ghost use Rattle.std.specs.Prelude.{List, ℕ, take, OnOk, OnErr};
ghost use Rattle.std.specs.Io.{WritesAtMost};
ghost use Rattle.std.specs.Io.KnownBytes.{Appends, WriteAppends};

use crate::again::again;
use std::io;
use std::io::{ErrorKind, Write};

// One write, made again as long as a signal interrupts it before a byte has gone out.
fn write_some<W: Write>(writer: &mut W, bytes: &[u8]) -> io::Result<usize>
    ensures bound { WritesAtMost result bytes.now }
    ensures bytes { WriteAppends (W.contents writer.old) (W.contents writer.new) result bytes.now }
{
    let mut write = || writer.write(bytes);
    again(&mut write)
}

// Writes all of the bytes, or answers the error of the write that took nothing or failed, and then a front of them is written.
// A loop of its own, since std's `write_all` does not say that.
pub fn write_all<W: Write>(writer: &mut W, bytes: &[u8]) -> io::Result<()>
    ensures all_written { OnOk result (Appends (W.contents writer.old) (W.contents writer.new) bytes.now) }
    ensures front_written { OnErr result ((count : ℕ) × Appends (W.contents writer.old) (W.contents writer.new) (take count bytes.now)) }
{
    let mut rest = bytes;
    while !rest.is_empty() {
        let count = write_some(writer, rest)?;
        if count == 0 {
            return Err(io::Error::from(ErrorKind::WriteZero));
        }
        rest = &rest[count..];
    }
    Ok(())
}
