// Standard input, read into a buffer until that is full.
ghost use Rattle.std.specs.Prelude.{◌≡◌, ◌<◌, ◌≤◌, List, ℕ, length, take, drop, IfOk};
ghost use Rattle.std.specs.Io.{ReadsAtMost};
ghost use Rattle.std.specs.Io.KnownBytes.{Consumes, IsAtEnd, ReadConsumes};
ghost use Rattle.rule_check.specs.Failing.{LostSome};

use crate::again::again;
use std::io;
use std::io::Read;

// One read, made again as long as a signal interrupts it before a byte is there.
fn read_some<R: Read>(reader: &mut R, buffer: &mut [u8]) -> io::Result<usize>
    ensures bound { ReadsAtMost result buffer.new }
    ensures bytes { ReadConsumes (R.remaining reader.old) (R.remaining reader.new) result buffer.new }
{
    let mut read = || reader.read(buffer);
    again(&mut read)
}

// Reads until the buffer is full from a place on, or the input ends, or a read fails, and answers how many bytes the buffer
// holds now. Short reads are normal. The bytes before the place stay, also where a read fails after some that did not.
// A loop of its own, since std's `read_exact` does not say what a failed read leaves; its place is the answer.
pub fn fill<R: Read>(reader: &mut R, buffer: &mut [u8], from: usize) -> io::Result<usize>
    requires { from ≤ length buffer.old }
    ensures count_in_bounds { IfOk result (λ count. (from ≤ count) × (count ≤ length buffer.old)) }
    ensures buffer_unchanged { take from buffer.new ≡ take from buffer.old }
    ensures read { IfOk result (λ count. Consumes (R.remaining reader.old) (R.remaining reader.new) (drop from (take count buffer.new))) }
    ensures end { IfOk result (λ count. count < length buffer.old → IsAtEnd (R.remaining reader.new)) }
    ensures lost { LostSome (R.remaining reader.old) (R.remaining reader.new) result }
{
    let mut at = from;
    while at < buffer.len() {
        let count = read_some(reader, &mut buffer[at..])?;
        if count == 0 {
            break;
        }
        at += count;
    }
    Ok(at)
}
