// Bytes to print, laid one after the other. The room is more than both lines take.
ghost use Rattle.std.specs.Prelude.{◌≡◌, ◌≤◌, [], ◌∷◌, length};
ghost use Rattle.meaning.specs.CheckProgram.{decimal};
ghost use Rattle.program.specs.Texts.{Lays};

use std::marker::Model;

// The bytes that a text has room for.
const ROOM: usize = 192;

// The bytes so far are the first of the room, and those past them are zeros, so that two texts of the same bytes are the same. It is
// no `ArrayVec`, whose writes ask for room or answer a `Result`: here what finds no room is left out, and no line asks for any.
#[derive(Clone, Copy)]
pub struct Text {
    bytes: [u8; ROOM],
    count: usize,
}

// Clauses see the bytes so far. A `Copy` takes the fields back from them.
impl Model for Text {
    ghost use Rattle.std.specs.Prelude.{ℕ, ◌≡◌, ◌≤◌, ◌-◌, List, ◌++◌, length, take, drop, replicate};
    ghost use Rattle.std.proofs.Common.{arith, ap, sym, ◌∙◌, take-append-drop, length-take-le};
    ghost use Rattle.program.specs.Texts.{text_room};

    ghost Value = { List ℕ };

    ghost view = { λ t. take t.count t.bytes };

    ghost invariant = { λ t. (t.count ≤ text_room) × (length t.bytes ≡ text_room) × (drop t.count t.bytes ≡ replicate (text_room - t.count) 0) };

    ghost inverse = { λ said. record { bytes = said ++ replicate (text_room - length said) 0; count = length said } };

    ghost inverse_ok = { λ t h i. record {
      bytes = (ap (λ n. take t.count t.bytes ++ replicate (text_room - n) 0) (length-take-le t.count t.bytes (omega (arith, h.0, h.1)))
          ∙ (ap (λ l. take t.count t.bytes ++ l) (sym h.2) ∙ take-append-drop t.count t.bytes)) i;
      count = length-take-le t.count t.bytes (omega (arith, h.0, h.1)) i;
    } };
}

impl Text {
    // No byte yet.
    pub(crate) fn empty() -> Text
        ensures { result ≡ [] }
    {
        Text {
            bytes: [0; ROOM],
            count: 0,
        }
    }

    // The bytes so far.
    pub fn as_bytes(&self) -> &[u8]
        ensures says { result.now ≡ self.now }
        ensures in_room { length result.now ≤ 192 }
    {
        &self.bytes[..self.count]
    }

    // More bytes, as many as there is room for.
    pub(crate) fn word(&mut self, more: &[u8])
        ensures { Lays self.old more.now self.new }
    {
        let count = (ROOM - self.count).min(more.len());
        let end = self.count + count;
        self.bytes[self.count..end].copy_from_slice(&more[..count]);
        self.count = end;
    }

    // One byte more.
    pub(crate) fn put(&mut self, byte: u8)
        ensures { Lays self.old (byte ∷ []) self.new }
    {
        self.word(&[byte]);
    }

    // A number in decimal digits. By `io::decimal`, since the theorem `decimal-digits` is of its digits.
    pub(crate) fn number(&mut self, n: u64)
        ensures { Lays self.old (decimal n) self.new }
    {
        let mut digits = [0u8; 20];
        let count = io::decimal(n, &mut digits);
        self.word(&digits[..count]);
    }
}
