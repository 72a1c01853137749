// What this crate writes, as it comes to be: bytes one behind the other, which go to the caller's buffer once they are all there.
ghost use Rattle.std.specs.Prelude.{◌≡◌, ℕ, ◌+◌, ◌≤◌, List, [], ◌∷◌, ◌++◌, length, take};
ghost use Rattle.numbers.specs.Numbers.{bytes_le};
ghost use Rattle.lines.specs.Decimal.{decimal_of};
ghost use Rattle.payload.specs.Append.{wrote, put_of};
ghost use Rattle.payload.specs.declared.draft.TheConstants.{ROOM};

use figures::refusal::{self, Refusal};
use numbers::Number;
use std::marker::Model;

// The longest payload has 63 bytes.
pub(crate) const ROOM: usize = 64;

// The bytes so far. In a contract they are their list.
#[derive(Drop)]
pub(crate) struct Draft {
    bytes: [u8; ROOM],
    length: usize,
}

impl Model for Draft {
    ghost Value = { List ℕ };

    ghost view = { λ d. take d.length d.bytes };

    ghost invariant = { λ d. d.length ≤ ROOM };
}

impl Draft {
    pub(crate) fn new() -> Self
        ensures { result ≡ [] }
    {
        Draft {
            bytes: [0; ROOM],
            length: 0,
        }
    }

    // The first of these bytes.
    pub(crate) fn of(bytes: [u8; ROOM], count: usize) -> Self
        requires { count ≤ ROOM }
        ensures value { result ≡ take count bytes }
        ensures len { length result ≡ count }
    {
        Draft {
            bytes,
            length: count,
        }
    }

    pub(crate) fn as_slice(&self) -> &[u8]
        ensures { result.now ≡ self.now }
    {
        &self.bytes[0..self.length]
    }

    pub(crate) fn byte(&mut self, b: u8)
        requires { length self.old + 1 ≤ ROOM }
        ensures value { self.new ≡ self.old ++ b ∷ [] }
        ensures len { length self.new ≡ length self.old + 1 }
    {
        self.bytes[self.length] = b;
        self.length += 1;
    }

    pub(crate) fn bytes(&mut self, more: &[u8])
        requires { length self.old + length more.now ≤ ROOM }
        ensures value { self.new ≡ self.old ++ more.now }
        ensures len { length self.new ≡ length self.old + length more.now }
    {
        let end = self.length + more.len();
        self.bytes[self.length..end].copy_from_slice(more);
        self.length = end;
    }

    // A number, least significant byte first.
    pub(crate) fn number<N: Number>(&mut self, x: N)
        requires { length self.old + N.WIDTH ≤ ROOM }
        ensures value { self.new ≡ self.old ++ bytes_le N.WIDTH (N.value x) }
        ensures len { length self.new ≡ length self.old + N.WIDTH }
    {
        numbers::put_le(&mut self.bytes, self.length, x);
        self.length += N::WIDTH;
    }

    // A number's digits, three at most.
    pub(crate) fn decimal(&mut self, n: u8)
        requires { length self.old + 3 ≤ ROOM }
        ensures value { self.new ≡ self.old ++ decimal_of n }
        ensures bound { length self.new ≤ length self.old + 3 }
    {
        let count = lines::number_to_decimal(u64::from(n), &mut self.bytes[self.length..ROOM]);
        self.length += count.unwrap();
    }

    // All of it to the front of out.
    pub(crate) fn write(&self, out: &mut [u8]) -> Result<usize, Refusal>
        ensures { wrote result out.new ≡ put_of self.now out.old }
    {
        if out.len() < self.length {
            return Err(refusal::TOO_SMALL);
        }
        out[0..self.length].copy_from_slice(&self.bytes[0..self.length]);
        Ok(self.length)
    }
}
