// Text as a program puts it together for its answers, and the parts of buffers that such a program needs. It knows no command and no protocol.
// A `Text` goes from function to function by value, and each answers it with a piece more behind it. Every text and every buffer is taken: what
// does not fit is cut, and an answered end lies within its text or buffer.
// Bytes in hexadecimal can be many, and are not copied into a text: they stand in a buffer beside it, and the text says how many of them are
// spelled, and where.
#![tactic(auto)]

ghost use Rattle.std.specs.Prelude.{◌+◌, ◌≤◌, ◌<◌, min, ◌≡◌, List, [], ◌∷◌, leb, length, take};
ghost use Rattle.numbers.specs.Bytes.{pick, part as part_of};
ghost use Rattle.lines.specs.Hex.{hex_of};
ghost use Rattle.lines.specs.Decimal.{decimal_of};
ghost use Rattle.text.specs.Said.{Started, Longer, Marked};
ghost use Rattle.text.specs.Pieces.{fitting, put_into, check_of, digits_of};

use numbers::Number;

const ROOM: usize = 4096;

#[derive(Clone, Copy)]
pub struct Text {
    // an array and not a String: the project's memory is fixed
    pub chars: [u8; ROOM],
    // so many of them are the text
    pub end: usize,
    // so many bytes of the buffer beside it are spelled behind the first `cut` characters
    pub cut: usize,
    pub size: usize,
}

// ---- parts of buffers

// The place behind one, within a length.
pub fn past(place: usize, length: usize) -> usize
    ensures { result ≡ min (1 + place) length }
{
    place.saturating_add(1).min(length)
}

// The first bytes of a slice, all of them where it has fewer than asked for.
pub fn front(whole: &[u8], count: usize) -> &[u8]
    ensures { result.now ≡ take count whole.now }
{
    &whole[..count.min(whole.len())]
}

// So many bytes of a slice from a place on, as far as it has them.
pub fn part(whole: &[u8], at: usize, count: usize) -> &[u8]
    ensures { result.now ≡ part_of whole.now at count }
{
    front(&whole[at.min(whole.len())..], count)
}

// Bytes into a buffer from a place on, as far as they fit. Answers where they end.
pub fn put(buffer: &mut [u8], at: usize, bytes: &[u8]) -> usize
    ensures value { result ≡ min at (length buffer.old) + length (fitting buffer.old at bytes.now) }
    ensures upper_bound { result ≤ length buffer.new }
    ensures buffer_after { buffer.new ≡ put_into buffer.old at bytes.now }
{
    let start = at.min(buffer.len());
    let count = bytes.len().min(buffer.len() - start);
    let end = start + count;
    buffer[start..end].copy_from_slice(&bytes[0..count]);
    end
}

// A number that shows every byte of a buffer: docs/DRIVER.md's CHECK.
pub fn check(buffer: &[u8]) -> u64
    ensures value { result ≡ check_of buffer.now }
    ensures upper_bound { result < 4294967296 }
{
    let mut sum: u64 = 7;
    for b in buffer {
        sum = (sum * 31 + u64::from(*b)) % 4294967296;
    }
    sum
}

// ---- texts

impl Text {
    pub fn empty() -> Text
        ensures { Started [] result }
    {
        let chars = [0u8; ROOM];
        Text {
            chars,
            end: 0,
            cut: 0,
            size: 0,
        }
    }

    // The same text.
    pub fn same(mut self) -> Text
        ensures { Longer self [] result }
    {
        self.end = self.end.min(ROOM);
        self
    }

    pub fn put(mut self, text: &[u8]) -> Text
        ensures { Longer self text.now result }
    {
        let mut chars = self.chars;
        let end = put(&mut chars, self.end, text);
        self.chars = chars;
        self.end = end.min(ROOM);
        self
    }

    pub fn byte(self, byte: u8) -> Text
        ensures { Longer self (byte ∷ []) result }
    {
        self.put(&[byte])
    }

    // A number of any width in decimal.
    pub fn decimal<N: Number>(self, number: N) -> Text
        ensures { Longer self (decimal_of (N.value number)) result }
    {
        // the largest number of 64 bits has 20 digits
        let mut digits = [0u8; 20];
        let count = lines::number_to_decimal(number.wide(), &mut digits).unwrap_or(0);
        self.put(front(&digits, count))
    }

    // A byte, then a number in decimal.
    pub fn number<N: Number>(self, before: u8, number: N) -> Text
        ensures { Longer self (before ∷ decimal_of (N.value number)) result }
    {
        self.byte(before).decimal(number)
    }

    // A letter and a number: most answers begin so.
    pub fn answer(letter: u8, number: usize) -> Text
        ensures { Started (letter ∷ 32 ∷ decimal_of number) result }
    {
        Text::empty().byte(letter).number(b' ', number as u64)
    }

    // The same for a refusal's number.
    pub fn refused(number: u8) -> Text
        ensures { Started (82 ∷ 32 ∷ decimal_of number) result }
    {
        Text::empty().byte(b'R').number(b' ', number)
    }

    // Two digits a byte, where these are at most 2,048.
    pub fn digits(self, bytes: &[u8]) -> Text
        ensures { Longer self (digits_of bytes.now) result }
    {
        let mut digits = [0u8; 2048];
        let count = lines::bytes_to_hex(bytes, &mut digits).unwrap_or(0);
        self.put(front(&digits, count))
    }

    // The two digits of one byte.
    pub fn pair(self, byte: u8) -> Text
        ensures { Longer self (hex_of (byte ∷ [])) result }
    {
        self.digits(&[byte])
    }

    // Here stand the digits of so many bytes of the buffer beside the text.
    pub fn bytes(self, size: usize) -> Text
        ensures { Marked self [] size result }
    {
        let mut text = self.same();
        text.cut = text.end;
        text.size = size;
        text
    }

    // The same behind a space, `-` for no bytes.
    pub fn hex(self, size: usize) -> Text
        ensures longer { (size ≡ 0 → Longer self (32 ∷ 45 ∷ []) result) × ((size ≡ 0 → ⊥) → Marked self (32 ∷ []) size result) }
        ensures end_bound { result.end ≤ 4096 }
    {
        let text = self.byte(b' ');
        if size == 0 {
            return text.byte(b'-');
        }
        text.bytes(size)
    }

    // What stands between two parts of a list that begins at `start`: nothing before the first one.
    pub fn joint(self, start: usize, joint: u8) -> Text
        ensures { Longer self (pick (leb self.end start) [] (joint ∷ [])) result }
    {
        if self.end <= start {
            return self.same();
        }
        self.byte(joint)
    }

    // Behind a list that begins at `start`: `-` where it has no part.
    pub fn listed(self, start: usize) -> Text
        ensures { Longer self (pick (leb self.end start) (45 ∷ []) []) result }
    {
        if self.end <= start {
            return self.byte(b'-');
        }
        self.same()
    }
}
