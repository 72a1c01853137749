// Hexadecimal and decimal text: bytes as hexadecimal digits and back, numbers as decimal digits and back; where a line of text ends, and where a byte stands.
// Every public function answers every input. Its contract fixes the answer and each byte of the lent buffer; a refused call leaves the buffer as it was.
#![tactic(auto)]

ghost use Rattle.std.specs.Prelude.{◌≡◌, ℕ, Bool, true, map, ◌+◌, ◌*◌, ◌/◌, ◌^◌, ◌≤◌, ◌<◌, ltb, min, length, drop, ◌==◌, position, Option, Some, None};
ghost use Rattle.lines.specs.Text.{between, every, encoded, written_of};
ghost use Rattle.numbers.specs.Bytes.{laid};
ghost use Rattle.lines.specs.Hex.{digit_of, is_hex, is_lower_hex, bytes_of, pairs_of, is_pair, pair_byte, decoded, decode_of, letter_of, hex_of};
ghost use Rattle.lines.specs.Newline.{is_in_line, line_length, line_end_of};
ghost use Rattle.lines.specs.Place.{index_of};
ghost use Rattle.std.proofs.Math.Seq.{slice};
ghost use Rattle.lines.specs.Decimal.{is_decimal, short, value_from, number_of, decimal_of};

// Why hexadecimal text is not decoded: a character without its partner, one that is no digit, or no room for the bytes.
#[derive(Clone, Copy, Debug, PartialEq, Eq)]
pub enum HexFault {
    Odd,
    NotHex,
    Full,
}

// Why decimal text says no number of 64 bits.
#[derive(Clone, Copy, Debug, PartialEq, Eq)]
pub enum NumberFault {
    NotDecimal,
    TooLarge,
}

// A lower-case letter less this is its value: a is worth ten.
const LETTERS: u8 = 87;

// Pairs of digits that become bytes at once, and characters among which a newline is looked for at once.
const GROUP: usize = 64;

// The same, in the last group: what is left to go through one by one is less than this.
const SMALL_GROUP: usize = 16;

// Whether a character is one of 0 to 9, a to f.
#[tactic(auto, unfolding(crate::specs::Hex::is_lower_hex))]
fn is_lower(b: u8) -> bool
    ensures { result ≡ is_lower_hex b }
{
    b.is_ascii_digit() | (b'a'..=b'f').contains(&b)
}

// Whether a character is a hexadecimal digit of either case.
fn is_digit(b: u8) -> bool
    ensures { result ≡ is_hex b }
{
    b.is_ascii_hexdigit()
}

// Whether a character is one of 0 to 9.
fn is_decimal(b: u8) -> bool
    ensures { result ≡ is_decimal b }
{
    b.is_ascii_digit()
}

// Whether the test holds of every character. It goes on after a failure: with no branch on a character it is several times faster.
fn every<F: Fn(u8) -> bool>(text: &[u8], test: F) -> bool
    requires { F.IsAlwaysCallable test }
    ensures { (p : ℕ → Bool) → ((b : ℕ) (r : Bool) → b < 256 → F.post test b r → r ≡ p b) → result ≡ every p text.now }
{
    let mut all = true;
    for b in text {
        all = all & test(*b);
    }
    all
}

// Whether every character is one of 0 to 9, a to f.
pub fn is_lower_hex(text: &[u8]) -> bool
    ensures { result ≡ every is_lower_hex text.now }
{
    every(text, is_lower)
}

// The value of a hexadecimal digit of either case, by arithmetic alone: the last four bits count 0 to 9 from 0 and the letters from 1, and only
// letters reach 64.
fn digit(b: u16) -> u16
    requires { is_hex b ≡ true }
    ensures { result ≡ digit_of b }
{
    b % 16 + b / 64 * 9
}

// The byte that a pair of digits says.
fn pair_byte(pair: u16) -> u8
    requires { is_pair pair ≡ true }
    ensures { result ≡ pair_byte pair }
{
    (digit(pair % 256) * 16 + digit(pair / 256)) as u8
}

// Two characters to a number, the first its lower byte: as they lie in memory, so that the compiler reads sixteen of them at once.
fn join_pairs(text: &[u8], pairs: &mut [u16])
    requires { length text.now / 2 ≤ length pairs.old }
    ensures { pairs.new ≡ laid (pairs_of text.now) pairs.old }
{
    for i in 0..text.len() / 2 {
        pairs[i] = u16::from(text[2 * i]) + u16::from(text[2 * i + 1]) * 256;
    }
}

// The byte of each pair, to the front of out.
fn put_pairs(pairs: &[u16], out: &mut [u8])
    requires { (every is_pair pairs.now ≡ true) × (length pairs.now ≤ length out.old) }
    ensures { out.new ≡ laid (map pair_byte pairs.now) out.old }
{
    for (i, pair) in pairs.iter().enumerate() {
        out[i] = pair_byte(*pair);
    }
}

// The bytes of at most a group of pairs, by way of an array: joining and reading in one loop would be a loop over every second character, which is slow.
// So would be loops with a fixed end, which the compiler unrolls: both go as far as the text does.
fn put_group(text: &[u8], out: &mut [u8])
    requires { (every is_hex text.now ≡ true) × ((length text.now ≤ 128) × (length text.now / 2 ≤ length out.old)) }
    ensures { out.new ≡ laid (bytes_of text.now) out.old }
{
    let count = text.len() / 2;
    let mut pairs = [0u16; GROUP];
    join_pairs(text, &mut pairs);
    put_pairs(&pairs[0..count], out);
}

// The bytes of a text of digits to the front of out.
fn put_bytes(text: &[u8], out: &mut [u8])
    requires { (every is_hex text.now ≡ true) × (length text.now / 2 ≤ length out.old) }
    ensures { out.new ≡ laid (bytes_of text.now) out.old }
{
    let count = text.len() / 2;
    for done in (0..count).step_by(GROUP) {
        let next = done + GROUP.min(count - done);
        put_group(&text[2 * done..2 * next], &mut out[done..next]);
    }
}

// The bytes that hexadecimal text of either case says, to the front of out.
pub fn hex_to_bytes(text: &[u8], out: &mut [u8]) -> Result<usize, HexFault>
    ensures { decoded result out.new ≡ decode_of text.now out.old }
{
    if text.len() % 2 == 1 {
        return Err(HexFault::Odd);
    }
    if !every(text, is_digit) {
        return Err(HexFault::NotHex);
    }
    let count = text.len() / 2;
    if out.len() < count {
        return Err(HexFault::Full);
    }
    put_bytes(text, out);
    Ok(count)
}

// The lower-case digit of a value below 16.
fn letter(v: u8) -> u8
    requires { v < 16 }
    ensures { result ≡ letter_of v }
{
    if v < 10 { b'0' + v } else { LETTERS + v }
}

// Two digits a byte to the front of out.
fn put_digits(bytes: &[u8], out: &mut [u8])
    requires { 2 * length bytes.now ≤ length out.old }
    ensures { out.new ≡ laid (hex_of bytes.now) out.old }
{
    for (i, b) in bytes.iter().enumerate() {
        out[2 * i] = letter(*b / 16);
        out[2 * i + 1] = letter(*b % 16);
    }
}

// Two lower-case digits a byte, to the front of out.
pub fn bytes_to_hex(bytes: &[u8], out: &mut [u8]) -> Option<usize>
    ensures { encoded result out.new ≡ written_of (hex_of bytes.now) out.old }
{
    let count = bytes.len();
    if out.len() / 2 < count {
        return None;
    }
    put_digits(bytes, out);
    Some(2 * count)
}

// How many decimal digits n has. They are counted by hand: the library has no decimal logarithm, and an iterator of quotients says no more.
fn decimal_width(n: u64) -> usize
    ensures { result ≡ length (decimal_of n) }
{
    let mut rest = n;
    let mut width: usize = 1;
    while 10 <= rest {
        rest = rest / 10;
        width += 1;
    }
    width
}

// The decimal digits of n, of which there are width, to the front of out, the last one first.
// The place is counted by hand: `for i in (1..width).rev()` was tried, and takes 1.1 to 1.3 times the time, as its loop is unrolled.
fn put_decimal(n: u64, width: usize, out: &mut [u8])
    requires { (width ≡ length (decimal_of n)) × (width ≤ length out.old) }
    ensures { out.new ≡ laid (decimal_of n) out.old }
{
    let mut rest = n;
    let mut i = width - 1;
    while 10 <= rest {
        out[i] = b'0' + (rest % 10) as u8;
        rest = rest / 10;
        i -= 1;
    }
    out[i] = b'0' + rest as u8;
}

// The decimal digits of n, with no spare zeros, to the front of out.
pub fn number_to_decimal(n: u64, out: &mut [u8]) -> Option<usize>
    ensures { encoded result out.new ≡ written_of (decimal_of n) out.old }
{
    let width = decimal_width(n);
    if out.len() < width {
        return None;
    }
    put_decimal(n, width, out);
    Some(width)
}

// A number followed by one more digit, if that still has at most 64 bits.
fn with_digit(v: u64, digit: u8) -> Option<u64>
    ensures { result ≡ short (v * 10 + digit) }
{
    v.checked_mul(10)?.checked_add(u64::from(digit))
}

// The number that a text of digits says, if it has at most 64 bits.
fn value(text: &[u8]) -> Option<u64>
    requires { every is_decimal text.now ≡ true }
    ensures { result ≡ short (value_from 0 text.now) }
{
    let mut v = 0;
    for b in text {
        v = with_digit(v, *b - b'0')?;
    }
    Some(v)
}

// The number that decimal text says; leading zeros are fine.
pub fn decimal_to_number(text: &[u8]) -> Result<u64, NumberFault>
    ensures { result ≡ number_of text.now }
{
    if text.is_empty() | !every(text, is_decimal) {
        return Err(NumberFault::NotDecimal);
    }
    value(text).ok_or(NumberFault::TooLarge)
}

// Whether a character belongs to a line: any but a newline.
fn is_in_line(b: u8) -> bool
    ensures { result ≡ is_in_line b }
{
    b != b'\n'
}

// Passes over groups of characters with no newline among them. The answer is a place, so `chunks_exact` would be no plainer: the place would be
// counted beside it.
fn pass_groups(text: &[u8], from: usize, group: usize) -> usize
    requires { (from ≤ length text.now) × (1 ≤ group) }
    ensures { (from ≤ result) × ((result ≤ length text.now) × (result + line_length (drop result text.now) ≡ from + line_length (drop from text.now))) }
{
    let mut at = from;
    while group <= text.len() - at {
        let next = at + group;
        if every(&text[at..next], is_in_line) {
            at = next;
        } else {
            return at;
        }
    }
    at
}

// The first place of a byte.
fn place_of(bytes: &[u8], byte: u8) -> Option<usize>
    ensures { result ≡ position (λ b. b == byte) bytes.now }
{
    bytes.iter().position(|b| *b == byte)
}

// How many bytes stand before the first that is the given one; all of them where there is none.
fn index_of(bytes: &[u8], byte: u8) -> usize
    ensures { result ≡ index_of byte bytes.now }
{
    place_of(bytes, byte).unwrap_or(bytes.len())
}

// Where the line that goes on at a place ends: at the next newline, or with the text.
pub fn line_end(text: &[u8], from: usize) -> usize
    ensures value { result ≡ line_end_of text.now from }
    ensures lower_bound { (min from (length text.now) ≤ result) × (result ≤ length text.now) }
{
    let start = from.min(text.len());
    let far = pass_groups(text, start, GROUP);
    let near = pass_groups(text, far, SMALL_GROUP);
    near + index_of(&text[near..], b'\n')
}

// Where a byte stands: the first place from one on and before another; where there is none, the end of what was looked through.
pub fn find(bytes: &[u8], from: usize, to: usize, byte: u8) -> usize
    ensures value { result ≡ from + index_of byte (slice from to bytes.now) }
    ensures lower_bound { from ≤ result }
    ensures upper_bound { from ≤ to → result ≤ to }
{
    let end = to.min(bytes.len());
    if end < from {
        return from;
    }
    from + index_of(&bytes[from..end], byte)
}
