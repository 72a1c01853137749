// The bench: one line of hexadecimal digits in, one line of text out. Document 01, "The bench program and the C side".
// It reads and writes nothing itself. The link's state, the digits, the pool, the link's out buffer and the text buffer are lent; how many lines were
// answered goes in and out by value. Every state, line and buffer is answered.
#![tactic(auto)]

ghost use Rattle.std.specs.Prelude.{◌≡◌, ℕ, ◌+◌, ◌*◌, ◌/◌, ◌≤◌, true, List, [], ◌∷◌, ◌++◌, length, take, nat_le};
ghost use Rattle.numbers.specs.Bytes.{pick};
ghost use Rattle.lines.specs.Hex.{bytes_of, hex_of};
ghost use Rattle.lines.specs.Decimal.{decimal_of};
ghost use Rattle.frame.specs.Read.{read_of};
ghost use Rattle.payload.specs.Append.{Appended};
ghost use Rattle.link.specs.Values.{values_of};
ghost use Rattle.state.specs.Calls.{call_in, told_of};
ghost use Rattle.headunit.specs.Unit.{sent, sent_of};
ghost use Rattle.benchline.specs.Line.{offer as offered, new_state, is_frame, is_taken, spaced, letter_x, letter_r, letter_w, letter_d, verdict_of, text_of, next_of, left, refused_line, answered_line, most_text, line_of};

use figures::refusal::Refusal;
use frame::{Reading, ServiceType};
use link::{Answer, Grant};
use payload::version::Version;
use text::front;

// Document 01's figures of the bench.
const MOST_DIGITS: usize = 3000;

// The bytes of so many digits.
const MOST_BYTES: usize = 1500;

const MODULE_MTU: u32 = 131084;

const GUARANTEE: u16 = 32;

const CAP: u16 = 64;

const HASH: u32 = 39027;

// What a line gives back.
#[derive(Clone, Copy)]
pub struct Turn {
    // so many characters at the front of the text buffer, the newline included; None: the text might not fit
    pub output: Option<usize>,
    // so many lines were answered; after 2^64 - 1 comes 0
    pub lines: u64,
}

// ---- reading a line

// Whether bytes are one frame and no more. What the reader refuses is the link's to answer.
fn is_frame(bytes: &[u8]) -> bool
    ensures { result ≡ is_frame bytes.now (read_of bytes.now) }
{
    match frame::read(bytes) {
        Reading::Short(_) => false,
        Reading::Refused(_) => true,
        Reading::Frame(_, extent) => extent.consumed == bytes.len(),
    }
}

// The bytes of a line that is taken, to the front of a buffer: so many, for the link. What the buffer holds besides is of no use.
fn read_line(digits: &[u8], bytes: &mut [u8; MOST_BYTES]) -> Option<usize>
    ensures value { result ≡ pick (is_taken digits.now) (Some (length digits.now / 2)) None }
    ensures bytes_after { is_taken digits.now ≡ true → take (length digits.now / 2) bytes.new ≡ bytes_of digits.now }
{
    if MOST_DIGITS < digits.len() {
        return None;
    }
    let count = lines::hex_to_bytes(digits, bytes).ok()?;
    is_frame(front(bytes, count)).then_some(count)
}

// ---- writing its text: each function puts a part into the buffer from a place on and answers where it ends
// Place and buffer are two parameters: a struct that holds a lent buffer has to say in each contract that it still holds this one.

fn put_byte(b: u8, at: usize, text: &mut [u8]) -> usize
    requires { at + 1 ≤ length text.old }
    ensures { Appended at (b ∷ []) text.old result text.new }
{
    text[at] = b;
    at + 1
}

fn put_decimal(number: u64, at: usize, text: &mut [u8]) -> usize
    requires { at + length (decimal_of number) ≤ length text.old }
    ensures { Appended at (decimal_of number) text.old result text.new }
{
    at + lines::number_to_decimal(number, &mut text[at..]).unwrap()
}

fn put_hex(bytes: &[u8], at: usize, text: &mut [u8]) -> usize
    requires { at + 2 * length bytes.now ≤ length text.old }
    ensures { Appended at (hex_of bytes.now) text.old result text.new }
{
    at + lines::bytes_to_hex(bytes, &mut text[at..]).unwrap()
}

// Bytes as a part: a space before them, and no part for no bytes.
fn put_part(bytes: &[u8], at: usize, text: &mut [u8]) -> usize
    requires { at + (2 * length bytes.now + 1) ≤ length text.old }
    ensures { Appended at (spaced (hex_of bytes.now)) text.old result text.new }
{
    if bytes.is_empty() {
        return at;
    }
    let next = put_byte(b' ', at, text);
    put_hex(bytes, next, text)
}

fn put_refusal(refusal: Refusal, at: usize, text: &mut [u8]) -> usize
    requires { at + 5 ≤ length text.old }
    ensures appended { Appended at (letter_r ∷ spaced (decimal_of refusal)) text.old result text.new }
    ensures upper_bound { result ≤ at + 5 }
{
    let letter = put_byte(b'R', at, text);
    let space = put_byte(b' ', letter, text);
    put_decimal(u64::from(refusal), space, text)
}

fn put_reply(bytes: &[u8], at: usize, text: &mut [u8]) -> usize
    requires { at + (2 * length bytes.now + 2) ≤ length text.old }
    ensures { Appended at (letter_w ∷ spaced (hex_of bytes.now)) text.old result text.new }
{
    let letter = put_byte(b'W', at, text);
    put_part(bytes, letter, text)
}

fn put_delivery(service: ServiceType, bytes: &[u8], at: usize, text: &mut [u8]) -> usize
    requires { at + (2 * length bytes.now + 5) ≤ length text.old }
    ensures { Appended at (letter_d ∷ (spaced (hex_of (service.0 ∷ [])) ++ spaced (hex_of bytes.now))) text.old result text.new }
{
    let letter = put_byte(b'D', at, text);
    let named = put_part(&[service.0], letter, text);
    put_part(bytes, named, text)
}

// The answer's letter and its parts; out is the link's buffer after the call.
fn put_verdict(answer: Answer, out: &[u8], at: usize, text: &mut [u8]) -> usize
    requires { at + (2 * length out.now + 5) ≤ length text.old }
    ensures appended { Appended at (verdict_of (values_of answer) out.now) text.old result text.new }
    ensures upper_bound { result ≤ at + (2 * length out.now + 5) }
{
    match answer {
        Answer::Short(_) => put_byte(b'X', at, text),
        Answer::Refused(refusal) => put_refusal(refusal, at, text),
        Answer::Acked(_, count) | Answer::Nacked(_, count) | Answer::Beat(_, count) => {
            put_reply(front(out, count), at, text)
        }
        Answer::Accepted(_) => put_byte(b'A', at, text),
        Answer::Delivered(_, service, count) => {
            put_delivery(service, front(out, count), at, text)
        }
    }
}

// The line's number and the space behind it.
fn put_number(number: u64, text: &mut [u8]) -> usize
    requires { 21 ≤ length text.old }
    ensures appended { Appended 0 (decimal_of number ++ 32 ∷ []) text.old result text.new }
    ensures upper_bound { result ≤ 21 }
{
    let end = put_decimal(number, 0, text);
    put_byte(b' ', end, text)
}

// The whole text of a line that the link answered.
fn put_answer(number: u64, answer: Answer, out: &[u8], text: &mut [u8]) -> usize
    requires { most_text out.now ≤ length text.old }
    ensures { sent result text.new ≡ sent_of (text_of number (verdict_of (values_of answer) out.now)) text.old }
{
    let start = put_number(number, text);
    let end = put_verdict(answer, out, start, text);
    put_byte(b'\n', end, text)
}

// The whole text of a line that was not taken.
fn put_not_taken(number: u64, text: &mut [u8]) -> usize
    requires { 32 ≤ length text.old }
    ensures { sent result text.new ≡ sent_of (text_of number (letter_x ∷ [])) text.old }
{
    let start = put_number(number, text);
    let end = put_byte(b'X', start, text);
    put_byte(b'\n', end, text)
}

// ---- the bench

// What each call of the link offers.
fn offer() -> Grant
    ensures { result ≡ offered }
{
    Grant {
        guarantee: GUARANTEE,
        cap: CAP,
        hash: HASH,
    }
}

// The link's state before the first line.
pub fn start(link: &mut [u8])
    ensures { link.new ≡ new_state link.old }
{
    let version = Version {
        major: 5,
        minor: 4,
        patch: 1,
    };
    // bytes of another length stay as they are
    let _ = headunit::create(link, version, MODULE_MTU);
}

// Whether the longest text fits.
fn has_room(text: usize, out: usize) -> bool
    ensures { result ≡ nat_le (2 * out + 32) text }
{
    32 <= text && out <= (text - 32) / 2
}

// The number of the line after so many.
fn next_number(lines: u64) -> u64
    ensures { result ≡ next_of lines }
{
    lines.wrapping_add(1)
}

// A line that is taken: the link is called.
fn answered(
    lines: u64,
    bytes: &[u8],
    link: &mut [u8],
    pool: &mut [u8],
    out: &mut [u8],
    text: &mut [u8],
) -> Turn
    requires { most_text out.old ≤ length text.old }
    ensures { left result link.new pool.new out.new text.new
        ≡ answered_line (next_of lines) (told_of (call_in link.old pool.old bytes.now out.old offered)) text.old }
{
    let answer = headunit::call(link, pool, bytes, out, offer());
    let number = next_number(lines);
    let count = put_answer(number, answer, out, text);
    Turn {
        output: Some(count),
        lines: number,
    }
}

// A line that is not: the link's state, its pool and its buffer stay.
fn refused(lines: u64, text: &mut [u8]) -> Turn
    requires { 32 ≤ length text.old }
    ensures { (state pool out : List ℕ) → left result state pool out text.new ≡ refused_line lines state pool out text.old }
{
    let number = next_number(lines);
    let count = put_not_taken(number, text);
    Turn {
        output: Some(count),
        lines: number,
    }
}

// One line without its newline, after so many: its text, newline included, to the front of the text buffer.
// The buffers are slices beside each other, since `line_of` says what comes of state, buffers and text of any length.
// Not inlined: where the buffers are fields of one struct, the compiler tells them apart only as parameters, and else a line costs some 7 % more.
#[inline(never)]
pub fn line(
    lines: u64,
    digits: &[u8],
    link: &mut [u8],
    pool: &mut [u8],
    out: &mut [u8],
    text: &mut [u8],
) -> Turn
    ensures { left result link.new pool.new out.new text.new ≡ line_of lines digits.now link.old pool.old out.old text.old }
{
    if !has_room(text.len(), out.len()) {
        return Turn {
            output: None,
            lines,
        };
    }
    let mut bytes = [0u8; MOST_BYTES];
    match read_line(digits, &mut bytes) {
        Some(count) => answered(lines, front(&bytes, count), link, pool, out, text),
        None => refused(lines, text),
    }
}
