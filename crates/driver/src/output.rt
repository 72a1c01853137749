// The out buffer that is lent to a call, and the line that an answer makes. It assumes nothing.
ghost use Rattle.std.specs.Prelude.{◌≡◌, ℕ, ◌+◌, ◌*◌, ◌≤◌, true, [], length, take};
ghost use Rattle.std.specs.Io.KnownBytes.{Appends};
ghost use Rattle.lines.specs.Hex.{hex_of};
ghost use Rattle.payload.specs.Append.{Appended};
ghost use Rattle.text.specs.Said.{said};
ghost use Rattle.driver.specs.Spelling.{text_line, word_text, parts_behind};
ghost use Rattle.driver.specs.Answers.{untouched_out};

use rpc::Parts;
use std::io::Write;
use std::marker::Model;
use text::Text;

// The longest out buffer.
pub const OUTLEN: usize = 131084;

// The most bytes that a line says: a byte takes two digits, so a line of 300,000 bytes says fewer.
pub const CONTENT: usize = 150000;

// A line's room: a text of 4,096 characters, two digits for each byte that a line says, which are more than an out buffer has, and eight characters
// for two words' spaces and marks.
const ROOM: usize = 304104;

// Every byte of an out buffer is EE hex before a call, so that CHECK shows which ones the call wrote.
pub fn untouched() -> [u8; OUTLEN]
    ensures { result ≡ untouched_out }
{
    [0xee; OUTLEN]
}

// The line that answers a command: so many characters at the front of a buffer, since memory is fixed. In a contract it is these characters.
#[derive(Drop)]
pub struct Line {
    chars: [u8; ROOM],
    count: usize,
}

impl Model for Line {
    ghost use Rattle.std.specs.Prelude.{ℕ, List, take};

    ghost Value = { List ℕ };

    ghost view = { λ l. take l.count l.chars };
}

// Bytes in hexadecimal into a buffer from a place on. Answers where they end. The bench's line has the like; a common home would be no plainer, a public
// function more for one line.
fn lay_digits(line: &mut [u8], at: usize, bytes: &[u8]) -> usize
    requires { at + 2 * length bytes.now ≤ length line.old }
    ensures { Appended at (hex_of bytes.now) line.old result line.new }
{
    match lines::bytes_to_hex(bytes, &mut line[at..]) {
        Some(count) => at + count,
        None => at,
    }
}

// A word behind a space: bytes in hexadecimal, `-` for none. Answers where it ends.
fn lay_word(line: &mut [u8], at: usize, bytes: &[u8]) -> usize
    requires { at + (2 + 2 * length bytes.now) ≤ length line.old }
    ensures { Appended at (word_text bytes.now) line.old result line.new }
{
    if bytes.is_empty() {
        return text::put(line, at, b" -");
    }
    let start = text::put(line, at, b" ");
    lay_digits(line, start, bytes)
}

impl Line {
    // Before the first answer nothing is written.
    pub fn new() -> Line
        ensures { result ≡ [] }
    {
        Line {
            chars: [0; ROOM],
            count: 0,
        }
    }

    // No answer.
    pub fn clear(&mut self)
        ensures { self.new ≡ [] }
    {
        self.count = 0;
    }

    // An answer; the bytes that it spells stand at the front of `out`.
    pub fn lay(&mut self, answer: Text, out: &[u8])
        ensures { self.new ≡ text_line answer out.now }
    {
        let ended = answer.byte(b'\n');
        let chars = ended.chars;
        let said = text::front(&chars, ended.end);
        let before = text::put(&mut self.chars, 0, text::front(said, ended.cut));
        let count = ended.size.min(OUTLEN);
        let digits = lay_digits(&mut self.chars, before, text::front(out, count));
        self.count = text::put(
            &mut self.chars,
            digits,
            text::part(said, ended.cut, said.len()),
        );
    }

    // An answer that spells no bytes.
    pub fn lay_plain(&mut self, answer: Text)
        ensures { self.new ≡ text_line answer [] }
    {
        self.lay(answer, &[]);
    }

    // An answer's characters, JSON and bulk data of a payload as words behind them, and the newline.
    pub fn lay_parts(&mut self, answer: Text, payload: &[u8], parts: Parts)
        ensures { self.new ≡ parts_behind (said answer) (take 150000 payload.now) parts }
    {
        let spelled = text::front(payload, CONTENT);
        let chars = answer.chars;
        let before = text::put(&mut self.chars, 0, text::front(&chars, answer.end));
        let json = lay_word(&mut self.chars, before, rpc::json(spelled, parts));
        let bulk = lay_word(&mut self.chars, json, rpc::bulk(spelled, parts));
        self.count = text::put(&mut self.chars, bulk, b"\n");
    }

    // Writes the line. Answers whether all of it was taken.
    pub fn write<W: Write>(&self, writer: &mut W) -> bool
        ensures all { result ≡ true → Appends (W.contents writer.old) (W.contents writer.new) self.now }
        ensures front { (n : ℕ) × Appends (W.contents writer.old) (W.contents writer.new) (take n self.now) }
    {
        streams::write_all(writer, text::front(&self.chars, self.count))
    }
}
