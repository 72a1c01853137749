// The words of a line of docs/DRIVER.md: the command that the first one names, its numbers, and the bytes of the last word or the last two. It makes no
// call and knows no rule of the protocol: the limits are those of the words. Every line and every buffer is taken.
// One space stands between two words: a space too many makes an empty word, which is neither a number nor hexadecimal.
// A word is named by the positions of the spaces around it; the line's length stands for a space behind the last word.
#![tactic(auto)]

ghost use Rattle.std.specs.Prelude.{◌%◌, ◌≡◌, ◌≤◌, ◌&&◌, ◌||◌, ℕ, [], ◌∷◌, ltb, length, get_or};
ghost use Rattle.lines.specs.Text.{every};
ghost use Rattle.lines.specs.Hex.{is_lower_hex};
ghost use Rattle.words.specs.Words.{same_bytes, is_silent, word_end, between as betweenOf, form_of, limits_of};
ghost use Rattle.words.specs.Words.{NumbersRead, form_word, read_word, numbers_from, no_numbers, words_end, said_word, said_numbers};
ghost use Rattle.words.specs.Lines.{LastRead, hex_word, two_words, last_of, said_last, bare_command, whole_of, leaving, command_of};

use lines::find;
use text::{front, past};

// The commands. A line that says none of them is unreadable; a silent one gets no answer.
#[derive(Clone, Copy, Debug, PartialEq, Eq)]
pub enum Kind {
    Unreadable,
    Read,
    Write,
    Send,
    Payload,
    New,
    Call,
    Silent,
    Rpc,
    RpcWrite,
}

// A line has no more numbers.
const NUMBERS: usize = 9;

// The largest number of each kind of word: a flag, 8, 16 and 32 bits, the length of an out buffer.
const FLAG: u64 = 1;

const BYTE: u64 = 255;

const HALF: u64 = 65535;

const WIDE: u64 = 4294967295;

const OUTLEN: u64 = 131084;

// A word with this limit is the name of one of three forms, which stands for a number, so that it stands among the line's numbers as `form_word` (specs/Words)
// says: 0 `rpc`, 1 `bulk`, 2 `query`.
const FORM: u64 = 2;

// What a line says: a command, its numbers, the last of them, which is the length of the out buffer where there is one, and how many bytes it says in all.
// Where it has two words of bytes, `first` of these are the first one's. Numbers by their place and counts beside `content`, as docs/DRIVER.md and `command_of`
// (specs/Lines) have them; memory is fixed.
#[derive(Clone, Copy)]
pub struct Command {
    pub kind: Kind,
    pub values: [u64; NUMBERS],
    pub lent: u64,
    pub first: usize,
    pub count: usize,
}

// The numbers of a line, and the last of them.
#[derive(Clone, Copy)]
struct Numbers {
    values: [u64; NUMBERS],
    lent: u64,
}

// The numbers of a line, where all of them can be read, and where their words end, whatever they say.
#[derive(Clone, Copy)]
struct NumberWords {
    numbers: Option<Numbers>,
    end: usize,
}

// How many bytes the last word says, or the last two together; the first of two says `first`.
#[derive(Clone, Copy)]
struct Last {
    first: usize,
    count: usize,
}

impl Kind {
    // The command that a word names. `match name { b"read" => .. }` was tried: its proof is a goal for each byte that can differ, and does not close.
    #[tactic(auto, unfolding(crate::specs::Words::form_of, crate::specs::Words::rpc_form_of, crate::specs::Words::link_form_of))]
    fn named(name: &[u8]) -> Kind
        ensures { result ≡ (form_of name.now).kind }
    {
        if is(name, b"read") {
            return Kind::Read;
        }
        if is(name, b"write") {
            return Kind::Write;
        }
        if is(name, b"send") {
            return Kind::Send;
        }
        if is(name, b"payload") {
            return Kind::Payload;
        }
        if is(name, b"rpc") {
            return Kind::Rpc;
        }
        if is(name, b"rpcwrite") {
            return Kind::RpcWrite;
        }
        if is(name, b"new") {
            return Kind::New;
        }
        if is(name, b"call") {
            return Kind::Call;
        }
        Kind::Unreadable
    }

    // The largest that each of its numbers may be.
    fn limits(self) -> &'static [u64]
        ensures limits { result.now ≡ limits_of self }
        ensures at_most { length result.now ≤ 9 }
    {
        match self {
            Kind::Write => &[BYTE, FLAG, BYTE, BYTE, BYTE, BYTE, WIDE, WIDE, OUTLEN],
            Kind::Send => &[BYTE, BYTE, BYTE, WIDE, WIDE, WIDE, OUTLEN],
            Kind::Rpc => &[FORM, BYTE],
            Kind::RpcWrite => &[FORM, BYTE, BYTE, WIDE, WIDE, WIDE, OUTLEN],
            Kind::New => &[BYTE, BYTE, BYTE, WIDE],
            Kind::Call => &[HALF, HALF, WIDE, OUTLEN],
            _ => &[],
        }
    }
}

impl Command {
    // A number of the line; 0 where it has no such number.
    pub fn value(self, i: usize) -> u64
        ensures { result ≡ get_or self.values i 0 }
    {
        self.values.get(i).copied().unwrap_or(0)
    }

    // A number that was read with a limit of 8, 16 or 32 bits keeps its value here. One function over `numbers::Number` would be no plainer: it would have
    // to go by way of bytes, since 256 ^ WIDTH does not fit the numbers that it divides.
    pub fn byte(self, i: usize) -> u8
        ensures { result ≡ get_or self.values i 0 % 256 }
    {
        (self.value(i) % 256) as u8
    }

    pub fn half(self, i: usize) -> u16
        ensures { result ≡ get_or self.values i 0 % 65536 }
    {
        (self.value(i) % 65536) as u16
    }

    pub fn wide(self, i: usize) -> u32
        ensures { result ≡ get_or self.values i 0 % 4294967296 }
    {
        (self.value(i) % 4294967296) as u32
    }

    // A command with no words behind it.
    fn bare(kind: Kind) -> Command
        ensures { result ≡ bare_command kind }
    {
        Command {
            kind,
            values: [0; NUMBERS],
            lent: 0,
            first: 0,
            count: 0,
        }
    }
}

// A word is named by the places of the spaces around it, and not by its own slice: what follows it begins there (`word_end`, `between`, specs/Words).
// Where the word behind a space ends. Behind the last word there is none, and the line's end is answered.
fn word_end(line: &[u8], space: usize) -> usize
    ensures { result ≡ word_end line.now space }
{
    let start = past(space, line.len());
    find(line, start, line.len(), b' ')
}

// What stands behind a space, up to `end`; nothing where there is no such part.
fn between(line: &[u8], space: usize, end: usize) -> &[u8]
    ensures { result.now ≡ betweenOf line.now space end }
{
    let whole = front(line, end);
    let start = past(space, whole.len());
    &whole[start..]
}

// Whether a word is a name.
fn is(word: &[u8], name: &[u8]) -> bool
    ensures { result ≡ same_bytes word.now name.now }
{
    word == name
}

// The form that a word names, as a number.
#[tactic(auto, unfolding(crate::specs::Words::form_word))]
fn named(word: &[u8]) -> Option<u64>
    ensures { (end : ℕ) → result ≡ said_word (form_word end word.now) }
{
    if is(word, b"rpc") {
        return Some(0);
    }
    if is(word, b"bulk") {
        return Some(1);
    }
    is(word, b"query").then_some(2)
}

// A word as a number of at most `most`: a decimal one, or the name of a form.
fn number(word: &[u8], most: u64) -> Option<u64>
    ensures { (end : ℕ) → result ≡ said_word (read_word most end word.now) }
{
    if most == FORM {
        return named(word);
    }
    lines::decimal_to_number(word)
        .ok()
        .filter(|value| *value <= most)
}

// The words behind a space as numbers, one for each limit. Behind one that cannot be read the others are only passed, from where it ends: no word is looked
// through for its end twice.
fn numbers_at(line: &[u8], space: usize, limits: &[u64]) -> NumberWords
    requires { length limits.now ≤ 9 }
    ensures numbers { result.numbers ≡ said_numbers (numbers_from line.now limits.now 0 (no_numbers space)) }
    ensures end { result.end ≡ (numbers_from line.now limits.now 0 (no_numbers space)).end }
{
    let mut values = [0; NUMBERS];
    let mut lent = OUTLEN;
    let mut end = space;
    for (i, most) in limits.iter().enumerate() {
        let start = end;
        end = word_end(line, start);
        let Some(value) = number(between(line, start, end), *most) else {
            return NumberWords {
                numbers: None,
                end: words_end(line, end, limits.len() - (i + 1)),
            };
        };
        lent = value;
        values[i] = value;
    }
    NumberWords {
        numbers: Some(Numbers { values, lent }),
        end,
    }
}

// Where so many words behind a space end, whatever they say.
fn words_end(line: &[u8], space: usize, count: usize) -> usize
    ensures { result ≡ words_end line.now count space }
{
    let mut end = space;
    for _ in 0..count {
        end = word_end(line, end);
    }
    end
}

// Whether a word is one in lower-case hexadecimal, of which so many bytes were decoded, or `-` for no bytes.
fn is_bytes(word: &[u8], count: usize) -> bool
    ensures { result ≡ (same_bytes word.now (45 ∷ []) || (ltb 0 count && every is_lower_hex word.now)) }
{
    is(word, b"-") | ((0 < count) & lines::is_lower_hex(word))
}

// The last word's bytes to the front of `content`. A word that is refused can leave its bytes there too.
fn one_word(word: &[u8], content: &mut [u8]) -> Option<Last>
    ensures said { result ≡ said_last (hex_word word.now content.old).last }
    ensures content_after { content.new ≡ (hex_word word.now content.old).content }
{
    let count = lines::hex_to_bytes(word, content).unwrap_or(0);
    is_bytes(word, count).then_some(Last { first: 0, count })
}

// Two such words, the bytes of the second right behind those of the first.
fn two_words(line: &[u8], end: usize, content: &mut [u8]) -> Option<Last>
    ensures said { result ≡ said_last (two_words line.now end content.old).last }
    ensures content_after { content.new ≡ (two_words line.now end content.old).content }
{
    let middle = word_end(line, end);
    let near = between(line, end, middle);
    let far = between(line, middle, line.len());
    let first = lines::hex_to_bytes(near, content).unwrap_or(0);
    let second = lines::hex_to_bytes(far, &mut content[first..]).unwrap_or(0);
    let count = first + second;
    (is_bytes(near, first) & is_bytes(far, second)).then_some(Last { first, count })
}

// What follows the numbers: nothing, the last word, or the last two. A word too many is refused too: it leaves a space within what is read here.
#[tactic(auto, unfolding(crate::specs::Lines::last_of))]
fn last_word(line: &[u8], kind: Kind, end: usize, content: &mut [u8]) -> Option<Last>
    ensures said { result ≡ said_last (last_of line.now kind end content.old).last }
    ensures content_after { content.new ≡ (last_of line.now kind end content.old).content }
{
    match kind {
        Kind::New => (end == line.len()).then_some(Last { first: 0, count: 0 }),
        Kind::RpcWrite => two_words(line, end, content),
        _ => one_word(between(line, end, line.len()), content),
    }
}

// Whether a line gets no answer.
fn is_silent(line: &[u8]) -> bool
    ensures { result ≡ is_silent line.now }
{
    matches!(line, [] | [b'#', ..])
}

// What a line says; the bytes of its last word, or of its last two, go to the front of `content`.
pub fn command_of(line: &[u8], content: &mut [u8]) -> Command
    ensures { leaving result content.new ≡ command_of line.now content.old }
{
    if is_silent(line) {
        return Command::bare(Kind::Silent);
    }
    let space = find(line, 0, line.len(), b' ');
    let kind = Kind::named(front(line, space));
    let limits = kind.limits();
    let words = numbers_at(line, space, limits);
    // The last words are read behind numbers that cannot be read too: the contract says what they leave in `content`.
    let last = last_word(line, kind, words.end, content);
    whole(kind, words.numbers, last)
}

// A command with the words behind it, where all of them can be read.
fn whole(kind: Kind, numbers: Option<Numbers>, last: Option<Last>) -> Command
    ensures { (n : NumbersRead) (l : LastRead) → numbers ≡ said_numbers n → last ≡ said_last l → result ≡ whole_of kind n l }
{
    let Some((numbers, last)) = numbers.zip(last) else {
        return Command::bare(Kind::Unreadable);
    };
    let values = numbers.values;
    Command {
        kind,
        values,
        lent: numbers.lent,
        first: last.first,
        count: last.count,
    }
}
