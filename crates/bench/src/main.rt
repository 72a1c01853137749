// The bench program: reads lines of hexadecimal digits from standard input, one frame a line, and answers each on standard output.
// This file holds the buffers, the gathering of lines and the writing of answers; what a line is answered is `benchline::line`.
// It assumes nothing of the input: bytes of any kind and any number.
#![tactic(auto)]

ghost use Rattle.std.specs.Prelude.{◌+◌, ◌≤◌, ◌≡◌, true, false, ◌++◌, length, take, IfNone, IfSome};
ghost use Rattle.lines.specs.Newline.{line_length};
ghost use Rattle.benchline.specs.Line.{new_state, most_text};
ghost use Rattle.bench.specs.Pieces.{state_size, pool_size, out_size, most_kept, empty_state, run_in, kept_in, FirstLine, answer_to, IsText, answered_at, after_line, roomed, written, Flushed, Passed, after_lines, lines_in, kept_after, after_read, last_of};

use std::io::{Read, Write};

// A line of 3,000 digits, and one more to tell a longer one.
const LINE: usize = 3001;

const POOL: usize = 65536;

// The link's out buffer.
const OUT: usize = 65536;

// Texts that wait to be written: room for the longest one, and for more than as many that wait before it.
const TEXTS: usize = 300000;

const LONGEST_TEXT: usize = 2 * OUT + 32;

// As much of the input as one read takes.
const PIECE: usize = 65536;

// A text's first line and what stands behind its newline, where a line ends.
fn first_line(text: &[u8]) -> Option<(&[u8], &[u8])>
    ensures none { IfNone result (line_length text.now ≡ length text.now) }
    ensures some { IfSome result (λ p. FirstLine text.now p.0.now p.1.now) }
{
    let end = lines::line_end(text, 0);
    if end == text.len() {
        return None;
    }
    Some((&text[..end], &text[end + 1..]))
}

// The front of a line that goes on in the next piece of the input. Fixed memory, here and below: so many characters of an array, and no Vec.
#[derive(Drop)]
struct Kept {
    chars: [u8; LINE],
    // so many of them are filled
    filled: usize,
}

impl Kept {
    fn chars(&self) -> &[u8]
        ensures { result.now ≡ kept_in self.now }
    {
        text::front(&self.chars, self.filled)
    }

    // What does not fit makes no difference: the line is too long then.
    fn add(&mut self, part: &[u8])
        ensures { kept_in self.new ≡ take most_kept (kept_in self.old ++ part.now) }
    {
        self.filled = text::put(&mut self.chars, self.filled, part);
    }
}

// The head unit that is played: its link's state and buffers, and what it answered so far.
#[derive(Drop)]
struct HeadUnit {
    state: [u8; state::LENGTH],
    pool: [u8; POOL],
    out: [u8; OUT],
    texts: [u8; TEXTS],
    // so many characters of texts wait to be written
    waiting: usize,
    // so many lines were answered
    lines: u64,
    // the input may hold more; and every write so far was taken: two flags, of which `Flushed` and `Passed` speak one by one
    more: bool,
    taken: bool,
}

impl HeadUnit {
    // The output is lent to each method: owned by the struct it would make all three structs generic.
    // Writes the waiting texts. After a write that failed nothing more is written or read.
    fn flush<W: Write>(&mut self, output: &mut W)
        ensures run_after { run_in self.new ≡ written (run_in self.old) }
        ensures flushed { Flushed self.old self.new }
        ensures passed { Passed self.old self.new (W.contents output.old) (W.contents output.new) }
    {
        if self.taken {
            self.taken = streams::write_all(output, text::front(&self.texts, self.waiting));
            self.more &= self.taken;
        }
        self.waiting = 0;
    }

    // Texts wait as long as the longest one still fits behind them.
    fn make_room<W: Write>(&mut self, output: &mut W)
        ensures run_after { run_in self.new ≡ roomed (run_in self.old) }
        ensures waiting_in_bounds { most_text self.new.out + self.new.waiting ≤ length self.new.texts }
    {
        if self.waiting > TEXTS - LONGEST_TEXT {
            self.flush(output);
        }
    }

    // A line's text waits behind the others. There is room for the longest one, so no line is lost.
    fn answer(&mut self, line: &[u8])
        requires { most_text self.old.out + self.old.waiting ≤ length self.old.texts }
        ensures run_after { run_in self.new ≡ answered_at self.old.waiting (run_in self.old) line.now }
        ensures text { IsText (answer_to self.old.waiting (run_in self.old) line.now).output }
    {
        let start = self.waiting;
        let turn = benchline::line(
            self.lines,
            line,
            &mut self.state,
            &mut self.pool,
            &mut self.out,
            &mut self.texts[start..],
        );
        self.lines = turn.lines;
        self.waiting = start + turn.output.unwrap();
    }
}

// What is carried from one piece of the input to the next.
#[derive(Drop)]
struct Bench {
    kept: Kept,
    unit: HeadUnit,
}

impl Bench {
    // Before the first piece: no line was answered, nothing is kept, nothing waits, and there is input to read.
    #[tactic(auto, unfolding(crate::specs::Pieces::empty_state))]
    fn new() -> Bench
        ensures link_after { result.unit.state ≡ new_state empty_state }
        ensures link_len { (length result.unit.state ≡ state_size) × ((length result.unit.pool ≡ pool_size) × (length result.unit.out ≡ out_size)) }
        ensures none { (result.unit.lines ≡ 0) × (result.kept.filled ≡ 0) × (result.unit.waiting ≡ 0) }
        ensures more_value { (result.unit.more ≡ true) × (result.unit.taken ≡ true) }
    {
        let mut state = [0u8; state::LENGTH];
        benchline::start(&mut state);
        Bench {
            kept: Kept {
                chars: [0u8; LINE],
                filled: 0,
            },
            unit: HeadUnit {
                state,
                pool: [0u8; POOL],
                out: [0u8; OUT],
                texts: [0u8; TEXTS],
                waiting: 0,
                lines: 0,
                more: true,
                taken: true,
            },
        }
    }

    // A line is answered where it stands in the piece. Only one that began in an earlier piece is gathered first.
    fn answer_line<W: Write>(&mut self, part: &[u8], output: &mut W)
        ensures run_after { run_in self.new.unit ≡ after_line (run_in self.old.unit) (kept_in self.old.kept ++ part.now) }
        ensures kept_after { self.new.kept.filled ≡ 0 }
    {
        self.unit.make_room(output);
        if self.kept.filled == 0 {
            self.unit.answer(part);
            return;
        }
        self.kept.add(part);
        self.unit.answer(self.kept.chars());
        self.kept.filled = 0;
    }

    // Answers the lines that end in a piece of the input. What stands behind the last newline is kept.
    fn take_piece<W: Write>(&mut self, piece: &[u8], output: &mut W)
        ensures run_after { run_in self.new.unit ≡ after_lines (run_in self.old.unit) (lines_in (kept_in self.old.kept) piece.now) }
        ensures line_after { kept_in self.new.kept ≡ take most_kept (kept_after (kept_in self.old.kept) piece.now) }
    {
        let mut rest = piece;
        while let Some((line, behind)) = first_line(rest) {
            self.answer_line(line, output);
            rest = behind;
        }
        self.kept.add(rest);
    }

    // What a read brought: no bytes are the end of the input. The texts are written before the next read, which may wait: whoever sends a line can wait
    // for its answer.
    fn take_read<W: Write>(&mut self, piece: &[u8], output: &mut W)
        ensures run_after { run_in self.new.unit ≡ after_read (run_in self.old.unit) (kept_in self.old.kept) piece.now }
        ensures line_after { kept_in self.new.kept ≡ take most_kept (kept_after (kept_in self.old.kept) piece.now) }
        ensures more_value { length piece.now ≡ 0 → (self.new.unit.more ≡ false) × (self.new.unit.taken ≡ self.old.unit.taken) }
    {
        if piece.is_empty() {
            self.unit.more = false;
            return;
        }
        self.take_piece(piece, output);
        self.unit.flush(output);
    }

    // Reads once.
    fn read_piece<R: Read, W: Write>(&mut self, piece: &mut [u8], input: &mut R, output: &mut W) {
        let count = streams::read(input, piece);
        self.take_read(&piece[..count], output);
    }

    // The last line may lack its newline; an empty one is none.
    fn end_input<W: Write>(&mut self, output: &mut W)
        ensures { run_in self.new.unit ≡ last_of (run_in self.old.unit) self.old.kept.filled self.old.kept.chars }
    {
        if self.kept.filled == 0 {
            return;
        }
        self.unit.make_room(output);
        self.unit.answer(self.kept.chars());
    }

    // A proved loop has to end, and nothing says that the input does. So the turns are counted, up to a number that no run reaches.
    fn serve<R: Read, W: Write>(&mut self, input: &mut R, output: &mut W) {
        let mut piece = [0u8; PIECE];
        for _ in 0..u64::MAX {
            if !self.unit.more {
                break;
            }
            self.read_piece(&mut piece, input, output);
        }
        self.end_input(output);
        self.unit.flush(output);
    }
}

fn main(rt: HostRuntime) {
    Bench::new().serve(&mut rt.stdin(), &mut rt.stdout());
}
