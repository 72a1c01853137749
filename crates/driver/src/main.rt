// The driver: reads lines from standard input and answers each on standard output, as docs/DRIVER.md says.
// This file holds the gathering of lines. It assumes nothing of the input: bytes of any kind and any number.
// The library `words` reads a line's words; commands.rt, messages.rt and calls.rt make the calls; the library `text`, sessions.rt and output.rt spell the
// answers.
#![tactic(auto)]

mod calls;
mod commands;
mod messages;
mod output;
mod sessions;

ghost use Rattle.std.specs.Prelude.{◌≡◌, take};
ghost use Rattle.std.specs.Io.KnownBytes.{Consumes};
ghost use Rattle.words.specs.Lines.{leaving};
ghost use Rattle.driver.specs.Turns.{left, turn_of};
ghost use Rattle.driver.specs.Input.{part_taken, begun_of, no_input, read_into, step_of, line_length, spoken_line, after_write};

use calls::Store;
use output::{CONTENT, Line};
use std::io::Read;
use words::{Command, Kind};

// A line of 300,000 bytes, and one byte more to tell a longer one.
const LINE: usize = 300001;

// The bytes of a piece of the input.
const PIECE: usize = 65536;

// What is at hand of the input: a piece of it, and what is gathered of a line. Fixed memory: so many bytes of an array, and no Vec.
#[derive(Drop)]
struct Input {
    // so many bytes of the piece were read, and so many of them are taken
    piece: [u8; PIECE],
    count: usize,
    at: usize,
    // so many bytes of the line buffer are filled
    line: [u8; LINE],
    filled: usize,
    // they are a whole line; no Option of `filled`, since a part of a line is filled too
    ended: bool,
    // the input may hold more
    more: bool,
}

fn content_buffer() -> [u8; CONTENT] {
    [0; CONTENT]
}

impl Input {
    // Before the first piece nothing is at hand.
    fn new() -> Input
        ensures { result ≡ no_input }
    {
        Input {
            piece: [0; PIECE],
            count: 0,
            at: 0,
            line: [0; LINE],
            filled: 0,
            ended: false,
            more: true,
        }
    }

    // Reads once. The last line may lack its newline: it is whole where the input ends.
    fn read_piece<R: Read>(&mut self, reader: &mut R)
        ensures input_after { self.new ≡ read_into self.old self.new.count self.new.piece }
        ensures bytes { Consumes (R.remaining reader.old) (R.remaining reader.new) (take self.new.count self.new.piece) }
    {
        self.count = streams::read(reader, &mut self.piece);
        self.at = 0;
        self.ended = self.count == 0;
        self.more = 0 < self.count;
    }

    // What the piece still has of a line goes behind what is gathered.
    fn take_part(&mut self)
        ensures { self.new ≡ part_taken self.old (take self.old.count self.old.piece) }
    {
        let piece = text::front(&self.piece, self.count);
        let at = self.at.min(piece.len());
        let end = lines::find(piece, at, piece.len(), b'\n');
        self.filled = text::put(&mut self.line, self.filled, &piece[at..end]);
        self.at = text::past(end, piece.len());
        self.ended = end < piece.len();
    }

    // Behind a whole line the next one begins.
    fn begin(&mut self)
        ensures { self.new ≡ begun_of self.old }
    {
        if self.ended {
            self.filled = 0;
        }
    }

    // One step on: a part of a line from the piece, or another piece.
    fn step<R: Read>(&mut self, reader: &mut R)
        ensures { self.new ≡ step_of self.old self.new.count self.new.piece }
    {
        if self.at < self.count {
            self.take_part();
        } else {
            self.read_piece(reader);
        }
    }

    // How much of the line buffer is a line: nothing while it is not whole. Of a line that is too long only the first byte is left, which is no command.
    fn line_length(&self) -> usize
        ensures { result ≡ line_length self.now }
    {
        if !self.ended {
            return 0;
        }
        if self.filled < LINE { self.filled } else { 1 }
    }

    // What the line says. Its last words' bytes go to the front of `content`.
    fn command(&self, content: &mut [u8; CONTENT]) -> Command
        ensures { leaving result content.new ≡ spoken_line self.now content.old }
    {
        words::command_of(text::front(&self.line, self.line_length()), content)
    }

    // After a write that failed nothing more is read or written.
    fn after_write(&mut self, taken: bool)
        ensures { self.new ≡ after_write self.old taken }
    {
        self.more = self.more & taken;
    }
}

// Carries out a command, and spells its answer. The store has whether there is a link after it: no Option, since `turn_of` keeps the bytes while there is none.
// The command's last words' bytes stand at the front of `content`.
#[tactic(auto, unfolding(crate::specs::Turns::turn_of))]
fn obey(command: Command, content: &[u8; CONTENT], store: &mut Store, line: &mut Line)
    ensures { left store.new.linked store.new line.new ≡ turn_of store.old.linked command content.now store.old.state store.old.pool }
{
    let input = text::front(content, command.count);
    let linked = store.linked;
    store.linked = match command.kind {
        Kind::New => store.create(command, line),
        Kind::Call if linked => {
            store.call(command, input, line);
            true
        }
        _ => {
            commands::obey(command, input, line);
            linked
        }
    };
}

// A proved loop has to end, and nothing says that the input does. So the turns are counted, up to a number that no run reaches.
fn main(rt: HostRuntime) {
    let mut reader = rt.stdin();
    let mut writer = rt.stdout();
    let mut content = content_buffer();
    let mut store = Store::new();
    let mut answer = Line::new();
    let mut input = Input::new();
    for _ in 0..u64::MAX {
        if !input.more {
            break;
        }
        input.begin();
        input.step(&mut reader);
        let command = input.command(&mut content);
        obey(command, &content, &mut store, &mut answer);
        input.after_write(answer.write(&mut writer));
    }
}
