// The commands `new` and `call`: they make the link, or call it. The store has whether there is one; `obey` of main.rt keeps it up to date.
// It assumes nothing of the line and nothing of the state. No rule of the protocol stands here.
ghost use Rattle.std.specs.Prelude.{◌≡◌, ◌≤◌, true, IfErr};
ghost use Rattle.figures.specs.Refusal.{refusal_in};
ghost use Rattle.text.specs.Said.{Started, Longer};
ghost use Rattle.link.specs.declared.Answer.TheVariants.{Delivered};
ghost use Rattle.link.specs.Values.{values_of};
ghost use Rattle.state.specs.Calls.{left as left_by, told_of};
ghost use Rattle.driver.specs.Spelling.{Holds, with_hex, letter_and};
ghost use Rattle.driver.specs.Answers.{lent_out};
ghost use Rattle.driver.specs.Turns.{left, no_link, new_pool, version_of, created_text, new_of, grant_of, answer_line, checks_text, called_by, called_of};

use crate::{output, sessions};
use figures::refusal::Refusal;
use frame::ServiceType;
use link::{Answer, Grant};
use output::{Line, OUTLEN};
use payload::version::Version;
use state::LENGTH;
use text::Text;
use words::Command;

const POOL: usize = 65536;

// Whether there is a link, and what is lent to each call of it: its state's bytes and its pool.
#[derive(Drop)]
pub struct Store {
    pub linked: bool,
    pub state: [u8; LENGTH],
    pub pool: [u8; POOL],
}

// Byte i of a new pool is (i*7 + 13) mod 256.
fn fill_pool(pool: &mut [u8])
    ensures { pool.new ≡ new_pool pool.old }
{
    let mut next: u8 = 13;
    for byte in pool.iter_mut() {
        *byte = next;
        next = next.wrapping_add(7);
    }
}

fn created_text(created: Result<(), Refusal>) -> Text
    requires { IfErr created (λ number. 1 ≤ number) }
    ensures { Started (created_text (refusal_in created)) result }
{
    match created {
        Ok(()) => Text::empty().put(b"ok"),
        Err(refusal) => Text::refused(refusal),
    }
}

fn version_of(command: Command) -> Version
    ensures { result ≡ version_of command }
{
    Version {
        major: command.byte(0),
        minor: command.byte(1),
        patch: command.byte(2),
    }
}

// W, the bytes consumed, and the bytes that a call wrote.
fn reply_text(consumed: usize, size: usize) -> Text
    ensures { Holds (with_hex (letter_and 87 consumed) size) result }
{
    Text::answer(b'W', consumed).hex(size)
}

fn delivery_text(consumed: usize, service: ServiceType, size: usize) -> Text
    ensures { Holds (answer_line (values_of (Delivered consumed service size))) result }
{
    Text::answer(b'D', consumed)
        .byte(b' ')
        .pair(service.0)
        .hex(size)
}

fn answer_text(answer: Answer) -> Text
    ensures { Holds (answer_line (values_of answer)) result }
{
    match answer {
        Answer::Short(needed) => Text::answer(b'S', needed),
        Answer::Refused(refusal) => Text::refused(refusal),
        Answer::Acked(consumed, size)
        | Answer::Nacked(consumed, size)
        | Answer::Beat(consumed, size) => reply_text(consumed, size),
        Answer::Accepted(consumed) => Text::answer(b'A', consumed),
        Answer::Delivered(consumed, service, size) => delivery_text(consumed, service, size),
    }
}

// The checks of out and pool after a call.
fn with_checks(text: Text, out: &[u8], pool: &[u8]) -> Text
    ensures { Longer text (checks_text out.now pool.now) result }
{
    let named = text.put(b" out=").decimal(text::check(out));
    named.put(b" pool=").decimal(text::check(pool)).byte(b' ')
}

fn grant_of(command: Command) -> Grant
    ensures { result ≡ grant_of command }
{
    Grant {
        guarantee: command.half(0),
        cap: command.half(1),
        hash: command.wide(2),
    }
}

impl Store {
    // Before the first line there is no link.
    pub fn new() -> Store
        ensures { result.linked ≡ no_link }
    {
        Store {
            linked: false,
            state: [0; LENGTH],
            pool: [0; POOL],
        }
    }

    // new M m p MTU
    // Answers whether there is a link after it.
    pub fn create(&mut self, command: Command, line: &mut Line) -> bool
        ensures { left result self.new line.new ≡ new_of command self.old.state self.old.pool }
    {
        let created = headunit::create(&mut self.state, version_of(command), command.wide(3));
        fill_pool(&mut self.pool);
        line.lay_plain(created_text(created));
        created.is_ok()
    }

    // Spells what a call left: answer, out, pool, state.
    fn spell(&self, answer: Answer, out: &[u8], line: &mut Line)
        ensures { left true self.now line.new ≡ called_by (told_of (left_by answer self.now.state self.now.pool out.now)) }
    {
        let text = with_checks(answer_text(answer), out, &self.pool);
        line.lay(sessions::with_sessions(text, &self.state), out);
    }

    // The call with an out buffer.
    fn call_into(&mut self, command: Command, input: &[u8], out: &mut [u8], line: &mut Line)
        ensures { left true self.new line.new ≡ called_of command input.now self.old.state self.old.pool out.old }
    {
        let answer = headunit::call(
            &mut self.state,
            &mut self.pool,
            input,
            out,
            grant_of(command),
        );
        self.spell(answer, out, line);
    }

    // call G C HASH OUTLEN HEX
    pub fn call(&mut self, command: Command, input: &[u8], line: &mut Line)
        ensures { left true self.new line.new ≡ called_of command input.now self.old.state self.old.pool (lent_out command) }
    {
        let mut out = output::untouched();
        let lent = (command.lent as usize).min(OUTLEN);
        self.call_into(command, input, &mut out[..lent], line);
    }
}
