// Pace: makes the link's calls again and again, so that a benchmark can time them from outside. No part of the product.
// Standard input has four numbers of 32 bits, most significant byte first: the bytes of a place, the bytes of the beginning, the bytes that are
// gone over again and again, and how many calls are made with these; then the places, a frame at the front of each. What follows a frame is ignored
// by the link.
// It writes how many calls were accepted. It assumes nothing of the input: what is missing is left out.
#![tactic(auto)]

ghost use Rattle.std.specs.Prelude.{◌≡◌, ℕ, take};
ghost use Rattle.std.specs.Io.KnownBytes.{Appends};
ghost use Rattle.text.specs.Said.{said};
ghost use Rattle.link.specs.Values.{values_of, accepted};
ghost use Rattle.state.specs.Calls.{call_in, told_of};
ghost use Rattle.pace.specs.Pace.{counted_of, offered, behind_of, next_of, places_in, left, left_in, counting, run_from, beginning, script_of, line_of, answer_of};

use link::{Answer, Grant};
use payload::version::Version;
use std::io::Write;
use text::Text;

// The script's longest length.
const LONGEST: usize = 300000;

const POOL: usize = 65536;

// The link's out buffer.
const OUT: usize = 65536;

// The next place of `size` bytes, at least one, within a length.
fn behind(at: usize, size: usize, length: usize) -> usize
    ensures { result ≡ behind_of at size length }
{
    at.saturating_add(size.max(1)).min(length)
}

// Neither too short nor refused.
fn is_accepted(answer: Answer) -> bool
    ensures { result ≡ accepted (values_of answer) }
{
    !matches!(answer, Answer::Short(_) | Answer::Refused(_))
}

// What each call offers: not the bench's offer, whose room would end sooner.
fn offer() -> Grant
    ensures { result ≡ offered }
{
    Grant {
        guarantee: 0,
        cap: 256,
        hash: 39027,
    }
}

fn counted(accepted: u64, answer: Answer) -> u64
    ensures { result ≡ counted_of accepted (values_of answer) }
{
    accepted.wrapping_add(u64::from(is_accepted(answer)))
}

// The place behind one, and the first again behind the last.
fn next(at: usize, size: usize, length: usize) -> usize
    ensures { result ≡ next_of at size length }
{
    let place = behind(at, size, length);
    if place < length { place } else { 0 }
}

// How many whole places a length has.
fn count_places(length: usize, size: usize) -> usize
    ensures { result ≡ places_in length size }
{
    length.checked_div(size).unwrap_or(0)
}

// The head unit that is called: its link's state and buffers, and how many calls were accepted.
#[derive(Drop)]
struct HeadUnit {
    state: [u8; state::LENGTH],
    pool: [u8; POOL],
    out: [u8; OUT],
    accepted: u64,
}

impl HeadUnit {
    // The link before the first call. The bench's `start` makes this call too; to share it, this program would have to know the bench.
    fn start(&mut self)
        ensures { left_in self.new ≡ left 0 (beginning self.old.state) self.old.pool self.old.out }
    {
        let version = Version {
            major: 5,
            minor: 4,
            patch: 1,
        };
        let _ = headunit::create(&mut self.state, version, 131084);
        self.accepted = 0;
    }

    // One call.
    fn call(&mut self, bytes: &[u8])
        ensures { left_in self.new ≡ counting self.old.accepted (told_of (call_in self.old.state self.old.pool bytes.now self.old.out offered)) }
    {
        let answer = headunit::call(
            &mut self.state,
            &mut self.pool,
            bytes,
            &mut self.out,
            offer(),
        );
        self.accepted = counted(self.accepted, answer);
    }

    // So many calls, with the front of one place after the other. The place goes on by hand: each call is lent all bytes from there on (`run_from`).
    fn go_over(&mut self, calls: usize, places: &[u8], size: usize)
        ensures { left_in self.new ≡ run_from calls places.now size 0 (left_in self.old) }
    {
        let mut at: usize = 0;
        for _ in 0..calls {
            self.call(&places[at..]);
            at = next(at, size, places.len());
        }
    }

    // The beginning once, then as many calls with the rest as asked for.
    fn serve(&mut self, script: &[u8])
        ensures { left_in self.new ≡ script_of script.now self.old.state self.old.pool self.old.out }
    {
        // std has no `From<u32>` for usize: these widen by `as`
        let size = numbers::be4(script, 0) as usize;
        let first = (numbers::be4(script, 4) as usize).min(LONGEST);
        let again = (numbers::be4(script, 8) as usize).min(LONGEST);
        let calls = numbers::be4(script, 12) as usize;
        let start = script.len().min(16);
        let middle = (start + first).min(script.len());
        let end = (middle + again).min(script.len());
        self.start();
        self.go_over(count_places(first, size), &script[start..middle], size);
        self.go_over(calls, &script[middle..end], size);
    }
}

// A number and a newline.
#[tactic(auto, using(crate::proofs::Laws::number_said))]
fn spell(number: u64) -> Text
    ensures { said result ≡ line_of number }
{
    Text::empty().decimal(number).byte(b'\n')
}

// What is written for a script.
#[tactic(auto, unfolding(crate::specs::Pace::empty_state, crate::specs::Pace::empty_buffer))]
fn answer(script: &[u8]) -> Text
    ensures { said result ≡ answer_of script.now }
{
    let mut unit = HeadUnit {
        state: [0u8; state::LENGTH],
        pool: [0u8; POOL],
        out: [0u8; OUT],
        accepted: 0,
    };
    unit.serve(script);
    spell(unit.accepted)
}

// Writes a text: what is taken of it stands at its front.
fn report<W: Write>(text: Text, output: &mut W)
    ensures { (n : ℕ) × Appends (W.contents output.old) (W.contents output.new) (take n (said text)) }
{
    let chars = text.chars;
    streams::write_all(output, text::front(&chars, text.end));
}

fn main(rt: HostRuntime) {
    let mut script = [0u8; LONGEST];
    let count = streams::read_full(&mut rt.stdin(), &mut script);
    report(answer(&script[..count]), &mut rt.stdout());
}
