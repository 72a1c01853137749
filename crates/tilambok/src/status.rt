// What every exported function answers: a status, and a value through a number that the caller lends.
// A refusal is document 01's own number, and its value is left alone. So a status that is cut to an `int` or to one byte is still no success.
ghost use Rattle.std.specs.Prelude.{◌≡◌};
ghost use Rattle.tilambok.specs.Status.{result_of, done, short, written_result, WrittenFits};

use figures::refusal::Refusal;

pub const DONE: u32 = 0;

const SHORT: u32 = 128;

pub fn done(told: u32, value: &mut u32) -> u32
    ensures { result_of result value.new ≡ done told }
{
    *value = told;
    DONE
}

pub fn short(needed: u32, value: &mut u32) -> u32
    ensures { result_of result value.new ≡ short needed }
{
    *value = needed;
    SHORT
}

// The lent number is not handed in: a refusal leaves it as it is.
pub fn refused(refusal: Refusal) -> u32
    ensures { result ≡ refusal }
{
    u32::from(refusal)
}

// A writer's answer, with the bytes written as its value.
pub fn written(answer: Result<usize, Refusal>, value: &mut u32) -> u32
    requires { WrittenFits answer }
    ensures { result_of result value.new ≡ written_result value.old answer }
{
    match answer {
        Ok(count) => done(count as u32, value),
        Err(refusal) => refused(refusal),
    }
}
