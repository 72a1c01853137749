// The link for C: numbers and lent bytes in; a status, three lent numbers and bytes out. State, pool and out are the caller's.
ghost use Rattle.std.specs.Prelude.{◌≡◌, ◌≤◌};
ghost use Rattle.link.specs.Sizes.{Small};
ghost use Rattle.state.specs.Calls.{made};
ghost use Rattle.tilambok.specs.Links.{report, report_of, done, grant_from, version_from, tilambok_link_call, tilambok_link_create};

use crate::status;
use link::{Answer, Grant};
use payload::version::Version;

// What a call of the link answers beside 0, accepted silently, Short, and document 01's refusals.
const ACK: u32 = 129;

const NAK: u32 = 130;

const HEARTBEAT_ACK: u32 = 131;

const DELIVERED: u32 = 132;

// An accepted call: its bytes consumed, and those at the front of out.
fn accepted(status: u32, taken: usize, length: usize, consumed: &mut u32, value: &mut u32) -> u32
    requires { (taken ≤ 131084) × (length ≤ 131072) }
    ensures { (result ≡ status) × ((consumed.new ≡ taken) × (value.new ≡ length)) }
{
    *consumed = taken as u32;
    *value = length as u32;
    status
}

// The report of an answer: a refusal leaves the lent numbers, and Short all but the last.
fn tell(answer: Answer, service: &mut u8, consumed: &mut u32, value: &mut u32) -> u32
    requires { Small answer }
    ensures { report result service.new consumed.new value.new ≡ report_of service.old consumed.old value.old answer }
{
    match answer {
        Answer::Short(needed) => status::short(needed as u32, value),
        Answer::Refused(refusal) => status::refused(refusal),
        Answer::Acked(taken, length) => accepted(ACK, taken, length, consumed, value),
        Answer::Nacked(taken, length) => accepted(NAK, taken, length, consumed, value),
        Answer::Beat(taken, length) => accepted(HEARTBEAT_ACK, taken, length, consumed, value),
        Answer::Accepted(taken) => accepted(status::DONE, taken, 0, consumed, value),
        Answer::Delivered(taken, from, length) => {
            *service = from.0;
            accepted(DELIVERED, taken, length, consumed, value)
        }
    }
}

// A call of the link: the frame at the front of the input is answered.
#[unsafe(no_mangle)]
pub extern "C" fn tilambok_link_call(
    state: &mut [u8],
    pool: &mut [u8],
    input: &[u8],
    out: &mut [u8],
    guarantee: u16,
    cap: u16,
    hash: u32,
    service: &mut u8,
    consumed: &mut u32,
    value: &mut u32,
) -> u32
    ensures { done (report result service.new consumed.new value.new) state.new pool.new out.new ≡ tilambok_link_call state.old pool.old input.now out.old (grant_from guarantee cap hash) service.old consumed.old value.old }
{
    let offer = Grant {
        guarantee,
        cap,
        hash,
    };
    let answer = headunit::call(state, pool, input, out, offer);
    tell(answer, service, consumed, value)
}

// A link without sessions, to the state's bytes.
#[unsafe(no_mangle)]
pub extern "C" fn tilambok_link_create(
    state: &mut [u8],
    major: u8,
    minor: u8,
    patch: u8,
    mtu: u32,
) -> u32
    ensures { made result state.new ≡ tilambok_link_create state.old (version_from major minor patch) mtu }
{
    let version = Version {
        major,
        minor,
        patch,
    };
    match headunit::create(state, version, mtu) {
        Ok(()) => status::DONE,
        Err(refusal) => status::refused(refusal),
    }
}
