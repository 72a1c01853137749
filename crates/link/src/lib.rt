// The link: up to eight sessions over one pool of blocks. Document 01, "The link".
// Here stand its state and what a call brings and answers; the definitions in specs/ say what a call does.
#![tactic(auto)]

use figures::refusal::Refusal;
use frame::ServiceType;
use payload::version::Version;
use session::Row;

// The state, as the definitions speak of it. In code it lies in bytes of the caller's, and no function makes this struct: `link_of` (state/specs/Layout)
// reads it off them.
#[derive(Clone, Copy)]
pub struct Link {
    // the module's own version
    pub version: Version,
    pub mtu: u32,
    // the sessions; a row whose id is 0 is free
    pub rows: [Row; 8],
    // each block's owner: 0 free, else 1 + 5 * row + place of the service
    pub owners: [u8; 256],
}

// What a call offers to a session or a service that it may start. Document 01's offer: G, C and a hash.
#[derive(Clone, Copy)]
pub struct Grant {
    pub guarantee: u16,
    pub cap: u16,
    pub hash: u32,
}

// What a call answers: document 01's seven answers, so no Result. The first number of an accepted call is the bytes consumed, the last the bytes at the front
// of out.
#[derive(Clone, Copy)]
pub enum Answer {
    // the bytes needed in all
    Short(usize),
    Refused(Refusal),
    // a reply: an ACK, a NAK, a Heartbeat ACK
    Acked(usize, usize),
    Nacked(usize, usize),
    Beat(usize, usize),
    // accepted silently
    Accepted(usize),
    // a message or a Single Frame's payload
    Delivered(usize, ServiceType, usize),
}
