// "Services: 00, 07 RPC, 0A audio, 0B video, 0F bulk (hex)."
pub const CONTROL: u8 = 0;

pub const RPC: u8 = 7;

pub const AUDIO: u8 = 10;

pub const VIDEO: u8 = 11;

pub const BULK: u8 = 15;

// In the order of their places: each session has one for each, and a message stands at its service's.
pub const ALL: [u8; 5] = [CONTROL, RPC, AUDIO, VIDEO, BULK];
