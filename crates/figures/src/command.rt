// The control infos that are served and written, by the protocol's names.
pub const HEARTBEAT: u8 = 0;

pub const START: u8 = 1;

pub const START_ACK: u8 = 2;

pub const START_NAK: u8 = 3;

pub const END: u8 = 4;

pub const END_ACK: u8 = 5;

pub const END_NAK: u8 = 6;

pub const HEARTBEAT_ACK: u8 = 255;
