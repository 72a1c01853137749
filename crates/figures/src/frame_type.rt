// "Frame types: 0 control, 1 single, 2 first, 3 consecutive."
pub const CONTROL: u8 = 0;

pub const SINGLE: u8 = 1;

pub const FIRST: u8 = 2;

pub const CONSECUTIVE: u8 = 3;
