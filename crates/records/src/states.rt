// The states of a box as bytes. BOTH, a clash, never stands on a sheet.
pub const OUT: u8 = 0;

pub const IN: u8 = 1;

pub const OPEN: u8 = 2;

pub const BOTH: u8 = 3;
