// The numbers of document 01 that more than one crate needs. Signed bounds are those of an entry; a code is how far a number is above its lowest bound, so that 0
// has the offset as its code and the highest bound the highest code.
#![tactic(auto)]

// ---- entries

pub const MOST_DAYS: usize = 512;

// In a file.
pub const MOST_CUTS: usize = 512;

pub const LOWEST_POINT: i32 = -1_000;

pub const HIGHEST_POINT: i32 = 4_000;

pub const LOWEST_RISE: i32 = -2_000;

pub const HIGHEST_RISE: i32 = 2_000;

pub const LOWEST_TOTAL: i32 = -512_000;

pub const HIGHEST_TOTAL: i32 = 2_048_000;

// A setpoint to inspect is any number of 16 bits.
pub const LOWEST_SETPOINT: i32 = -32_768;

pub const HIGHEST_SETPOINT: i32 = 32_767;

// ---- codes

// A point's code is its level.
pub const LEVEL_OFFSET: usize = 1_000;

pub const HIGHEST_LEVEL: usize = 5_000;

pub const RISE_OFFSET: usize = 2_000;

pub const HIGHEST_RISE_CODE: usize = 4_000;

pub const TOTAL_OFFSET: usize = 512_000;

pub const SETPOINT_OFFSET: usize = 32_768;

// What a level lacks of its point's code as a setpoint.
pub const LEVEL_TO_SETPOINT: usize = SETPOINT_OFFSET - LEVEL_OFFSET;

// ---- the method

// Past the last day the shift is as large as falls of all days can make it smaller.
pub const LAST_SHIFT: usize = MOST_DAYS * RISE_OFFSET;

// A level past the last day that limits no day before it.
pub const FREE_LEVEL: usize = HIGHEST_LEVEL + RISE_OFFSET;
