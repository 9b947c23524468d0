// Where the fields of a session stand in its bytes: each place is the one before it and the size of what stands there.
#![tactic(auto)]

pub use base_little_endian::CELL_BYTES;
use limits::MOST_DAYS;

pub const TOTAL_BYTES: usize = 4;

const TOTALS_BYTES: usize = 2 * TOTAL_BYTES;

pub const BLOCK_BYTES: usize = MOST_DAYS * CELL_BYTES;

const RANGES_BYTES: usize = 2 * BLOCK_BYTES;

pub const DAYS_AT: usize = 0;

pub const MARK_AT: usize = DAYS_AT + CELL_BYTES;

pub const OPENED_TOTALS_AT: usize = MARK_AT + CELL_BYTES;

pub const PRESENT_TOTALS_AT: usize = OPENED_TOTALS_AT + TOTALS_BYTES;

pub const RISES_AT: usize = PRESENT_TOTALS_AT + TOTALS_BYTES;

pub const OPENED_AT: usize = RISES_AT + BLOCK_BYTES;

pub const PRESENT_AT: usize = OPENED_AT + RANGES_BYTES;

pub const FIRST_AT: usize = PRESENT_AT + RANGES_BYTES;

// A function that is lent a session has its length as a clause, and takes no array: `as_array` is compiled wrongly for 32 bits (DECISIONS 138).
pub const SESSION_BYTES: usize = FIRST_AT + CELL_BYTES;
