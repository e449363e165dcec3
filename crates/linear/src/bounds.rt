// The limits of the linear theory.

// How many measures there are at most.
pub const MOST_MEASURES: u8 = 16;

// How many entries an atom has at most, since each is on a measure of its own.
pub const MOST_ENTRIES: usize = 16;

pub const MOST_ATOMS: usize = 127;

// A coefficient, a constant and a multiplier lie between minus this and this.
pub const MOST_SIZE: i32 = 100_000_000;
