ghost use Rattle.std.specs.Prelude.{◌≡◌, ◌≤◌, true};
ghost use Rattle.calculus.specs.Limits.{most_denominator, within};

pub mod counting;

// How many numbers there are at most: the switches, then the atoms.
pub const MOST_NUMBERS: u8 = 127;

// How many switches there are, how many numbers (the switches, then the atoms), and the denominator of all values.
#[derive(Clone, Copy)]
pub struct Counts {
    switches: u8,
    numbers: u8,
    denominator: u32,
    ghost few: { switches ≤ 127 },
    ghost fits: { numbers ≤ 127 },
    ghost divides: { within most_denominator denominator ≡ true },
}
