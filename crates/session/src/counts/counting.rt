ghost use Rattle.std.specs.Prelude.{◌≡◌, ℕ, ◌+◌, ◌≤◌, Bool, true, nat_le, nat_lt};
ghost use Rattle.calculus.specs.Lists.{every};
ghost use Rattle.calculus.specs.Limits.{most_numbers, most_denominator, within};
ghost use Rattle.calculus.specs.Literals.{number as number_of};

use super::{Counts, MOST_NUMBERS};
use calculus::limits::is_within;
use tables::literals::are_within;

impl Counts {
    // Before anything is counted.
    pub fn new() -> Counts
        ensures switches { result.switches ≡ 0 }
        ensures numbers { result.numbers ≡ 0 }
        ensures denominator { result.denominator ≡ 1 }
    {
        Counts {
            switches: 0,
            numbers: 0,
            denominator: 1,
        }
    }

    // With this many switches, and no atoms yet. A struct with a ghost field is not made from another by `..`.
    pub fn with_switches(self, switches: u8) -> Counts
        requires { nat_le switches most_numbers ≡ true }
        ensures switches { result.switches ≡ switches }
        ensures numbers { result.numbers ≡ switches }
        ensures denominator { result.denominator ≡ self.denominator }
    {
        Counts {
            switches,
            numbers: switches,
            denominator: self.denominator,
        }
    }

    // With one atom more.
    pub fn with_atom(self) -> Counts
        requires { nat_lt self.numbers most_numbers ≡ true }
        ensures switches { result.switches ≡ self.switches }
        ensures numbers { result.numbers ≡ self.numbers + 1 }
        ensures denominator { result.denominator ≡ self.denominator }
    {
        Counts {
            switches: self.switches,
            numbers: self.numbers + 1,
            denominator: self.denominator,
        }
    }

    pub fn with_denominator(self, denominator: u32) -> Counts
        requires { within most_denominator denominator ≡ true }
        ensures switches { result.switches ≡ self.switches }
        ensures numbers { result.numbers ≡ self.numbers }
        ensures denominator { result.denominator ≡ denominator }
    {
        Counts {
            switches: self.switches,
            numbers: self.numbers,
            denominator,
        }
    }

    pub fn switches(self) -> u8
        ensures count { result ≡ self.switches }
        ensures bound { result ≤ 127 }
    {
        self.switches
    }

    pub fn denominator(self) -> u32
        ensures count { result ≡ self.denominator }
        ensures bound { within most_denominator result ≡ true }
    {
        self.denominator
    }

    // There is room for one atom more.
    pub fn has_room(self) -> bool
        ensures { result ≡ nat_lt self.numbers most_numbers }
    {
        self.numbers < MOST_NUMBERS
    }

    // The number is in use.
    pub fn has(self, number: u8) -> bool
        ensures { result ≡ within self.numbers number }
    {
        is_within(usize::from(self.numbers), usize::from(number))
    }

    // The numbers of all these literals are in use.
    pub fn has_all(self, literals: &[i8]) -> bool
        ensures { result ≡ every (λ l. within self.numbers (number_of l)) literals.now }
    {
        are_within(literals, usize::from(self.numbers))
    }
}
