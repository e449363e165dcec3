ghost use Rattle.std.specs.Prelude.{◌≡◌, true, length};
ghost use Rattle.calculus.specs.Trails.{choices as choices_of};
ghost use Rattle.fixedvec.specs.Items.{items_of};
ghost use Rattle.tables.specs.Views.{entries_of};
ghost use Rattle.tables.specs.Keys.{tidy, placed, Weighed};

use crate::entry::Entry;
use fixedvec::FixedVec;

pub mod asking;
mod entering;
mod weighing;

// There are 127 numbers and 16 measures, and none stands twice on a trail, so it has room for all.
pub const MOST_ENTRIES: usize = 143;

pub const MOST_MEASURES: usize = 16;

// There are fewer keys than bytes.
const KEYS: usize = 256;

// Measures are counted from 1.
const PLACES: usize = MOST_MEASURES + 1;

// The trail, in the order of entry. So that no look-up goes through it, the place of each entry is kept under the entry's
// key, the numerator of each measure is kept, or 0, and the choices are counted. What is kept under the key of an entry that
// is gone is not taken away: a look-up tests what it finds.
#[derive(Clone, Copy)]
pub struct Trail {
    entries: FixedVec<Entry, MOST_ENTRIES>,
    places: [u8; KEYS],
    count: u8,
    numerators: [i32; PLACES],
    ghost tidied: { tidy (entries_of (items_of entries)) ≡ true },
    ghost keyed: { length places ≡ 256 },
    ghost found: { placed places 0 (entries_of (items_of entries)) ≡ true },
    ghost counted: { count ≡ choices_of (entries_of (items_of entries)) },
    ghost wide: { length numerators ≡ 17 },
    ghost weighed: { Weighed numerators (entries_of (items_of entries)) },
}
