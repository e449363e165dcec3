ghost use Rattle.std.specs.Prelude.{◌≡◌, ◌-◌, true, List, [], ◌∷◌, ◌++◌, length, take, pos};
ghost use Rattle.calculus.specs.Trails.{Entry as Entered, numerator as numerator_of, up_to};
ghost use Rattle.tables.specs.Views.{entry_of};
ghost use Rattle.tables.specs.Keys.{ranged, free, Weighed};
ghost use Rattle.tables.specs.Tables.{trail_of};

use super::{KEYS, PLACES, Trail};
use crate::entry::Entry;
use fixedvec::FixedVec;

// Where the entry is a value: keeps this numerator for its measure, as the value comes or goes.
fn keep(numerators: &mut [i32; PLACES], entry: Entry, numerator: i32)
    requires in_range { ranged (entry_of entry).content ≡ true }
    requires wide { length numerators.old ≡ 17 }
    ensures wide { length numerators.new ≡ 17 }
    ensures comes { (t : List Entered) → free (entry_of entry).content t ≡ true → numerator ≡ numerator_of (entry_of entry).content → Weighed numerators.old t → Weighed numerators.new (t ++ entry_of entry ∷ []) }
    ensures goes { (t : List Entered) → free (entry_of entry).content t ≡ true → numerator ≡ pos 0 → Weighed numerators.old (t ++ entry_of entry ∷ []) → Weighed numerators.new t }
{
    if let Entry::Value { measure, .. } = entry {
        numerators[usize::from(measure)] = numerator;
    }
}

impl Trail {
    pub fn new() -> Trail
        ensures { trail_of result ≡ [] }
    {
        Trail {
            entries: FixedVec::new(),
            places: [0; KEYS],
            count: 0,
            numerators: [0; PLACES],
        }
    }

    // One entry more.
    pub fn push(&mut self, entry: Entry)
        requires in_range { ranged (entry_of entry).content ≡ true }
        requires off_trail { free (entry_of entry).content (trail_of self.old) ≡ true }
        ensures { trail_of self.new ≡ trail_of self.old ++ entry_of entry ∷ [] }
    {
        self.places[usize::from(entry.key())] = self.entries.len() as u8;
        self.count += u8::from(entry.is_choice());
        keep(&mut self.numerators, entry, entry.numerator());
        self.entries.push(entry);
    }

    // The last entry goes.
    pub fn pop(&mut self)
        ensures { trail_of self.new ≡ take (length (trail_of self.old) - 1) (trail_of self.old) }
    {
        if let Some(entry) = self.entries.pop() {
            self.count -= u8::from(entry.is_choice());
            keep(&mut self.numerators, entry, 0);
        }
    }

    // The entries above the level go. Those that stay move up, so they enter a new trail one by one.
    pub fn keep_up_to(&mut self, level: u8)
        ensures { trail_of self.new ≡ up_to level (trail_of self.old) }
    {
        let mut kept = Trail::new();
        let entries = self.entries();
        for entry in entries {
            if entry.level() <= level {
                kept.push(*entry);
            }
        }
        *self = kept;
    }
}
