ghost use Rattle.std.specs.Prelude.{◌≡◌, ℕ, ◌<◌, ◌≤◌, true, MatchOption, Bool, not, neg_ℤ, filter};
ghost use Rattle.std.specs.List.{range_with_len};
ghost use Rattle.calculus.specs.Trails.{Content, entry_for, affirms, concerns, values, was_read, reason, on_trail, false_on, false_at, taken, valued, value, choices};
ghost use Rattle.tables.specs.Views.{entry_of, entries_of, Finds};
ghost use Rattle.tables.specs.Tables.{trail_of};
ghost use Rattle.tables.specs.Keys.{key as key_of};

use super::{MOST_MEASURES, Trail};
use crate::entry::Entry;
use arrayvec::ArrayVec;

// The measures up to this one that pass the test, in their order.
fn those<F: Fn(u8) -> bool>(measures: u8, test: F) -> ArrayVec<u8, MOST_MEASURES>
    requires few { measures ≤ 16 }
    requires callable { F.IsAlwaysCallable test }
    ensures { (p : ℕ → Bool) → ((j : ℕ) (b : Bool) → F.post test j b → b ≡ p j) → result.items ≡ filter p (range_with_len 1 measures) }
{
    let mut those = ArrayVec::new();
    for j in 1..measures + 1 {
        if test(j) {
            those.push(j);
        }
    }
    those
}

impl Trail {
    pub fn entries(&self) -> &[Entry]
        ensures { entries_of result.now ≡ trail_of self.now }
    {
        self.entries.as_slice()
    }

    // The entry whose place is kept under the key, if it passes the test. Where a test passes nothing of another key, that is
    // the first entry that passes. What is asked of a test given as a closure, and what its answers tell, is the clause
    // itself, here and at its like.
    fn at<F: Fn(Entry) -> bool>(&self, key: u8, test: F) -> Option<Entry>
        requires { F.IsAlwaysCallable test }
        ensures { (p : Content → Bool) → ((e : Entry) (b : Bool) → F.post test e b → b ≡ p (entry_of e).content) → ((c : Content) → p c ≡ true → key_of c ≡ key) → Finds p (trail_of self.now) result }
    {
        let place = usize::from(self.places[usize::from(key)]);
        let entry = *self.entries.as_slice().get(place)?;
        if test(entry) { Some(entry) } else { None }
    }

    // The entry on this number.
    pub fn find_number(&self, number: u8) -> Option<Entry>
        ensures { Finds (concerns number) (trail_of self.now) result }
    {
        self.at(number, |e| e.concerns(number))
    }

    // The value for this measure.
    pub fn find_value(&self, measure: u8) -> Option<Entry>
        ensures { Finds (values measure) (trail_of self.now) result }
    {
        self.at(255 - measure, |e| e.values(measure))
    }

    // The entry that affirms the literal.
    pub fn find_literal(&self, literal: i8) -> Option<Entry>
        ensures { Finds (affirms literal) (trail_of self.now) result }
    {
        self.at(literal.unsigned_abs(), |e| e.affirms(literal))
    }

    // The entry that makes the literal false.
    pub fn find_denial(&self, literal: i8) -> Option<Entry>
        ensures { Finds (affirms (neg_ℤ literal)) (trail_of self.now) result }
    {
        self.at(literal.unsigned_abs(), |e| e.denies(literal))
    }

    // The number is on the trail, affirmed or denied.
    pub fn is_taken(&self, number: u8) -> bool
        ensures { result ≡ taken number (trail_of self.now) }
    {
        self.find_number(number).is_some()
    }

    pub fn is_valued(&self, measure: u8) -> bool
        ensures { result ≡ valued measure (trail_of self.now) }
    {
        self.find_value(measure).is_some()
    }

    // The measures up to this one that have no value, in their order.
    pub fn unvalued(&self, measures: u8) -> ArrayVec<u8, MOST_MEASURES>
        requires { measures ≤ 16 }
        ensures { result.items ≡ filter (λ j. not (valued j (trail_of self.now))) (range_with_len 1 measures) }
    {
        those(measures, |j| !self.is_valued(j))
    }

    // The numerator of the measure's value, or 0.
    pub fn value(&self, measure: u8) -> i32
        ensures { result ≡ value measure (trail_of self.now) }
    {
        self.find_value(measure).map_or(0, |e| e.numerator())
    }

    // The level of the measure's value, or 0.
    pub fn value_level(&self, measure: u8) -> u8
        ensures { result ≡ (entry_for (values measure) (trail_of self.now)).level }
    {
        self.find_value(measure).map_or(0, |e| e.level())
    }

    pub fn affirms(&self, literal: i8) -> bool
        ensures { result ≡ on_trail literal (trail_of self.now) }
    {
        self.find_literal(literal).is_some()
    }

    pub fn is_false(&self, literal: i8) -> bool
        ensures { result ≡ false_on (trail_of self.now) literal }
    {
        self.find_denial(literal).is_some()
    }

    // The level at which the literal is false, or 0.
    pub fn false_at(&self, literal: i8) -> u8
        ensures { result ≡ false_at (trail_of self.now) literal }
    {
        self.find_denial(literal).map_or(0, |e| e.level())
    }

    // The number of the clause that made the literal false.
    pub fn reason_of_denial(&self, literal: i8) -> Option<u8>
        ensures { MatchOption result (reason (entry_for (affirms (neg_ℤ literal)) (trail_of self.now)).content ≡ 0) (λ c. (0 < c) × (c ≡ reason (entry_for (affirms (neg_ℤ literal)) (trail_of self.now)).content)) }
    {
        self.find_denial(literal)?.reason().filter(|c| *c != 0)
    }

    // The values made the literal false.
    pub fn denial_was_read(&self, literal: i8) -> bool
        ensures { result ≡ was_read (entry_for (affirms (neg_ℤ literal)) (trail_of self.now)).content }
    {
        self.find_denial(literal).is_some_and(|e| e.was_read())
    }

    // How many choices there are.
    pub fn choices(&self) -> u8
        ensures count { result ≡ choices (trail_of self.now) }
        ensures bound { result ≤ 143 }
    {
        self.count
    }
}
