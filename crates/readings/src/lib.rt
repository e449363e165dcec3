// What the values on a trail make of the atoms of a theory. Numbers up to the count of switches are switches, and
// those behind them the atoms of the theory.
#![tactic(auto)]

ghost use Rattle.std.specs.Prelude.{◌≡◌, ℕ, ◌-◌, Bool, true, not, ◌&&◌, ◌||◌, List, ℤ, filter, if◌then◌else◌};
ghost use Rattle.std.specs.List.{range_with_len};
ghost use Rattle.calculus.specs.Lists.{every, highest};
ghost use Rattle.calculus.specs.Limits.{most_denominator, within};
ghost use Rattle.calculus.specs.Literals.{signed};
ghost use Rattle.calculus.specs.Questions.{in_limits, says_mentioned};
ghost use Rattle.calculus.specs.Trails.{Entry as Trailed, entry_for, values, valued, numerators as numerators_of, readable, reading_level, by_values, stays_true};
ghost use Rattle.tables.specs.Views.{entry_of, entries_of};
ghost use Rattle.tables.specs.Tables.{trail_of};
ghost use Rattle.readings.specs.Valuing.{JustValued};

use calculus::Theory;
use tables::entry::Entry;
use tables::trail::Trail;

// The atoms of a theory, under their numbers behind the switches.
#[derive(Drop)]
pub struct Atoms<'a, T> {
    pub theory: &'a T,
    pub switches: u8,
}

// The atoms of a theory, with the denominator of all values.
#[derive(Drop)]
pub struct Reading<'a, T> {
    pub atoms: Atoms<'a, T>,
    pub denominator: u32,
    ghost divides: { within most_denominator denominator ≡ true },
}

impl<T: Theory> Atoms<'_, T> {
    // All measures that the atom mentions have values.
    fn are_settled(&self, trail: &Trail, atom: u8) -> bool
        ensures { result ≡ every (λ j. not (T.Theory.kind.mentioned (T.Theory.model self.now.theory.now) atom j) || valued j (trail_of trail.now)) (range_with_len 1 (T.Theory.kind.measures (T.Theory.model self.now.theory.now))) }
    {
        let measures = self.theory.measures();
        (1..measures + 1).all(|j| !self.theory.mentions(atom, j) || trail.is_valued(j))
    }

    // The number is an atom, and all measures that it mentions have values.
    pub fn is_readable(&self, trail: &Trail, number: u8) -> bool
        ensures { result ≡ readable T.Theory.kind (T.Theory.model self.now.theory.now) self.now.switches (trail_of trail.now) number }
    {
        self.switches < number && self.are_settled(trail, number.saturating_sub(self.switches))
    }

    // The atom mentions none of these measures. Where they are all that have no value, that says that all that it mentions
    // have one.
    fn mentions_none(&self, unvalued: &[u8], atom: u8) -> bool
        ensures { (t : List Trailed) → unvalued.now ≡ filter (λ j. not (valued j t)) (range_with_len 1 (T.Theory.kind.measures (T.Theory.model self.now.theory.now))) → result ≡ every (λ j. not (T.Theory.kind.mentioned (T.Theory.model self.now.theory.now) atom j) || valued j t) (range_with_len 1 (T.Theory.kind.measures (T.Theory.model self.now.theory.now))) }
    {
        unvalued.iter().all(|j| !self.theory.mentions(atom, *j))
    }

    // The number is an atom that mentions the measure and none of the others: it is readable, where the others are all that
    // have no value.
    fn is_readable_by(&self, measure: u8, unvalued: &[u8], number: u8) -> bool
        ensures { (t : List Trailed) → unvalued.now ≡ filter (λ j. not (valued j t)) (range_with_len 1 (T.Theory.kind.measures (T.Theory.model self.now.theory.now))) → result ≡ (says_mentioned T.Theory.kind (T.Theory.model self.now.theory.now) (number - self.now.switches) measure && readable T.Theory.kind (T.Theory.model self.now.theory.now) self.now.switches t number) }
    {
        let atom = number.saturating_sub(self.switches);
        self.theory.mentions(atom, measure)
            && self.switches < number
            && self.mentions_none(unvalued, atom)
    }

    // The level of the measure's value, where the atom mentions it; else 0.
    fn level_of(&self, trail: &Trail, atom: u8, measure: u8) -> u8
        ensures { result ≡ (if says_mentioned T.Theory.kind (T.Theory.model self.now.theory.now) atom measure then (entry_for (values measure) (trail_of trail.now)).level else 0) }
    {
        if self.theory.mentions(atom, measure) {
            trail.value_level(measure)
        } else {
            0
        }
    }

    // The highest level of the values of the measures that the number mentions, or 0.
    pub fn reading_level(&self, trail: &Trail, number: u8) -> u8
        ensures { result ≡ reading_level T.Theory.kind (T.Theory.model self.now.theory.now) self.now.switches (trail_of trail.now) number }
    {
        let atom = number.saturating_sub(self.switches);
        let measures = self.theory.measures();
        (1..measures + 1).fold(0, |top, j| top.max(self.level_of(trail, atom, j)))
    }
}

impl<T: Theory> Reading<'_, T> {
    // The atom is true of these numerators.
    fn is_atom_true(&self, numerators: &[i32], atom: u8) -> bool
        ensures { in_limits (T.Theory.kind.measures (T.Theory.model self.now.atoms.theory.now)) numerators.now self.now.denominator ≡ true → result ≡ T.Theory.kind.truth (T.Theory.model self.now.atoms.theory.now) atom numerators.now self.now.denominator }
    {
        self.atoms.theory.holds(atom, numerators, self.denominator)
    }

    // These numerators make the literal true.
    fn is_true_of(&self, numerators: &[i32], literal: i8) -> bool
        ensures { in_limits (T.Theory.kind.measures (T.Theory.model self.now.atoms.theory.now)) numerators.now self.now.denominator ≡ true → result ≡ signed literal (λ n. T.Theory.kind.truth (T.Theory.model self.now.atoms.theory.now) (n - self.now.atoms.switches) numerators.now self.now.denominator) }
    {
        let atom = literal.unsigned_abs().saturating_sub(self.atoms.switches);
        let is_atom = self.is_atom_true(numerators, atom);
        if literal < 0 { !is_atom } else { is_atom }
    }

    // The values make the literal true.
    pub fn is_true(&self, trail: &Trail, literal: i8) -> bool
        ensures { result ≡ by_values T.Theory.kind (T.Theory.model self.now.atoms.theory.now) self.now.atoms.switches self.now.denominator (trail_of trail.now) literal }
    {
        let numerators = trail.numerators(self.atoms.theory.measures());
        self.is_true_of(numerators, literal)
    }

    // Where the measure has just got its value, these are all measures that have none, and the numerators are those of now: a
    // literal that becomes readable is true. Only one whose atom mentions the measure does.
    fn stays_true(&self, measure: u8, unvalued: &[u8], numerators: &[i32], entry: Entry) -> bool
        ensures { (t u : List Trailed) → JustValued measure t u → within (T.Theory.kind.measures (T.Theory.model self.now.atoms.theory.now)) measure ≡ true → unvalued.now ≡ filter (λ j. not (valued j u)) (range_with_len 1 (T.Theory.kind.measures (T.Theory.model self.now.atoms.theory.now))) → numerators.now ≡ numerators_of T.Theory.kind (T.Theory.model self.now.atoms.theory.now) u → in_limits (T.Theory.kind.measures (T.Theory.model self.now.atoms.theory.now)) numerators.now self.now.denominator ≡ true → result ≡ stays_true T.Theory.kind (T.Theory.model self.now.atoms.theory.now) self.now.atoms.switches self.now.denominator t u (entry_of entry).content }
    {
        match entry {
            Entry::Value { .. } => true,
            Entry::Literal { literal, .. } => {
                let number = literal.unsigned_abs();
                !self.atoms.is_readable_by(measure, unvalued, number)
                    || self.is_true_of(numerators, literal)
            }
        }
    }

    // Where the measure has just got its value: every literal of the entries before that becomes readable is true. What has no
    // value, and the numerators, are asked once for all of them.
    pub fn bears(&self, measure: u8, old: &[Entry], new: &Trail) -> bool
        ensures { JustValued measure (entries_of old.now) (trail_of new.now) → within (T.Theory.kind.measures (T.Theory.model self.now.atoms.theory.now)) measure ≡ true → result ≡ every (λ e. stays_true T.Theory.kind (T.Theory.model self.now.atoms.theory.now) self.now.atoms.switches self.now.denominator (entries_of old.now) (trail_of new.now) e.content) (entries_of old.now) }
    {
        let measures = self.atoms.theory.measures();
        let unvalued_now = new.unvalued(measures);
        let unvalued = unvalued_now.as_slice();
        let numerators = new.numerators(measures);
        old.iter()
            .all(|e| self.stays_true(measure, unvalued, numerators, *e))
    }
}
