// What a claim needs: which rules the values on a trail meet, and the arrangement that the trail makes.
#![tactic(auto)]

ghost use Rattle.std.specs.Prelude.{◌≡◌, ℕ, Bool, true, not, ◌&&◌, ◌||◌, ℤ, pos, nat_lt};
ghost use Rattle.std.specs.List.{range_with_len};
ghost use Rattle.calculus.specs.Lists.{every};
ghost use Rattle.calculus.specs.Literals.{signed};
ghost use Rattle.calculus.specs.Trails.{on_trail, valued};
ghost use Rattle.calculus.specs.States.{holds, meets};
ghost use Rattle.tables.specs.Tables.{trail_of, stored_of, store_of};
ghost use Rattle.claims.specs.Arranging.{arrangement};

use calculus::Theory;
use readings::Reading;
use tables::store::{Row, Store};
use tables::trail::Trail;

pub mod arrangement;

// All measures have values.
pub fn are_valued<T: Theory>(theory: &T, trail: &Trail) -> bool
    ensures { result ≡ every (λ j. valued j (trail_of trail.now)) (range_with_len 1 (T.Theory.kind.measures (T.Theory.model theory.now))) }
{
    let measures = theory.measures();
    (1..measures + 1).all(|j| trail.is_valued(j))
}

// The literal is true where the numbers that the trail affirms are.
fn is_affirmed(trail: &Trail, literal: i8) -> bool
    ensures { result ≡ signed literal (λ n. nat_lt 0 n && on_trail (pos n) (trail_of trail.now)) }
{
    if literal < 0 {
        !trail.is_false(literal)
    } else {
        0 < literal && trail.affirms(literal)
    }
}

// A trail, read as an arrangement: a switch that it does not affirm counts as no.
#[derive(Drop)]
pub struct Claim<'a, T> {
    pub reading: Reading<'a, T>,
    pub trail: &'a Trail,
}

impl<T: Theory> Claim<'_, T> {
    // The literal is true in the arrangement that the trail makes. A word for that arrangement would stand between the
    // reader and the definition, here and in the three below.
    fn is_literal_met(&self, literal: i8) -> bool
        ensures { result ≡ signed literal (holds T.Theory.kind (T.Theory.model self.now.reading.atoms.theory.now) self.now.reading.atoms.switches (arrangement T.Theory.kind (T.Theory.model self.now.reading.atoms.theory.now) self.now.reading.atoms.switches self.now.reading.denominator (trail_of self.now.trail.now))) }
    {
        if literal.unsigned_abs() <= self.reading.atoms.switches {
            is_affirmed(self.trail, literal)
        } else {
            self.reading.is_true(self.trail, literal)
        }
    }

    // The arrangement that the trail makes meets the clause.
    fn is_met(&self, clause: &[i8]) -> bool
        ensures { result ≡ meets T.Theory.kind (T.Theory.model self.now.reading.atoms.theory.now) self.now.reading.atoms.switches (arrangement T.Theory.kind (T.Theory.model self.now.reading.atoms.theory.now) self.now.reading.atoms.switches self.now.reading.denominator (trail_of self.now.trail.now)) clause.now }
    {
        clause.iter().any(|k| self.is_literal_met(*k))
    }

    // The row is no rule, or its clause is met.
    fn is_row_met(&self, row: &Row) -> bool
        ensures { result ≡ (not (stored_of row.now).rule || meets T.Theory.kind (T.Theory.model self.now.reading.atoms.theory.now) self.now.reading.atoms.switches (arrangement T.Theory.kind (T.Theory.model self.now.reading.atoms.theory.now) self.now.reading.atoms.switches self.now.reading.denominator (trail_of self.now.trail.now)) (stored_of row.now).literals) }
    {
        !row.is_rule() || self.is_met(row.literals())
    }

    // The arrangement that the trail makes meets every rule of the store.
    pub fn are_rules_met(&self, store: &Store) -> bool
        ensures { result ≡ every (λ x. not x.rule || meets T.Theory.kind (T.Theory.model self.now.reading.atoms.theory.now) self.now.reading.atoms.switches (arrangement T.Theory.kind (T.Theory.model self.now.reading.atoms.theory.now) self.now.reading.atoms.switches self.now.reading.denominator (trail_of self.now.trail.now)) x.literals) (store_of store.now) }
    {
        store.rows().iter().all(|row| self.is_row_met(row))
    }
}
