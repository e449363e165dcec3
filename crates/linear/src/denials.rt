// The denial of a literal, where it is a row, with a multiplier for it.
ghost use Rattle.std.specs.Prelude.{◌≡◌, ℕ, ◌+◌, ◌<◌, ◌≤◌, true, pos, ◌+ℤ◌, ◌*ℤ◌, slice_index_or, unsigned_abs};
ghost use Rattle.calculus.specs.Limits.{sized};
ghost use Rattle.rows.specs.Bounds.{most_size};
ghost use Rattle.rows.specs.Rows.{coefficient_of};
ghost use Rattle.rows.specs.Hints.{denied_row, allowed as may_take, strict as is_strict, coefficient_in, constant_in};
ghost use Rattle.linear.specs.Sizes.{most_sum, most_product, most_row, most_before};

use crate::atoms::Atom;
use crate::entries;
use crate::entries::Sums;
use rows::Relation;

// A row, or one with all signs turned, in another relation.
#[derive(Clone, Copy)]
pub enum Denial<'a> {
    Same(&'a Atom),
    Turned(Relation, &'a Atom),
}

impl<'a> Denial<'a> {
    ghost use Rattle.linear.specs.Views.{row};
    ghost use Rattle.linear.specs.Denials.{denied, denied_if};

    // What denies the atom, if it is a row: what is not < is turned ≤, and what is not ≤ is turned <.
    pub fn of(atom: &'a Atom) -> Option<Self>
        ensures { denied_if result ≡ denied_row atom.now.relation (row atom.now) }
    {
        match atom.relation {
            Relation::Less => Some(Denial::Turned(Relation::AtMost, atom)),
            Relation::AtMost => Some(Denial::Turned(Relation::Less, atom)),
            Relation::Equal => None,
        }
    }

    fn relation(&self) -> Relation
        ensures { result ≡ (denied self.now).relation }
    {
        match self {
            Denial::Same(atom) => atom.relation,
            Denial::Turned(relation, _) => *relation,
        }
    }

    fn constant(&self) -> i32
        ensures value { result ≡ (denied self.now).constant }
        ensures small { sized most_size result ≡ true }
    {
        match self {
            Denial::Same(atom) => atom.constant,
            Denial::Turned(_, atom) => -atom.constant,
        }
    }

    // Adds the coefficients times the factor, each to the sum of its measure.
    fn add_to(&self, factor: i32, sums: &mut Sums)
        requires factor { sized most_size factor ≡ true }
        requires room { (j : ℕ) → j < 17 → unsigned_abs (slice_index_or sums.old j (pos 0)) ≤ most_before }
        ensures sums { (j : ℕ) → j < 17 → slice_index_or sums.new j (pos 0) ≡ slice_index_or sums.old j (pos 0) +ℤ factor *ℤ coefficient_of j (denied self.now).entries }
        ensures small { (b : ℕ) → ((j : ℕ) → j < 17 → unsigned_abs (slice_index_or sums.old j (pos 0)) ≤ b) → (j : ℕ) → j < 17 → unsigned_abs (slice_index_or sums.new j (pos 0)) ≤ b + most_row }
    {
        match self {
            Denial::Same(atom) => atom.entries.add_to(factor, sums),
            Denial::Turned(_, atom) => atom.entries.add_to(-factor, sums),
        }
    }
}

// A multiplier and the denial that it is for.
#[derive(Clone, Copy)]
pub struct Summand<'a> {
    pub multiplier: i32,
    pub denial: Option<Denial<'a>>,
    ghost near: { sized most_size multiplier ≡ true },
}

// By `match`: with `map_or` and `is_some_and` the search did not prove `returns`, nor with a helper behind the closure.
impl Summand<'_> {
    ghost use Rattle.linear.specs.Denials.{denied_if};

    // Whether the denial may have this multiplier.
    #[tactic(auto, using(rows::proofs::Alike::relations_alike))]
    pub fn allowed(&self) -> bool
        ensures { result ≡ may_take (denied_if self.now.denial) self.now.multiplier }
    {
        match self.denial {
            None => self.multiplier == 0,
            Some(denial) => denial.relation() == Relation::Equal || self.multiplier >= 0,
        }
    }

    // Whether it is a positive multiple of a <.
    #[tactic(auto, using(rows::proofs::Alike::relations_alike))]
    pub fn strict(&self) -> bool
        ensures { result ≡ is_strict (denied_if self.now.denial) self.now.multiplier }
    {
        match self.denial {
            None => false,
            Some(denial) => denial.relation() == Relation::Less && self.multiplier > 0,
        }
    }

    // Adds the multiplier times the coefficients, each to the sum of its measure.
    pub fn add_to(&self, sums: &mut Sums)
        requires { (j : ℕ) → j < 17 → unsigned_abs (slice_index_or sums.old j (pos 0)) ≤ most_before }
        ensures sums { (j : ℕ) → j < 17 → slice_index_or sums.new j (pos 0) ≡ slice_index_or sums.old j (pos 0) +ℤ self.now.multiplier *ℤ coefficient_in j (denied_if self.now.denial) }
        ensures small { (b : ℕ) → ((j : ℕ) → j < 17 → unsigned_abs (slice_index_or sums.old j (pos 0)) ≤ b) → (j : ℕ) → j < 17 → unsigned_abs (slice_index_or sums.new j (pos 0)) ≤ b + most_row }
    {
        if let Some(denial) = self.denial {
            denial.add_to(self.multiplier, sums);
        }
    }

    // The multiplier times the constant.
    pub fn constant(&self) -> i64
        ensures value { result ≡ self.now.multiplier *ℤ constant_in (denied_if self.now.denial) }
        ensures small { unsigned_abs result ≤ most_product }
    {
        match self.denial {
            None => 0,
            Some(denial) => entries::product(self.multiplier, denial.constant()),
        }
    }
}
