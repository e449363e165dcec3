// Atoms: a relation, entries of a measure and a coefficient each, and a constant.
ghost use Rattle.std.specs.Prelude.{◌≡◌, ℕ, ◌<◌, ◌≤◌, true, false, nat_eq, slice_index_or};
ghost use Rattle.fixedvec.specs.Items.{items_of};
ghost use Rattle.calculus.specs.Limits.{sized, most_numerator, most_denominator};
ghost use Rattle.calculus.specs.Lists.{every, some};
ghost use Rattle.rows.specs.Bounds.{most_size};
ghost use Rattle.rows.specs.Rows.{no_row, same_row, turned as turned_row, related_by, mentions as mentions_row, true_of};
ghost use Rattle.rows.specs.Linear.{equates as equates_row};

use crate::entries;
use crate::entries::{Entries, Flags, PLACES};
use rows::Relation;

// Which measures it mentions is kept beside its entries, so that no question goes through these.
#[derive(Clone, Copy)]
pub struct Atom {
    pub relation: Relation,
    pub mentioned: Flags,
    pub constant: i32,
    pub entries: Entries,
    ghost told: { (j : ℕ) → j < 17 → slice_index_or mentioned j false ≡ some (λ e. nat_eq e.measure j) (items_of entries.items) },
    ghost near: { sized most_size constant ≡ true },
}

// 0 < 0, which stands where there is no atom. A derive gives no value to a ghost field.
impl Default for Atom {
    ghost use Rattle.linear.specs.Views.{row};

    ghost is_default = { λ a. row a ≡ no_row };

    fn default() -> Self {
        Atom {
            relation: Relation::Less,
            mentioned: [false; PLACES],
            constant: 0,
            entries: Entries::default(),
        }
    }
}

impl Atom {
    ghost use Rattle.linear.specs.Views.{row};

    // All signs turned.
    pub fn turned(&self) -> Atom
        ensures { row result ≡ turned_row self.now.relation (row self.now) }
    {
        let entries = self.entries.turned();
        Atom {
            relation: self.relation,
            mentioned: entries.mentioned(),
            constant: -self.constant,
            entries,
        }
    }

    // Whether this is the other row in that relation.
    #[tactic(auto, using(rows::proofs::Alike::relations_alike, rows::proofs::Alike::entries_alike))]
    pub fn is_related(&self, relation: Relation, other: &Atom) -> bool
        ensures { result ≡ same_row (related_by relation (row other.now)) (row self.now) }
    {
        relation == self.relation
            && other.entries == self.entries
            && other.constant == self.constant
    }

    pub fn mentions(&self, measure: u8) -> bool
        ensures { result ≡ mentions_row measure (row self.now) }
    {
        match self.mentioned.get(usize::from(measure)) {
            Some(mentioned) => *mentioned,
            None => self.entries.mentions(measure),
        }
    }

    // Whether the row is true of these numerators over the denominator: the two arguments of a theory's questions. A struct
    // of both would stand in every theory.
    pub fn holds(&self, numerators: &[i32], denominator: u32) -> bool
        requires sized { every (sized most_numerator) numerators.now ≡ true }
        requires denominator { denominator ≤ most_denominator }
        ensures { result ≡ true_of (row self.now) numerators.now denominator }
    {
        let weight = self.entries.weighed(numerators);
        let bound = entries::product(self.constant, denominator as i32);
        self.relation.compares(weight, bound)
    }

    // Whether the row says that two measures are equal.
    pub fn equates(&self, i: u8, j: u8) -> bool
        ensures { result ≡ equates_row i j (row self.now) }
    {
        self.relation == Relation::Equal && self.constant == 0 && self.entries.opposed(i, j)
    }
}
