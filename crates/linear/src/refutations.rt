// Whether the denials of a clause's literals, times the multipliers of a hint, refute one another.
ghost use Rattle.std.specs.Prelude.{◌≡◌, ℕ, ◌+◌, ◌<◌, ◌≤◌, true, ℤ, length, pos, None as none, slice_index_or, unsigned_abs};
ghost use Rattle.std.specs.List.{range_with_len};
ghost use Rattle.calculus.specs.Limits.{within};
ghost use Rattle.calculus.specs.Lists.{every, some};
ghost use Rattle.calculus.specs.Literals.{same, number};
ghost use Rattle.rows.specs.Rows.{total as total_of};
ghost use Rattle.rows.specs.Hints.{Part, allowed as may_take, strict as is_strict, column as column_of, constants as constants_of, refutes as refuted_by, denial as denial_in};
ghost use Rattle.linear.specs.Models.{table, Multiplied};
ghost use Rattle.linear.specs.Sizes.{most_product};

use crate::bodies;
use crate::clauses::Clause;
use crate::denials::{Denial, Summand};
use crate::entries::{PLACES, Sums};

// A clause with a hint that has one multiplier for each literal.
#[derive(Clone, Copy)]
pub struct Refutation<'a> {
    pub clause: Clause<'a>,
    pub hint: &'a [u8],
    ghost multiplied: { Multiplied clause.literals.now hint.now },
}

impl<'a> Refutation<'a> {
    ghost use Rattle.linear.specs.Denials.{denied_if};
    ghost use Rattle.linear.specs.Refutations.{part, parts_of};

    // The denial of a literal, where it is a row.
    fn denial(&self, literal: i8) -> Option<Denial<'a>>
        requires { within (self.now.clause.switches + length (table self.now.clause.linear.now).rows) (number literal) ≡ true }
        ensures { denied_if result ≡ denial_in (table self.now.clause.linear.now).rows self.now.clause.switches literal }
    {
        let atom = self.clause.atom(literal)?;
        if literal > 0 {
            Denial::of(atom)
        } else {
            Some(Denial::Same(atom))
        }
    }

    // The literal at a place with its multiplier.
    fn summand(&self, i: usize, literal: i8) -> Summand<'a>
        requires place { i < length self.now.clause.literals.now }
        requires literal { literal ≡ slice_index_or self.now.clause.literals.now i (pos 0) }
        ensures { part result ≡ slice_index_or (parts_of self.now) i (pos 0, none) }
    {
        Summand {
            multiplier: bodies::word(self.hint, 1 + 4 * i),
            denial: self.denial(literal),
        }
    }

    // Whether all multipliers are allowed.
    fn all_allowed(&self) -> bool
        ensures { result ≡ every (λ p. may_take p.1 p.0) (parts_of self.now) }
    {
        // a `for` loop here and in `some_strict`: in `enumerate` and `all` it was not proved that a closure may ask `summand`
        for (i, literal) in self.clause.literals.iter().enumerate() {
            if !self.summand(i, *literal).allowed() {
                return false;
            }
        }
        true
    }

    // Whether some multiplier of a < is positive.
    fn some_strict(&self) -> bool
        ensures { result ≡ some (λ p. is_strict p.1 p.0) (parts_of self.now) }
    {
        for (i, literal) in self.clause.literals.iter().enumerate() {
            if self.summand(i, *literal).strict() {
                return true;
            }
        }
        false
    }

    // What the terms of the summands add up to.
    fn total<F: Fn(&Summand<'_>) -> i64>(&self, term: &F) -> i128
        requires callable { F.IsAlwaysCallable term.now }
        requires small { (s : _) (x : ℤ) → F.post term.now s x → unsigned_abs x ≤ most_product }
        ensures { (f : Part → ℤ) → ((s : _) (x : ℤ) → F.post term.now s x → x ≡ f (part s.now)) → result ≡ total_of f (parts_of self.now) }
    {
        let mut sum: i128 = 0;
        for (i, literal) in self.clause.literals.iter().enumerate() {
            sum += i128::from(term(&self.summand(i, *literal)));
        }
        sum
    }

    // What the coefficients of each measure add up to: one pass through the rows.
    fn columns(&self) -> Sums
        ensures long { length result ≡ 17 }
        ensures sums { (j : ℕ) → j < 17 → slice_index_or result j (pos 0) ≡ column_of j (parts_of self.now) }
    {
        let mut sums = [0; PLACES];
        for (i, literal) in self.clause.literals.iter().enumerate() {
            self.summand(i, *literal).add_to(&mut sums);
        }
        sums
    }

    // What the constants add up to.
    fn constants(&self) -> i128
        ensures { result ≡ constants_of (parts_of self.now) }
    {
        self.total(&|summand: &Summand<'_>| summand.constant())
    }

    // Whether the coefficients of each measure add up to 0.
    fn columns_zero(&self) -> bool
        ensures { result ≡ every (λ j. same (column_of j (parts_of self.now)) (pos 0)) (range_with_len 1 (table self.now.clause.linear.now).measures) }
    {
        let columns = self.columns();
        let measures = usize::from(self.clause.linear.measure_count());
        columns[1..=measures].iter().all(|sum| *sum == 0)
    }

    // Whether the multipliers refute the denials.
    pub fn refutes(&self) -> bool
        ensures { result ≡ refuted_by (table self.now.clause.linear.now).measures (parts_of self.now) }
    {
        if !self.all_allowed() || !self.columns_zero() {
            return false;
        }
        let constant = self.constants();
        constant < 0 || constant == 0 && self.some_strict()
    }
}
