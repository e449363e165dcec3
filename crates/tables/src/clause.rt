ghost use Rattle.std.specs.Prelude.{◌≡◌, ◌≤◌, true, false, [], length, MatchOption, nat_eq};
ghost use Rattle.calculus.specs.Lists.{some};
ghost use Rattle.calculus.specs.Literals.{number, holds_literal};
ghost use Rattle.calculus.specs.Steps.{literal_on};
ghost use Rattle.tables.specs.Tables.{literals_of, Makes};

use crate::literals::{has_number, holds_literal, literal_on};
use fixedvec::FixedVec;

mod resolving;

pub const MOST_LITERALS: usize = 16;

// A clause of at most 16 literals.
#[derive(Clone, Copy, Default)]
pub struct Clause {
    literals: FixedVec<i8, MOST_LITERALS>,
}

impl Clause {
    // Without literals. The derived default has no clause that says so.
    pub fn empty() -> Clause
        ensures { literals_of result ≡ [] }
    {
        Clause {
            literals: FixedVec::new(),
        }
    }

    // The clause of these literals, unless they are more than 16: an error, as `try_from` wants one, would say no more.
    pub fn of(literals: &[i8]) -> Option<Clause>
        ensures { Makes literals.now result }
    {
        let literals = FixedVec::try_from(literals).ok()?;
        Some(Clause { literals })
    }

    // Its literals. What takes any slice has to ask that it is no longer.
    pub fn literals(&self) -> &[i8]
        ensures same { result.now ≡ literals_of self.now }
        ensures few { length result.now ≤ 16 }
    {
        self.literals.as_slice()
    }

    pub fn holds(&self, literal: i8) -> bool
        ensures { result ≡ holds_literal literal (literals_of self.now) }
    {
        holds_literal(self.literals(), literal)
    }

    pub fn has_number(&self, n: u8) -> bool
        ensures { result ≡ some (λ k. nat_eq (number k) n) (literals_of self.now) }
    {
        has_number(self.literals(), n)
    }

    // The literal on this number.
    pub fn literal_on(&self, n: u8) -> Option<i8>
        ensures { MatchOption result (some (λ k. nat_eq (number k) n) (literals_of self.now) ≡ false) (λ l. (some (λ k. nat_eq (number k) n) (literals_of self.now) ≡ true) × (l ≡ literal_on n (literals_of self.now))) }
    {
        literal_on(self.literals(), n)
    }
}
