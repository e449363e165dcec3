// Tests on literals and on lists of them.
ghost use Rattle.std.specs.Prelude.{◌≡◌, true, false, MatchOption, ◌==◌, nat_eq};
ghost use Rattle.calculus.specs.Lists.{every, some};
ghost use Rattle.calculus.specs.Limits.{within};
ghost use Rattle.calculus.specs.Literals.{same, number, proper, distinct, clause_like, holds_literal};
ghost use Rattle.calculus.specs.Steps.{literal_on};

use crate::clause::MOST_LITERALS;
use calculus::limits;

// By hand, so that a clause ties `==` to the calculus' word.
pub fn is_same(a: i8, b: i8) -> bool
    ensures { result ≡ same a b }
{
    a == b
}

// Neither 0 nor -128, which has no denial.
pub fn is_proper(literal: i8) -> bool
    ensures { result ≡ proper literal }
{
    literal != 0 && literal != -128
}

pub fn is_on(literal: i8, n: u8) -> bool
    ensures { result ≡ (number literal == n) }
{
    literal.unsigned_abs() == n
}

// Its number is one of 1 to `most`.
pub fn is_within(literal: i8, most: usize) -> bool
    ensures { result ≡ within most (number literal) }
{
    limits::is_within(most, usize::from(literal.unsigned_abs()))
}

pub fn are_proper(literals: &[i8]) -> bool
    ensures { result ≡ every proper literals.now }
{
    literals.iter().all(|k| is_proper(*k))
}

// A line, as the like of it in theories, which do not stand on the tables.
pub fn are_within(literals: &[i8], most: usize) -> bool
    ensures { result ≡ every (λ l. within most (number l)) literals.now }
{
    literals.iter().all(|k| is_within(*k, most))
}

pub fn holds_literal(literals: &[i8], literal: i8) -> bool
    ensures { result ≡ holds_literal literal literals.now }
{
    literals.contains(&literal)
}

pub fn has_number(literals: &[i8], n: u8) -> bool
    ensures { result ≡ some (λ k. nat_eq (number k) n) literals.now }
{
    literals.iter().any(|k| is_on(*k, n))
}

// The first literal on this number.
pub fn literal_on(literals: &[i8], n: u8) -> Option<i8>
    ensures { MatchOption result (some (λ k. nat_eq (number k) n) literals.now ≡ false) (λ l. (some (λ k. nat_eq (number k) n) literals.now ≡ true) × (l ≡ literal_on n literals.now)) }
{
    literals.iter().find(|k| is_on(**k, n)).copied()
}

// No two of the literals are on one number.
fn are_distinct(literals: &[i8]) -> bool
    ensures { result ≡ distinct literals.now }
{
    match literals {
        [] => true,
        [first, rest @ ..] => !has_number(rest, first.unsigned_abs()) && are_distinct(rest),
    }
}

// At most 16 literals, on different numbers.
pub fn is_clause_like(literals: &[i8]) -> bool
    ensures { result ≡ clause_like literals.now }
{
    literals.len() <= MOST_LITERALS && are_distinct(literals)
}
