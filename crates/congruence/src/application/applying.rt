ghost use Rattle.std.specs.Prelude.{◌≡◌, ℕ, ◌+◌, ◌-◌, ◌≤◌, Bool, true, false, cond, not, ◌&&◌, ◌||◌, length, take, MatchOption, slice_index};
ghost use Rattle.calculus.specs.Limits.{within};
ghost use Rattle.congruences.specs.Applications.{Application as Applied, most_arguments, alike, at_each_place, equal_at, agree};
ghost use Rattle.congruence.specs.Views.{application_of};

use super::Application;
use crate::places::holds_at_each_place;
use arrayvec::ArrayVec;
use calculus::limits::value_at;

impl Application {
    // The application with these arguments and then this result in `places`; none where there are not 2 to 4 of them.
    pub fn read(function: u8, places: &[u8]) -> Option<Application>
        ensures { MatchOption result (within most_arguments (length places.now - 1) ≡ false) (λ a. (within most_arguments (length places.now - 1) ≡ true) × (application_of a ≡ record { function = function; arguments = take (length places.now - 1) places.now; result = slice_index places.now (length places.now - 1) })) }
    {
        let (result, arguments) = places.split_last()?;
        if arguments.is_empty() {
            return None;
        }
        let arguments = ArrayVec::try_from(arguments).ok()?;
        Some(Application {
            function,
            arguments,
            result: *result,
        })
    }

    pub fn arguments(&self) -> &[u8]
        ensures { result.now ≡ (application_of self.now).arguments }
    {
        self.arguments.as_slice()
    }

    pub fn result(&self) -> u8
        ensures { result ≡ (application_of self.now).result }
    {
        self.result
    }

    // Function and arity match.
    pub fn is_alike(&self, other: &Application) -> bool
        ensures { result ≡ alike (application_of self.now) (application_of other.now) }
    {
        self.function == other.function && self.arguments.len() == other.arguments.len()
    }
}

pub fn is_equal(numerators: &[i32], i: u8, j: u8) -> bool
    ensures { result ≡ equal_at numerators.now i j }
{
    value_at(numerators, i) == value_at(numerators, j)
}

// Whether the measures are equal at each place.
pub fn all_equal(numerators: &[i32], left: &[u8], right: &[u8]) -> bool
    ensures { result ≡ at_each_place (equal_at numerators.now) left.now right.now }
{
    holds_at_each_place(left, right, |i, j| is_equal(numerators, i, j))
}

// Alike applications with equal arguments have equal results.
pub fn do_agree(numerators: &[i32], p: &Application, q: &Application) -> bool
    ensures { result ≡ agree numerators.now (application_of p.now) (application_of q.now) }
{
    let matched = p.is_alike(q) && all_equal(numerators, p.arguments(), q.arguments());
    !matched || is_equal(numerators, p.result(), q.result())
}
