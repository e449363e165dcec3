ghost use Rattle.std.specs.Prelude.{◌≡◌, ◌≤◌, Bool, not, ◌&&◌, ℤ, length, neg_ℤ, filter};
ghost use Rattle.calculus.specs.Literals.{same, holds_literal};
ghost use Rattle.calculus.specs.Steps.{others, resolvent};
ghost use Rattle.tables.specs.Tables.{literals_of, Makes};

use super::Clause;

fn is_other(literal: i8, k: i8) -> bool
    ensures { result ≡ not (same k literal) }
{
    k != literal
}

impl Clause {
    // Not the denial of the literal, and not held yet.
    fn lacks(&self, literal: i8, k: i8) -> bool
        ensures { result ≡ (not (same k (neg_ℤ literal)) && not (holds_literal k (literals_of self.now))) }
    {
        i16::from(k) != -i16::from(literal) && !self.holds(k)
    }

    // The clause of those literals that pass the test, pushed one by one: `from_iter` wants an allocator.
    fn of_those<F: Fn(i8) -> bool>(literals: &[i8], test: F) -> Clause
        requires few { length literals.now ≤ 16 }
        requires callable { F.IsAlwaysCallable test }
        ensures { (p : ℤ → Bool) → ((k : ℤ) (b : Bool) → F.post test k b → b ≡ p k) → literals_of result ≡ filter p literals.now }
    {
        let mut clause = Clause::empty();
        for k in literals {
            if test(*k) {
                clause.literals.push(*k);
            }
        }
        clause
    }

    // The clause without the literal.
    fn without(&self, literal: i8) -> Clause
        ensures { literals_of result ≡ others literal (literals_of self.now) }
    {
        Clause::of_those(self.literals(), |k| is_other(literal, k))
    }

    // The literals of the reason but the denial of the literal, and but those that this clause holds.
    fn followers(&self, literal: i8, reason: &[i8]) -> Clause
        requires { length reason.now ≤ 16 }
        ensures { literals_of result ≡ filter (λ k. not (same k (neg_ℤ literal)) && not (holds_literal k (literals_of self.now))) reason.now }
    {
        Clause::of_those(reason, |k| self.lacks(literal, k))
    }

    // The resolvent with a reason for the denial of the literal, unless it has more than 16 literals.
    pub fn resolved(&self, literal: i8, reason: &[i8]) -> Option<Clause>
        requires { length reason.now ≤ 16 }
        ensures { Makes (resolvent literal (literals_of self.now) reason.now) result }
    {
        let mut resolvent = self.without(literal);
        let followers = resolvent.followers(literal, reason);
        resolvent
            .literals
            .try_extend_from_slice(followers.literals())
            .ok()?;
        Some(resolvent)
    }
}
