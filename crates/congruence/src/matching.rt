// What a clause says of measures that are equal, by the theory below.
ghost use Rattle.std.specs.Prelude.{◌≡◌, ◌-◌, Bool, true, false, ◌&&◌, ◌||◌, [], ◌∷◌, ◌==◌, nat_lt};
ghost use Rattle.calculus.specs.Lists.{some};
ghost use Rattle.calculus.specs.Literals.{number};
ghost use Rattle.calculus.specs.Kinds.{all_there};
ghost use Rattle.congruences.specs.Applications.{at_each_place};
ghost use Rattle.congruences.specs.Congruences.{affirms_equal, denies_equal, congruent, matched};
ghost use Rattle.congruence.specs.Views.{application_of, layer_model};

use crate::application::Application;
use crate::applications::Applications;
use crate::places::holds_at_each_place;
use calculus::Theory;
use calculus::limits::is_within;
use faults::{InputCause, StateCause, TheoryFault};

// A clause, in which the numbers up to `switches` are switches and those above them atoms of the theory below.
#[derive(Drop)]
pub struct Reading<'a, T> {
    pub below: &'a T,
    pub switches: u8,
    pub clause: &'a [i8],
}

impl<T: Theory> Reading<'_, T> {
    // The literal is on an atom that equates the two measures.
    fn equates(&self, literal: i8, i: u8, j: u8) -> bool
        ensures { result ≡ (nat_lt self.now.switches (number literal) && T.Theory.kind.equated (T.Theory.model self.now.below.now) (number literal - self.now.switches) i j) }
    {
        let number = literal.unsigned_abs();
        number > self.switches && self.below.equates(number - self.switches, i, j)
    }

    // The clause affirms an atom that equates the two measures.
    fn affirms(&self, i: u8, j: u8) -> bool
        ensures { result ≡ some (affirms_equal T.Theory.kind (T.Theory.model self.now.below.now) self.now.switches i j) self.now.clause.now }
    {
        self.clause.iter().any(|&l| l >= 0 && self.equates(l, i, j))
    }

    // The clause denies an atom that equates the two measures.
    fn denies(&self, i: u8, j: u8) -> bool
        ensures { result ≡ some (denies_equal T.Theory.kind (T.Theory.model self.now.below.now) self.now.switches i j) self.now.clause.now }
    {
        self.clause.iter().any(|&l| l < 0 && self.equates(l, i, j))
    }

    // At each place the measures are the same, or the clause denies that they are equal.
    fn places_match(&self, left: &[u8], right: &[u8]) -> bool
        ensures { result ≡ at_each_place (λ i j. (i == j) || some (denies_equal T.Theory.kind (T.Theory.model self.now.below.now) self.now.switches i j) self.now.clause.now) left.now right.now }
    {
        holds_at_each_place(left, right, |i, j| i == j || self.denies(i, j))
    }

    // Whether every literal is on a switch or on an atom of the theory below: a line, as the like of it in linear and in
    // tables.
    fn is_there(&self) -> bool
        ensures { result ≡ all_there T.Theory.kind (T.Theory.model self.now.below.now) self.now.switches self.now.clause.now }
    {
        let most = usize::from(self.switches) + usize::from(self.below.atoms());
        self.clause
            .iter()
            .all(|l| is_within(most, usize::from(l.unsigned_abs())))
    }

    // The clause matches two alike applications: at each place whose arguments differ it denies that they are equal, and it
    // affirms that the results are.
    fn is_congruent(&self, p: &Application, q: &Application) -> bool
        ensures { result ≡ congruent T.Theory.kind (T.Theory.model self.now.below.now) self.now.switches self.now.clause.now (application_of p.now) (application_of q.now) }
    {
        p.is_alike(q)
            && self.places_match(p.arguments(), q.arguments())
            && self.affirms(p.result(), q.result())
    }

    // All that the clause names is there, and it matches the two applications.
    fn is_matched(&self, p: &Application, q: &Application) -> bool
        ensures { let m = T.Theory.model self.now.below.now in result ≡ (all_there T.Theory.kind m self.now.switches self.now.clause.now && congruent T.Theory.kind m self.now.switches self.now.clause.now (application_of p.now) (application_of q.now)) }
    {
        self.is_there() && self.is_congruent(p, q)
    }

    // Vouches for the clause by the applications of these numbers.
    fn vouch_by(&self, applications: &Applications, a: u8, b: u8) -> Result<(), TheoryFault>
        ensures { result ≡ matched T.Theory.kind (layer_model T.Theory.kind (T.Theory.model self.now.below.now) applications.now) self.now.switches self.now.clause.now (a ∷ b ∷ []) }
    {
        let (Some(p), Some(q)) = (applications.get(a), applications.get(b)) else {
            return Err(TheoryFault::Input(InputCause::OutOfRange, 1));
        };
        if !self.is_matched(p, q) {
            return Err(TheoryFault::State(StateCause::NotVouched, 1));
        }
        Ok(())
    }

    // Vouches for the clause by two applications, named behind the hint's kind.
    pub fn vouch(&self, applications: &Applications, rest: &[u8]) -> Result<(), TheoryFault>
        ensures { result ≡ matched T.Theory.kind (layer_model T.Theory.kind (T.Theory.model self.now.below.now) applications.now) self.now.switches self.now.clause.now rest.now }
    {
        match rest {
            [a, b] => self.vouch_by(applications, *a, *b),
            _ => Err(TheoryFault::Input(InputCause::WrongLength, 1)),
        }
    }
}
