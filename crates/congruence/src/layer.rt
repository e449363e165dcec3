ghost use Rattle.std.specs.Prelude.{◌≡◌, true, false, ◌∷◌, MatchOption};
ghost use Rattle.calculus.specs.Lists.{every};
ghost use Rattle.calculus.specs.Limits.{within};
ghost use Rattle.calculus.specs.Questions.{Moves};
ghost use Rattle.congruences.specs.Congruences.{congruence, own_kind, is_own, application_taken, raised_result};
ghost use Rattle.congruence.specs.Views.{layer_model};
ghost use Rattle.congruences.proofs.Lawfulness.{congruence_lawful};

use crate::application::Application;
use crate::applications::Applications;
use crate::matching::Reading;
use calculus::Theory;
use calculus::limits::{are_within_limits, is_within};
use faults::{InputCause, StateCause, TheoryFault};

const OWN_KIND: u8 = 3;

// The layer, with the theory below it.
#[derive(Drop)]
pub struct Congruence<T> {
    below: T,
    applications: Applications,
}

// What stands behind the kind of a declaration or a hint of this layer; none where it is of another kind.
fn own_part(bytes: &[u8]) -> Option<&[u8]>
    ensures { MatchOption result (is_own bytes.now ≡ false) (λ rest. bytes.now ≡ own_kind ∷ rest.now) }
{
    match bytes {
        [OWN_KIND, rest @ ..] => Some(rest),
        _ => None,
    }
}

// What the theory below says comes up through one more layer.
fn raise(r: Result<(), TheoryFault>) -> Result<(), TheoryFault>
    ensures { result ≡ raised_result r }
{
    r.map_err(TheoryFault::raise)
}

// Whether each byte is one of the measures.
fn are_measures(measures: u8, places: &[u8]) -> bool
    ensures { result ≡ every (within measures) places.now }
{
    places
        .iter()
        .all(|&p| is_within(usize::from(measures), usize::from(p)))
}

impl<T: Theory> Congruence<T> {
    // Takes an application: function, arity, arguments and result.
    fn declare_application(&mut self, rest: &[u8]) -> Result<(), TheoryFault>
        ensures { let old = layer_model T.Theory.kind (T.Theory.model self.old.below) self.old.applications in let new = layer_model T.Theory.kind (T.Theory.model self.new.below) self.new.applications in Moves (congruence T.Theory.kind) old (application_taken T.Theory.kind old rest.now) result new }
    {
        if !self.applications.has_room() {
            return Err(TheoryFault::State(StateCause::Full, 1));
        }
        let [function, arity, places @ ..] = rest else {
            return Err(TheoryFault::Input(InputCause::WrongLength, 1));
        };
        if places.len() != usize::from(*arity) + 1 {
            return Err(TheoryFault::Input(InputCause::WrongLength, 1));
        }
        if !are_measures(self.below.measures(), places) {
            return Err(TheoryFault::Input(InputCause::OutOfRange, 1));
        }
        let Some(application) = Application::read(*function, places) else {
            return Err(TheoryFault::Input(InputCause::OutOfRange, 1));
        };
        self.applications.rows.push(application);
        Ok(())
    }
}

impl<T: Theory> Theory for Congruence<T> {
    const MOST: u8 = T::MOST;

    ghost kind = { congruence T.Theory.kind };

    ghost model = { λ c. layer_model T.Theory.kind (T.Theory.model c.below) c.applications };

    ghost lawful = { congruence_lawful T.Theory.kind T.Theory.lawful };

    ghost few = { λ c. T.Theory.few c.below };

    fn begin() -> Self {
        Congruence {
            below: T::begin(),
            applications: Applications::new(),
        }
    }

    fn greatest() -> u8 {
        T::greatest()
    }

    fn counts(&mut self, measures: u8) -> Result<(), TheoryFault> {
        raise(self.below.counts(measures))
    }

    fn declare(&mut self, body: &[u8]) -> Result<(), TheoryFault> {
        match own_part(body) {
            Some(rest) => self.declare_application(rest),
            None => raise(self.below.declare(body)),
        }
    }

    fn admit(&mut self, body: &[u8]) -> Result<(), TheoryFault> {
        raise(self.below.admit(body))
    }

    fn measures(&self) -> u8 {
        self.below.measures()
    }

    fn atoms(&self) -> u8 {
        self.below.atoms()
    }

    fn mentions(&self, atom: u8, measure: u8) -> bool {
        self.below.mentions(atom, measure)
    }

    fn holds(&self, atom: u8, numerators: &[i32], denominator: u32) -> bool {
        self.below.holds(atom, numerators, denominator)
    }

    fn admits(&self, numerators: &[i32], denominator: u32) -> Result<(), TheoryFault> {
        if !are_within_limits(self.below.measures(), numerators, denominator) {
            return Err(TheoryFault::State(StateCause::NotAdmitted, 1));
        }
        raise(self.below.admits(numerators, denominator))?;
        if !self.applications.are_consistent(numerators) {
            return Err(TheoryFault::State(StateCause::NotAdmitted, 1));
        }
        Ok(())
    }

    fn equates(&self, atom: u8, i: u8, j: u8) -> bool {
        self.below.equates(atom, i, j)
    }

    fn vouches(&self, switches: u8, clause: &[i8], hint: &[u8]) -> Result<(), TheoryFault> {
        match own_part(hint) {
            Some(rest) => {
                let reading = Reading {
                    below: &self.below,
                    switches,
                    clause,
                };
                reading.vouch(&self.applications, rest)
            }
            None => raise(self.below.vouches(switches, clause, hint)),
        }
    }
}
