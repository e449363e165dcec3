// The claim of an arrangement.
ghost use Rattle.std.specs.Prelude.{◌≡◌, not, ◌||◌};
ghost use Rattle.calculus.specs.Lists.{every};
ghost use Rattle.calculus.specs.States.{meets};
ghost use Rattle.calculus.specs.Steps.{arranged};
ghost use Rattle.tables.specs.Tables.{store_of};
ghost use Rattle.session.specs.Cores.{view, Claims};

use super::Core;
use super::phase::{Kind, Phase};
use calculus::Theory;
use claims::arrangement::Arrangement;
use claims::{Claim, are_valued};
use faults::{SessionFault, StateCause};
use tables::clause::Clause;

impl<T: Theory> Core<T> {
    // The arrangement that the trail makes meets every rule.
    fn are_rules_met(&self) -> bool
        ensures { result ≡ every (λ r. not r.rule || meets T.Theory.kind (T.Theory.model self.now.theory) self.now.counts.switches (arranged T.Theory.kind (view T.Theory.kind T.Theory.model self.now)) r.literals) (store_of self.now.store) }
    {
        let claim = Claim {
            reading: self.reading(),
            trail: &self.trail,
        };
        claim.are_rules_met(&self.store)
    }

    // Closes as possible, and hands out the arrangement that the trail makes.
    pub(crate) fn claim(&mut self) -> Result<Arrangement, SessionFault>
        ensures { Claims T.Theory.kind T.Theory.model self.old result self.new }
    {
        if !self.phase.serves(Kind::Claim) {
            return Err(SessionFault::State(StateCause::WrongPhase));
        }
        if !are_valued(&self.theory, &self.trail) {
            return Err(SessionFault::State(StateCause::NoValue));
        }
        if !self.are_rules_met() {
            return Err(SessionFault::State(StateCause::RuleUnmet));
        }
        let arrangement = self.arrangement();
        self.theory
            .admits(arrangement.numerators(), self.counts.denominator())?;
        // it closes by two assignments, as concede does
        self.phase = Phase::Possible;
        self.analysed = Clause::empty();
        Ok(arrangement)
    }
}
