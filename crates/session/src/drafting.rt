// The draft: counts, declare, admit, rule and seal.
ghost use Rattle.std.specs.Prelude.{◌≡◌};
ghost use Rattle.calculus.specs.Calls.Call.{Counts as to_count, Declare as to_declare, Admit as to_admit, Rule as to_rule, Seal as to_seal};
ghost use Rattle.session.specs.Cores.{Steps, Spends};

use super::counts::MOST_NUMBERS;
use super::phase::{Kind, Phase};
use super::{Core, Permit};
use calculus::Theory;
use calculus::limits::MOST_DENOMINATOR;
use faults::{InputCause, SessionFault, StateCause};
use tables::clause::Clause;
use tables::literals::{are_proper, is_clause_like};

impl<T: Theory> Core<T> {
    // Takes the counts of switches and measures, and opens the draft.
    pub(crate) fn counts(&mut self, switches: u8, measures: u8) -> Result<Permit, SessionFault>
        ensures { Steps T.Theory.kind T.Theory.model self.old (to_count switches measures) result self.new }
    {
        if !self.phase.serves(Kind::Counts) {
            return Err(SessionFault::State(StateCause::WrongPhase));
        }
        if switches > MOST_NUMBERS {
            return Err(SessionFault::Input(InputCause::OutOfRange));
        }
        self.theory.counts(measures)?;
        self.counts = self.counts.with_switches(switches);
        self.phase = Phase::Drafting;
        Ok(Permit(switches))
    }

    // Hands a declaration to the theory.
    pub(crate) fn declare(&mut self, _permit: &Permit, body: &[u8]) -> Result<(), SessionFault>
        ensures { Steps T.Theory.kind T.Theory.model self.old (to_declare body.now) result self.new }
    {
        if !self.phase.serves(Kind::Declare) {
            return Err(SessionFault::State(StateCause::WrongPhase));
        }
        self.theory.declare(body)?;
        Ok(())
    }

    // Hands one atom more to the theory.
    pub(crate) fn admit(&mut self, body: &[u8]) -> Result<(), SessionFault>
        ensures { Steps T.Theory.kind T.Theory.model self.old (to_admit body.now) result self.new }
    {
        if !self.phase.serves(Kind::Admit) {
            return Err(SessionFault::State(StateCause::WrongPhase));
        }
        if !self.counts.has_room() {
            return Err(SessionFault::State(StateCause::Full));
        }
        self.theory.admit(body)?;
        self.counts = self.counts.with_atom();
        Ok(())
    }

    // Ends the draft with the denominator of all values, and opens the search.
    pub(crate) fn seal(
        &mut self,
        permit: Permit,
        denominator: u32,
    ) -> Result<(), (Permit, SessionFault)>
        ensures { Spends T.Theory.kind T.Theory.model self.old (to_seal denominator) permit result self.new }
    {
        if !self.phase.serves(Kind::Seal) {
            return Err((permit, SessionFault::State(StateCause::WrongPhase)));
        }
        if !(1..=MOST_DENOMINATOR).contains(&denominator) {
            return Err((permit, SessionFault::Input(InputCause::OutOfRange)));
        }
        self.counts = self.counts.with_denominator(denominator);
        self.phase = Phase::Searching;
        Ok(())
    }

    // Stores a clause that must be met. Its tests are those of a lemma: with the two behind one function, five goals of
    // theirs stayed open.
    pub(crate) fn rule(&mut self, _permit: &Permit, literals: &[i8]) -> Result<(), SessionFault>
        ensures { Steps T.Theory.kind T.Theory.model self.old (to_rule literals.now) result self.new }
    {
        if !self.phase.serves(Kind::Rule) {
            return Err(SessionFault::State(StateCause::WrongPhase));
        }
        if !self.store.has_room() {
            return Err(SessionFault::State(StateCause::Full));
        }
        if !are_proper(literals) {
            return Err(SessionFault::Input(InputCause::BadLiteral));
        }
        if !is_clause_like(literals) {
            return Err(SessionFault::Input(InputCause::BadClause));
        }
        if !self.counts.has_all(literals) {
            return Err(SessionFault::State(StateCause::Absent));
        }
        let Some(clause) = Clause::of(literals) else {
            return Err(SessionFault::Input(InputCause::BadClause));
        };
        self.store.push(clause, true);
        Ok(())
    }
}
