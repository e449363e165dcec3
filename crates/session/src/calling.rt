// The sixteen calls. Each is the call of the core, which answers and changes the state as the calculus does; so calls
// lead to the state after it too, and that state keeps the guarantees.
ghost use Rattle.std.specs.Prelude.{◌≡◌};
ghost use Rattle.calculus.specs.Calls.Call.{Counts as to_count, Declare as to_declare, Admit as to_admit, Rule as to_rule, Seal as to_seal};
ghost use Rattle.calculus.specs.Calls.Call.{Lemma as to_lemma, Choose as to_choose, Set as to_set, Propagate as to_propagate, Read as to_read};
ghost use Rattle.calculus.specs.Calls.Call.{Conflict as to_conflict, Resolve as to_resolve, Jump as to_jump, Concede as to_concede, Abandon as to_abandon};
ghost use Rattle.calculus.specs.Sound.{Guarantees};
ghost use Rattle.session.specs.Views.{view, Steps, Spends, Claims};

use super::{Conflict, Permit, Session};
use calculus::Theory;
use claims::arrangement::Arrangement;
use faults::SessionFault;

impl<T: Theory> Session<T> {
    // Takes the counts of switches and measures, and opens the draft.
    pub fn counts(&mut self, switches: u8, measures: u8) -> Result<Permit, SessionFault>
        ensures steps { Steps T.Theory.kind T.Theory.model self.old (to_count switches measures) result self.new }
        ensures sound { Guarantees T.Theory.kind (view T.Theory.kind T.Theory.model self.new) }
    {
        self.core.counts(switches, measures)
    }

    // Hands a declaration to the theory.
    pub fn declare(&mut self, permit: &Permit, body: &[u8]) -> Result<(), SessionFault>
        ensures steps { Steps T.Theory.kind T.Theory.model self.old (to_declare body.now) result self.new }
        ensures sound { Guarantees T.Theory.kind (view T.Theory.kind T.Theory.model self.new) }
    {
        self.core.declare(permit, body)
    }

    // Hands one atom more to the theory.
    pub fn admit(&mut self, body: &[u8]) -> Result<(), SessionFault>
        ensures steps { Steps T.Theory.kind T.Theory.model self.old (to_admit body.now) result self.new }
        ensures sound { Guarantees T.Theory.kind (view T.Theory.kind T.Theory.model self.new) }
    {
        self.core.admit(body)
    }

    // Stores a clause that must be met.
    pub fn rule(&mut self, permit: &Permit, literals: &[i8]) -> Result<(), SessionFault>
        ensures steps { Steps T.Theory.kind T.Theory.model self.old (to_rule literals.now) result self.new }
        ensures sound { Guarantees T.Theory.kind (view T.Theory.kind T.Theory.model self.new) }
    {
        self.core.rule(permit, literals)
    }

    // Ends the draft with the denominator of all values, and opens the search.
    pub fn seal(&mut self, permit: Permit, denominator: u32) -> Result<(), (Permit, SessionFault)>
        ensures steps { Spends T.Theory.kind T.Theory.model self.old (to_seal denominator) permit result self.new }
        ensures sound { Guarantees T.Theory.kind (view T.Theory.kind T.Theory.model self.new) }
    {
        self.core.seal(permit, denominator)
    }

    // Stores a clause that the theory vouches for.
    pub fn lemma(&mut self, literals: &[i8], hint: &[u8]) -> Result<(), SessionFault>
        ensures steps { Steps T.Theory.kind T.Theory.model self.old (to_lemma literals.now hint.now) result self.new }
        ensures sound { Guarantees T.Theory.kind (view T.Theory.kind T.Theory.model self.new) }
    {
        self.core.lemma(literals, hint)
    }

    // Enters a literal as a decision.
    pub fn choose(&mut self, literal: i8) -> Result<(), SessionFault>
        ensures steps { Steps T.Theory.kind T.Theory.model self.old (to_choose literal) result self.new }
        ensures sound { Guarantees T.Theory.kind (view T.Theory.kind T.Theory.model self.new) }
    {
        self.core.choose(literal)
    }

    // Enters the value of a measure, as a decision.
    pub fn set(&mut self, measure: u8, numerator: i32) -> Result<(), SessionFault>
        ensures steps { Steps T.Theory.kind T.Theory.model self.old (to_set measure numerator) result self.new }
        ensures sound { Guarantees T.Theory.kind (view T.Theory.kind T.Theory.model self.new) }
    {
        self.core.set(measure, numerator)
    }

    // Enters a literal that a clause forces.
    pub fn propagate(&mut self, clause: u8, literal: i8) -> Result<(), SessionFault>
        ensures steps { Steps T.Theory.kind T.Theory.model self.old (to_propagate clause literal) result self.new }
        ensures sound { Guarantees T.Theory.kind (view T.Theory.kind T.Theory.model self.new) }
    {
        self.core.propagate(clause, literal)
    }

    // Enters an atom as the values make it.
    pub fn read(&mut self, number: u8) -> Result<(), SessionFault>
        ensures steps { Steps T.Theory.kind T.Theory.model self.old (to_read number) result self.new }
        ensures sound { Guarantees T.Theory.kind (view T.Theory.kind T.Theory.model self.new) }
    {
        self.core.read(number)
    }

    // Opens the analysis of a clause all of whose literals are false.
    pub fn conflict(&mut self, clause: u8) -> Result<Conflict, SessionFault>
        ensures steps { Steps T.Theory.kind T.Theory.model self.old (to_conflict clause) result self.new }
        ensures sound { Guarantees T.Theory.kind (view T.Theory.kind T.Theory.model self.new) }
    {
        self.core.conflict(clause)
    }

    // Replaces the literal on a number by the reason that made it false.
    pub fn resolve(&mut self, conflict: &Conflict, n: u8) -> Result<(), SessionFault>
        ensures steps { Steps T.Theory.kind T.Theory.model self.old (to_resolve n) result self.new }
        ensures sound { Guarantees T.Theory.kind (view T.Theory.kind T.Theory.model self.new) }
    {
        self.core.resolve(conflict, n)
    }

    // Stores the analysed clause and goes back: to where it forces the literal, or, if the values made it false, to the
    // level below, where the literal is chosen.
    pub fn jump(&mut self, conflict: Conflict, literal: i8) -> Result<(), (Conflict, SessionFault)>
        ensures steps { Spends T.Theory.kind T.Theory.model self.old (to_jump literal) conflict result self.new }
        ensures sound { Guarantees T.Theory.kind (view T.Theory.kind T.Theory.model self.new) }
    {
        self.core.jump(conflict, literal)
    }

    // Closes as impossible, where the clause is false without any choice.
    pub fn concede(&mut self, conflict: Conflict) -> Result<(), (Conflict, SessionFault)>
        ensures steps { Spends T.Theory.kind T.Theory.model self.old to_concede conflict result self.new }
        ensures sound { Guarantees T.Theory.kind (view T.Theory.kind T.Theory.model self.new) }
    {
        self.core.concede(conflict)
    }

    // Closes as possible, and hands out the arrangement that the trail makes.
    pub fn claim(&mut self) -> Result<Arrangement, SessionFault>
        ensures steps { Claims T.Theory.kind T.Theory.model self.old result self.new }
        ensures sound { Guarantees T.Theory.kind (view T.Theory.kind T.Theory.model self.new) }
    {
        self.core.claim()
    }

    // Closes without a verdict, where no conflict is held.
    pub fn abandon(&mut self) -> Result<(), SessionFault>
        ensures steps { Steps T.Theory.kind T.Theory.model self.old to_abandon result self.new }
        ensures sound { Guarantees T.Theory.kind (view T.Theory.kind T.Theory.model self.new) }
    {
        self.core.abandon()
    }

    // Closes without a verdict, and spends the conflict.
    pub fn abandon_conflict(&mut self, conflict: Conflict) -> Result<(), (Conflict, SessionFault)>
        ensures steps { Spends T.Theory.kind T.Theory.model self.old to_abandon conflict result self.new }
        ensures sound { Guarantees T.Theory.kind (view T.Theory.kind T.Theory.model self.new) }
    {
        self.core.abandon_conflict(conflict)
    }
}
