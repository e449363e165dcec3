// Conflict analysis: conflict, resolve, jump and concede; and abandon.
ghost use Rattle.std.specs.Prelude.{◌≡◌, ◌<◌, Bool, true, ◌&&◌, ◌==◌, nat_lt};
ghost use Rattle.calculus.specs.Calls.Call.{Conflict as to_conflict, Resolve as to_resolve, Jump as to_jump, Concede as to_concede, Abandon as to_abandon};
ghost use Rattle.calculus.specs.Literals.{proper};
ghost use Rattle.calculus.specs.Trails.{false_at};
ghost use Rattle.calculus.specs.Steps.{has_room, resumed, forced, split};
ghost use Rattle.tables.specs.Tables.{trail_of};
ghost use Rattle.session.specs.Cores.{view, Steps, Spends};
ghost use Rattle.session.specs.Replies.{answer_of, back_of};

use super::phase::{Kind, Phase};
use super::{Conflict, Core};
use calculus::Theory;
use faults::{InputCause, SessionFault, StateCause};
use std::mem;
use tables::clause::Clause;
use tables::entry::{Entry, Origin};
use tables::literals::is_proper;

impl<T: Theory> Core<T> {
    // Opens the analysis of a clause all of whose literals are false.
    pub(crate) fn conflict(&mut self, clause: u8) -> Result<Conflict, SessionFault>
        ensures { Steps T.Theory.kind T.Theory.model self.old (to_conflict clause) result self.new }
    {
        if !self.phase.serves(Kind::Conflict) {
            return Err(SessionFault::State(StateCause::WrongPhase));
        }
        if !self.store.has(clause) {
            return Err(SessionFault::State(StateCause::Absent));
        }
        let literals = self.store.literals(clause);
        if !self.trail.all_false(literals) {
            return Err(SessionFault::State(StateCause::NotFalse));
        }
        let Some(analysed) = Clause::of(literals) else {
            return Err(SessionFault::State(StateCause::NotFalse));
        };
        self.analysed = analysed;
        self.phase = Phase::Analysing;
        Ok(Conflict(clause))
    }

    // Replaces the literal on a number by the reason that made it false.
    pub(crate) fn resolve(&mut self, _conflict: &Conflict, n: u8) -> Result<(), SessionFault>
        ensures { Steps T.Theory.kind T.Theory.model self.old (to_resolve n) result self.new }
    {
        if !self.phase.serves(Kind::Resolve) {
            return Err(SessionFault::State(StateCause::WrongPhase));
        }
        if !self.counts.has(n) {
            return Err(SessionFault::State(StateCause::Absent));
        }
        let Some(literal) = self.analysed.literal_on(n) else {
            return Err(SessionFault::State(StateCause::NotResolvable));
        };
        let Some(reason) = self.trail.reason_of_denial(literal) else {
            return Err(SessionFault::State(StateCause::NotResolvable));
        };
        let because = self.store.literals(reason);
        let Some(resolved) = self.analysed.resolved(literal, because) else {
            return Err(SessionFault::State(StateCause::ResolventTooLong));
        };
        self.analysed = resolved;
        Ok(())
    }

    // Stores the analysed clause and goes back: to where it forces the literal, or, if the values made it false, to the
    // level below, where the literal is chosen.
    pub(crate) fn jump(
        &mut self,
        conflict: Conflict,
        literal: i8,
    ) -> Result<(), (Conflict, SessionFault)>
        ensures { Spends T.Theory.kind T.Theory.model self.old (to_jump literal) conflict result self.new }
    {
        conflict.spent(self.backjump(literal))
    }

    fn backjump(&mut self, literal: i8) -> Result<(), SessionFault>
        ensures { Steps T.Theory.kind T.Theory.model self.old (to_jump literal) result self.new }
    {
        if !self.phase.serves(Kind::Jump) {
            return Err(SessionFault::State(StateCause::WrongPhase));
        }
        if !self.store.has_room() {
            return Err(SessionFault::State(StateCause::Full));
        }
        if !is_proper(literal) {
            return Err(SessionFault::Input(InputCause::BadLiteral));
        }
        if !self.counts.has(literal.unsigned_abs()) {
            return Err(SessionFault::State(StateCause::Absent));
        }
        if !self.analysed.holds(literal) {
            return Err(SessionFault::State(StateCause::NotResolvable));
        }
        let top = self.trail.top_level(self.analysed.literals());
        if !self.is_top(literal, top) {
            return Err(SessionFault::State(StateCause::NotAllowed));
        }
        let next = self.trail.next_level(literal, self.analysed.literals());
        if next < top {
            self.force(literal, next);
            return Ok(());
        }
        if !self.trail.all_read(top, self.analysed.literals()) {
            return Err(SessionFault::State(StateCause::NotAllowed));
        }
        self.split(literal, top - 1);
        Ok(())
    }

    // The literal is false at this level, which is not 0.
    fn is_top(&self, literal: i8, top: u8) -> bool
        ensures { result ≡ (nat_lt 0 top && false_at (trail_of self.now.trail) literal == top) }
    {
        0 < top && self.trail.false_at(literal) == top
    }

    // Stores the analysed clause, and goes back to the level. The room for it is handed on from the jump through this and
    // the two below: no ghost field can say it of a session.
    fn resume(&mut self, level: u8)
        requires { has_room T.Theory.kind (view T.Theory.kind T.Theory.model self.old) ≡ true }
        ensures { view T.Theory.kind T.Theory.model self.new ≡ resumed T.Theory.kind (view T.Theory.kind T.Theory.model self.old) level }
    {
        let learnt = mem::take(&mut self.analysed);
        self.store.push(learnt, false);
        self.trail.keep_up_to(level);
        self.phase = Phase::Searching;
    }

    // Back to the level, where the literal follows from the analysed clause.
    fn force(&mut self, literal: i8, level: u8)
        requires room { has_room T.Theory.kind (view T.Theory.kind T.Theory.model self.old) ≡ true }
        requires proper_literal { proper literal ≡ true }
        requires below_denial { level < false_at (trail_of self.old.trail) literal }
        ensures { view T.Theory.kind T.Theory.model self.new ≡ forced T.Theory.kind (view T.Theory.kind T.Theory.model self.old) literal level }
    {
        self.resume(level);
        self.trail.push(Entry::Literal {
            literal,
            level,
            origin: Origin::Propagated(self.store.len()),
        });
    }

    // Back to the level, behind which the literal is chosen.
    fn split(&mut self, literal: i8, level: u8)
        requires room { has_room T.Theory.kind (view T.Theory.kind T.Theory.model self.old) ≡ true }
        requires proper_literal { proper literal ≡ true }
        requires below_denial { level < false_at (trail_of self.old.trail) literal }
        ensures { view T.Theory.kind T.Theory.model self.new ≡ split T.Theory.kind (view T.Theory.kind T.Theory.model self.old) literal level }
    {
        self.resume(level);
        self.trail.push(Entry::Literal {
            literal,
            level: self.trail.choices() + 1,
            origin: Origin::Chosen,
        });
    }

    // Closes as impossible, where the clause is false without any choice. A session closes by two assignments, here and
    // twice more: the contract of a function for them would be longer.
    pub(crate) fn concede(&mut self, conflict: Conflict) -> Result<(), (Conflict, SessionFault)>
        ensures { Spends T.Theory.kind T.Theory.model self.old to_concede conflict result self.new }
    {
        if !self.phase.serves(Kind::Concede) {
            return Err((conflict, SessionFault::State(StateCause::WrongPhase)));
        }
        if self.trail.top_level(self.analysed.literals()) != 0 {
            return Err((conflict, SessionFault::State(StateCause::NotAllowed)));
        }
        let Conflict(_) = conflict;
        self.phase = Phase::Impossible;
        self.analysed = Clause::empty();
        Ok(())
    }

    // Closes without a verdict, where no conflict is held.
    pub(crate) fn abandon(&mut self) -> Result<(), SessionFault>
        ensures { Steps T.Theory.kind T.Theory.model self.old to_abandon result self.new }
    {
        if !self.phase.serves(Kind::Abandon) {
            return Err(SessionFault::State(StateCause::WrongPhase));
        }
        self.phase = Phase::Undecided;
        self.analysed = Clause::empty();
        Ok(())
    }

    // Closes without a verdict, and spends the conflict.
    pub(crate) fn abandon_conflict(
        &mut self,
        conflict: Conflict,
    ) -> Result<(), (Conflict, SessionFault)>
        ensures { Spends T.Theory.kind T.Theory.model self.old to_abandon conflict result self.new }
    {
        conflict.spent(self.abandon())
    }
}

impl Conflict {
    // Spent where the call is accepted; a refusal gives it back.
    fn spent(self, done: Result<(), SessionFault>) -> Result<(), (Conflict, SessionFault)>
        ensures { result ≡ back_of self (answer_of done) }
    {
        match done {
            Ok(()) => {
                let Conflict(_) = self;
                Ok(())
            }
            Err(fault) => Err((self, fault)),
        }
    }
}
