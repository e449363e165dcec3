// The search: lemma, choose, set, propagate and read.
ghost use Rattle.std.specs.Prelude.{◌≡◌, ◌≤◌, true, false, ◌&&◌, List};
ghost use Rattle.calculus.specs.Calls.Call.{Lemma as to_lemma, Choose as to_choose, Set as to_set, Propagate as to_propagate, Read as to_read};
ghost use Rattle.calculus.specs.Lists.{every};
ghost use Rattle.calculus.specs.Limits.{most_measures, most_numerator, within, sized};
ghost use Rattle.calculus.specs.Trails.{Entry as Trailed, valued, enter_choice, reading, stays_true};
ghost use Rattle.calculus.specs.Trails.Content.{Value};
ghost use Rattle.calculus.specs.Literals.{holds_literal};
ghost use Rattle.calculus.specs.States.{clause as clause_at};
ghost use Rattle.calculus.specs.Steps.{readable_in, others_false};
ghost use Rattle.tables.specs.Tables.{trail_of, store_of};
ghost use Rattle.readings.specs.Valuing.{JustValued};
ghost use Rattle.session.specs.Cores.{view, Steps};

use super::Core;
use super::phase::Kind;
use calculus::Theory;
use calculus::limits::{is_numerator, is_within};
use faults::{InputCause, SessionFault, StateCause};
use tables::clause::Clause;
use tables::entry::{Entry, Origin};
use tables::literals::{are_proper, holds_literal, is_clause_like, is_proper};
use tables::trail::Trail;

// Enters a value for the measure, as a choice.
fn enter_value(trail: &mut Trail, measure: u8, numerator: i32)
    requires in_range { (within most_measures measure && sized most_numerator numerator) ≡ true }
    requires no_value { valued measure (trail_of trail.old) ≡ false }
    ensures { trail_of trail.new ≡ enter_choice (trail_of trail.old) (Value measure numerator) }
{
    let level = trail.choices() + 1;
    trail.push(Entry::Value {
        measure,
        numerator,
        level,
    });
}

impl<T: Theory> Core<T> {
    // Stores a clause that the theory vouches for. What it tests before that is said at the rule.
    pub(crate) fn lemma(&mut self, literals: &[i8], hint: &[u8]) -> Result<(), SessionFault>
        ensures { Steps T.Theory.kind T.Theory.model self.old (to_lemma literals.now hint.now) result self.new }
    {
        if !self.phase.serves(Kind::Lemma) {
            return Err(SessionFault::State(StateCause::WrongPhase));
        }
        if !self.store.has_room() {
            return Err(SessionFault::State(StateCause::Full));
        }
        if !are_proper(literals) {
            return Err(SessionFault::Input(InputCause::BadLiteral));
        }
        if !is_clause_like(literals) {
            return Err(SessionFault::Input(InputCause::BadClause));
        }
        if !self.counts.has_all(literals) {
            return Err(SessionFault::State(StateCause::Absent));
        }
        self.theory.vouches(self.counts.switches(), literals, hint)?;
        let Some(clause) = Clause::of(literals) else {
            return Err(SessionFault::Input(InputCause::BadClause));
        };
        self.store.push(clause, false);
        Ok(())
    }

    // Enters a literal as a decision. Propagate tests the number alike, and read asks the opposite: two lines each.
    pub(crate) fn choose(&mut self, literal: i8) -> Result<(), SessionFault>
        ensures { Steps T.Theory.kind T.Theory.model self.old (to_choose literal) result self.new }
    {
        if !self.phase.serves(Kind::Choose) {
            return Err(SessionFault::State(StateCause::WrongPhase));
        }
        if !is_proper(literal) {
            return Err(SessionFault::Input(InputCause::BadLiteral));
        }
        let number = literal.unsigned_abs();
        if !self.counts.has(number) {
            return Err(SessionFault::State(StateCause::Absent));
        }
        if self.trail.is_taken(number) {
            return Err(SessionFault::State(StateCause::Taken));
        }
        if self.is_readable(number) {
            return Err(SessionFault::State(StateCause::WrongReadability));
        }
        let level = self.trail.choices() + 1;
        self.trail.push(Entry::Literal {
            literal,
            level,
            origin: Origin::Chosen,
        });
        Ok(())
    }

    // Enters the value of a measure, as a decision.
    pub(crate) fn set(&mut self, measure: u8, numerator: i32) -> Result<(), SessionFault>
        ensures { Steps T.Theory.kind T.Theory.model self.old (to_set measure numerator) result self.new }
    {
        if !self.phase.serves(Kind::Set) {
            return Err(SessionFault::State(StateCause::WrongPhase));
        }
        if !self.takes_value(measure, numerator) {
            return Err(SessionFault::Input(InputCause::OutOfRange));
        }
        if self.trail.is_valued(measure) {
            return Err(SessionFault::State(StateCause::Taken));
        }
        enter_value(&mut self.trail, measure, numerator);
        if !self.bears_value(measure) {
            self.trail.pop();
            return Err(SessionFault::State(StateCause::ContradictsTrail));
        }
        Ok(())
    }

    // There is such a measure, and the numerator is in its range.
    fn takes_value(&self, measure: u8, numerator: i32) -> bool
        ensures { result ≡ (within (T.Theory.kind.measures (T.Theory.model self.now.theory)) measure && sized most_numerator numerator) }
    {
        is_within(usize::from(self.theory.measures()), usize::from(measure))
            && is_numerator(numerator)
    }

    // Where the last entry of the trail has just given the measure its value: every literal that becomes readable is true.
    fn bears_value(&self, measure: u8) -> bool
        ensures { (t : List Trailed) → JustValued measure t (trail_of self.now.trail) → within (T.Theory.kind.measures (T.Theory.model self.now.theory)) measure ≡ true → result ≡ every (λ e. stays_true T.Theory.kind (T.Theory.model self.now.theory) self.now.counts.switches self.now.counts.denominator t (trail_of self.now.trail) e.content) t }
    {
        match self.trail.entries() {
            [before @ .., _] => self.reading().bears(measure, before, &self.trail),
            [] => true,
        }
    }

    // Enters a literal that a clause forces.
    pub(crate) fn propagate(&mut self, clause: u8, literal: i8) -> Result<(), SessionFault>
        ensures { Steps T.Theory.kind T.Theory.model self.old (to_propagate clause literal) result self.new }
    {
        if !self.phase.serves(Kind::Propagate) {
            return Err(SessionFault::State(StateCause::WrongPhase));
        }
        if !is_proper(literal) {
            return Err(SessionFault::Input(InputCause::BadLiteral));
        }
        let number = literal.unsigned_abs();
        if !self.store.has(clause) || !self.counts.has(number) {
            return Err(SessionFault::State(StateCause::Absent));
        }
        if self.trail.is_taken(number) {
            return Err(SessionFault::State(StateCause::Taken));
        }
        if self.is_readable(number) {
            return Err(SessionFault::State(StateCause::WrongReadability));
        }
        if !self.is_unit(clause, literal) {
            return Err(SessionFault::State(StateCause::NotUnit));
        }
        let level = self.trail.choices();
        self.trail.push(Entry::Literal {
            literal,
            level,
            origin: Origin::Propagated(clause),
        });
        Ok(())
    }

    // The clause holds the literal, and its other literals are false.
    fn is_unit(&self, clause: u8, literal: i8) -> bool
        ensures { result ≡ (holds_literal literal (clause_at (store_of self.now.store) clause) && others_false (trail_of self.now.trail) literal (clause_at (store_of self.now.store) clause)) }
    {
        let literals = self.store.literals(clause);
        holds_literal(literals, literal) && self.trail.others_false(literal, literals)
    }

    fn is_readable(&self, number: u8) -> bool
        ensures { result ≡ readable_in T.Theory.kind (view T.Theory.kind T.Theory.model self.now) number }
    {
        self.atoms().is_readable(&self.trail, number)
    }

    // Enters an atom as the values make it.
    pub(crate) fn read(&mut self, number: u8) -> Result<(), SessionFault>
        ensures { Steps T.Theory.kind T.Theory.model self.old (to_read number) result self.new }
    {
        if !self.phase.serves(Kind::Read) {
            return Err(SessionFault::State(StateCause::WrongPhase));
        }
        if !self.counts.has(number) {
            return Err(SessionFault::State(StateCause::Absent));
        }
        if self.trail.is_taken(number) {
            return Err(SessionFault::State(StateCause::Taken));
        }
        if !self.is_readable(number) {
            return Err(SessionFault::State(StateCause::WrongReadability));
        }
        let literal = self.literal_read(number);
        let level = self.atoms().reading_level(&self.trail, number);
        self.trail.push(Entry::Literal {
            literal,
            level,
            origin: Origin::Read,
        });
        Ok(())
    }

    // The atom, or its denial, whichever the values make true.
    fn literal_read(&self, number: u8) -> i8
        requires { number ≤ 127 }
        ensures { result ≡ reading T.Theory.kind (T.Theory.model self.now.theory) self.now.counts.switches self.now.counts.denominator (trail_of self.now.trail) number }
    {
        let literal = number as i8;
        if self.reading().is_true(&self.trail, literal) {
            literal
        } else {
            -literal
        }
    }
}
