// The linear theory as a theory.
ghost use Rattle.std.specs.Prelude.{◌≡◌, ◌+◌, ◌*◌, length};
ghost use Rattle.calculus.specs.Lists.{every};
ghost use Rattle.calculus.specs.Limits.{sized};
ghost use Rattle.rows.specs.Bounds.{most_size};
ghost use Rattle.rows.specs.Hints.{multipliers};
ghost use Rattle.rows.specs.Linear.{linear, input as input_in, if_shown as answered_so, by_multipliers as hinted_so, by_split as split_so};
ghost use Rattle.linear.specs.Models.{table};
ghost use Rattle.rows.proofs.Lawfulness.{linear_lawful};

use crate::bodies;
use crate::bounds::MOST_MEASURES;
use crate::clauses::Clause;
use crate::refutations::Refutation;
use crate::store::Linear;
use calculus::Theory;
use calculus::limits::are_within_limits;
use faults::{InputCause, StateCause, TheoryFault};
use rows::Relation;

// All refusals are of layer 1.
fn input(cause: InputCause) -> TheoryFault
    ensures { result ≡ input_in cause }
{
    TheoryFault::Input(cause, 1)
}

fn if_shown(shown: bool) -> Result<(), TheoryFault>
    ensures { result ≡ answered_so shown }
{
    if shown {
        Ok(())
    } else {
        Err(TheoryFault::State(StateCause::NotVouched, 1))
    }
}

// Whether each multiplier is in its range.
fn all_sized(hint: &[u8], count: usize) -> bool
    requires { length hint.now ≡ 1 + 4 * count }
    ensures { result ≡ every (sized most_size) (multipliers count hint.now) }
{
    (0..count)
        .map(|i| bodies::word(hint, 1 + 4 * i))
        .all(bodies::within_size)
}

impl Linear {
    // The hint of kind 1: one multiplier for each literal.
    fn by_multipliers(&self, switches: u8, clause: &[i8], hint: &[u8]) -> Result<(), TheoryFault>
        ensures { result ≡ hinted_so (table self.now) switches clause.now hint.now }
    {
        if hint.len() as u128 != 1 + 4 * clause.len() as u128 {
            return Err(input(InputCause::WrongLength));
        }
        if !all_sized(hint, clause.len()) {
            return Err(input(InputCause::OutOfRange));
        }
        let Some(clause) = Clause::known(self, switches, clause) else {
            return if_shown(false);
        };
        if_shown(Refutation { clause, hint }.refutes())
    }

    // The hint of kind 2, which is its kind alone.
    fn by_split(&self, switches: u8, clause: &[i8], hint: &[u8]) -> Result<(), TheoryFault>
        ensures { result ≡ split_so (table self.now) switches clause.now hint.now }
    {
        if hint.len() != 1 {
            return Err(input(InputCause::WrongLength));
        }
        let clause = Clause::known(self, switches, clause);
        if_shown(clause.is_some_and(|clause| clause.splits()))
    }
}

// Counts, declare and admits test as those of switches only do: a few lines each, in theories that do not stand on one
// another.
impl Theory for Linear {
    const MOST: u8 = MOST_MEASURES;

    ghost kind = { linear };

    ghost model = { table };

    ghost lawful = { linear_lawful };

    ghost few = { λ x. x.few };

    fn begin() -> Self {
        Linear::empty()
    }

    fn greatest() -> u8 {
        Self::MOST
    }

    fn counts(&mut self, measures: u8) -> Result<(), TheoryFault> {
        if self.measures.is_some() {
            return Err(TheoryFault::State(StateCause::WrongPhase, 1));
        }
        if measures > Self::MOST {
            return Err(input(InputCause::OutOfRange));
        }
        self.measures = Some(measures);
        Ok(())
    }

    fn declare(&mut self, body: &[u8]) -> Result<(), TheoryFault> {
        match body {
            [] => Err(input(InputCause::WrongLength)),
            _ => Err(input(InputCause::OutOfRange)),
        }
    }

    fn admit(&mut self, body: &[u8]) -> Result<(), TheoryFault> {
        let [byte, ..] = body else {
            return Err(input(InputCause::WrongLength));
        };
        if self.atoms.is_full() {
            return Err(TheoryFault::State(StateCause::Full, 1));
        }
        let Ok(relation) = Relation::try_from(*byte) else {
            return Err(input(InputCause::OutOfRange));
        };
        if !bodies::well_long(body) {
            return Err(input(InputCause::WrongLength));
        }
        let Some(atom) = bodies::read(body, relation, self.measure_count()) else {
            return Err(input(InputCause::OutOfRange));
        };
        self.atoms.push(atom);
        Ok(())
    }

    fn measures(&self) -> u8 {
        self.measure_count()
    }

    fn atoms(&self) -> u8 {
        self.atoms.len() as u8
    }

    fn mentions(&self, atom: u8, measure: u8) -> bool {
        self.has_measure(measure) && self.atom(atom).is_some_and(|row| row.mentions(measure))
    }

    fn holds(&self, atom: u8, numerators: &[i32], denominator: u32) -> bool {
        self.atom(atom).is_some_and(|row| {
            are_within_limits(self.measure_count(), numerators, denominator)
                && row.holds(numerators, denominator)
        })
    }

    fn admits(&self, numerators: &[i32], denominator: u32) -> Result<(), TheoryFault> {
        if !are_within_limits(self.measure_count(), numerators, denominator) {
            return Err(TheoryFault::State(StateCause::NotAdmitted, 1));
        }
        Ok(())
    }

    fn equates(&self, atom: u8, i: u8, j: u8) -> bool {
        self.has_measure(i)
            && self.has_measure(j)
            && self.atom(atom).is_some_and(|row| row.equates(i, j))
    }

    fn vouches(&self, switches: u8, clause: &[i8], hint: &[u8]) -> Result<(), TheoryFault> {
        let [kind, ..] = hint else {
            return Err(input(InputCause::WrongLength));
        };
        match *kind {
            1 => self.by_multipliers(switches, clause, hint),
            2 => self.by_split(switches, clause, hint),
            _ => Err(input(InputCause::OutOfRange)),
        }
    }
}
