// The calculus: what a theory is, as a trait with its laws, and the law that holds of every run over every
// lawful theory. The states, the calls and what each call does are definitions, in specs/.
#![tactic(auto)]

ghost use Rattle.std.specs.Prelude.{◌≡◌, ◌≤◌};
ghost use Rattle.calculus.specs.Limits.{most_measures};
ghost use Rattle.calculus.specs.Kinds.{Kind, Lawful};
ghost use Rattle.calculus.specs.Questions.{Moves, says_mentioned, says_true, says_admitted};
ghost use Rattle.calculus.specs.Sound.{EveryRunSound};
ghost use Rattle.calculus.specs.Bounds.{EveryRunBounded};
ghost use Rattle.calculus.specs.Rules.{RulesHold};

use faults::TheoryFault;

pub mod limits;

// A theory, or a pile of theories. It numbers its own atoms from 1, and is told the count of switches
// with a clause: there the number of an atom is that count more. No question changes the theory.
pub trait Theory: Sized {
    // the greatest number of measures that it takes
    const MOST: u8;

    // what it is, which model it is now, and that it keeps the laws
    ghost kind: { Kind };

    ghost model: { Self → kind.Model };

    // As it begins, without measures and atoms.
    fn begin() -> Self
        ensures { model result ≡ kind.begun };

    // What MOST is.
    fn greatest() -> u8
        ensures { result ≡ kind.most };

    // Takes the count of measures.
    fn counts(&mut self, measures: u8) -> Result<(), TheoryFault>
        ensures { Moves kind (model self.old) (kind.count (model self.old) measures) result (model self.new) };

    // Takes a declaration.
    fn declare(&mut self, body: &[u8]) -> Result<(), TheoryFault>
        ensures { Moves kind (model self.old) (kind.declare (model self.old) body.now) result (model self.new) };

    // Takes one atom more.
    fn admit(&mut self, body: &[u8]) -> Result<(), TheoryFault>
        ensures { Moves kind (model self.old) (kind.admit (model self.old) body.now) result (model self.new) };

    // How many measures there are.
    fn measures(&self) -> u8
        ensures { result ≡ kind.measures (model self.now) };

    // How many atoms there are.
    fn atoms(&self) -> u8
        ensures { result ≡ kind.atoms (model self.now) };

    // Whether the atom mentions the measure.
    fn mentions(&self, atom: u8, measure: u8) -> bool
        ensures { result ≡ says_mentioned kind (model self.now) atom measure };

    // Whether the atom is true of these values.
    fn holds(&self, atom: u8, numerators: &[i32], denominator: u32) -> bool
        ensures { result ≡ says_true kind (model self.now) atom numerators.now denominator };

    // Whether these values are admitted; else it is told which layer does not admit them.
    fn admits(&self, numerators: &[i32], denominator: u32) -> Result<(), TheoryFault>
        ensures { result ≡ says_admitted kind (model self.now) numerators.now denominator };

    // Whether the atom says that two measures are equal.
    fn equates(&self, atom: u8, i: u8, j: u8) -> bool
        ensures { result ≡ kind.equated (model self.now) atom i j };

    // Whether one of the clause's atom literals is true in every arrangement that is admitted, as the hint
    // tells; else it is told which layer does not vouch for it, or why the hint itself is refused.
    fn vouches(&self, switches: u8, clause: &[i8], hint: &[u8]) -> Result<(), TheoryFault>
        ensures { result ≡ kind.vouched (model self.now) switches clause.now hint.now };

    ghost lawful: { Lawful kind };

    // it never has more measures than there can be
    ghost few: { (x : Self) → kind.measures (model x) ≤ most_measures };
}

// The law of the calculus, for every lawful theory: what holds after every list of calls.
pub fn law<T: Theory>()
    ensures sound { EveryRunSound T.Theory.kind }
    ensures bounded { EveryRunBounded T.Theory.kind }
    ensures rules { RulesHold T.Theory.kind }
{}
