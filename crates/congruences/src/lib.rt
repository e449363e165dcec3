// Congruences: what congruence over a theory is, as a value, and that it keeps the laws of a theory.
#![tactic(auto)]

ghost use Rattle.calculus.specs.Kinds.{Lawful};
ghost use Rattle.congruences.specs.Congruences.{congruence};

use calculus::Theory;

// Congruence over a lawful theory keeps the laws.
pub fn laws_stand<T: Theory>()
    ensures { Lawful (congruence T.Theory.kind) }
{}
