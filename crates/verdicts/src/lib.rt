// What the whole check of a case and its log comes to, and what that means for the case. All of it is definitions, in
// specs/, and a law.
#![tactic(auto)]

ghost use Rattle.verdicts.specs.Honest.{Honest};

use calculus::Theory;

// Over every lawful theory, a check that tells impossible or possible tells the truth about the case.
pub fn law<T: Theory>()
    ensures { Honest T.Theory.kind }
{}
