// Trials of the calculus: a small theory with atoms, and runs over it and over switches only, computed.
#![tactic(auto)]

ghost use Rattle.calculus.specs.Sound.{EveryRunSound};
ghost use Rattle.switches.specs.Switches.{switches_only};
ghost use Rattle.trials.specs.Signs.{signs};
ghost use Rattle.trials.specs.Trials.{AnswersStand, LeadsStand};
ghost use Rattle.trials.specs.Runs.{switch_runs, sign_runs};
ghost use Rattle.trials.specs.Refusals.{switch_refusals, sign_refusals};
ghost use Rattle.calculus.specs.Kinds.{Lawful};

use calculus::law;
use switches::Switches;

// The theory of signs is lawful, so every run over it is sound.
pub fn signs_sound()
    ensures lawful { Lawful signs }
    ensures sound { EveryRunSound signs }
{}

// Every run over switches only is sound.
pub fn switches_sound()
    ensures { EveryRunSound switches_only }
{
    law::<Switches>()
}

// The runs lead where the tables say.
pub fn runs_stand()
    ensures switches { LeadsStand switches_only switch_runs }
    ensures signs { LeadsStand signs sign_runs }
{}

// The calls answer what the tables say.
pub fn refusals_stand()
    ensures switches { AnswersStand switches_only switch_refusals }
    ensures signs { AnswersStand signs sign_refusals }
{}
