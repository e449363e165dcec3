// The report of a whole check: what it comes to, written as lines of bytes.
#![tactic(auto)]

ghost use Rattle.report.specs.Examples.{ExamplesStand};
ghost use Rattle.report.specs.Telling.{LinesTell};

mod lines;
mod numbers;
mod outcome;

pub use outcome::{LEAST_BUFFER, Outcome};

// A verdict can be read back from its report.
pub fn tells()
    ensures { LinesTell }
{}

// The examples are written as their table says.
pub fn examples_stand()
    ensures { ExamplesStand }
{}
