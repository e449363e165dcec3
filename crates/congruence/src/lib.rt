// Congruence over any theory: applications of functions to measures, of which alike ones with equal arguments
// have equal results. All else is passed down to the theory below.
#![tactic(auto)]

mod application;
mod applications;
mod layer;
mod matching;
mod places;

pub use layer::Congruence;
