// The linear theory: atoms are rows over the measures, compared with a constant by <, ≤ or =.
#![tactic(auto)]

mod atoms;
mod bodies;
mod bounds;
mod clauses;
mod denials;
mod entries;
mod refutations;
mod store;
mod theory;

pub use store::Linear;
