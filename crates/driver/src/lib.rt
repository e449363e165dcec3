// Carries calls out on a session: a list of them, or those that the records of a case and its log write.
#![tactic(auto)]

mod checking;
pub mod held;
pub mod records;
pub mod replaying;
mod stepping;
mod taking;

pub use checking::check;
