// The tables of a session: its trail, its clauses, and the store of them. They know nothing of any theory.
#![tactic(auto)]

pub mod clause;
pub mod entry;
pub mod literals;
pub mod store;
pub mod trail;
