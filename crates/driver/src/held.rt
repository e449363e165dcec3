use session::{Conflict, Permit};

// What the session gave out and did not get back yet.
pub enum Held {
    Nothing,
    Draft(Permit),
    Analysis(Conflict),
}
