// The two files that a checker is given: their records one by one, and the call that each record writes.
#![tactic(auto)]

mod calls;
mod frames;
mod reading;
mod records;
mod whole;

pub use calls::{Call, Literals};
pub use frames::Frame;
pub use reading::Reader;
pub use records::{FileKind, MOST_CASE_BYTES, MOST_LOG_BYTES, Record, Stop};
pub use whole::{Listing, read_all};
