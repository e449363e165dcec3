// A vector of a fixed capacity, whose items lie in the value itself. It is copied with its items, as the kit's `ArrayVec` is
// not; what it does, it does as that one does.
#![tactic(auto)]

mod holding;
mod making;

pub use holding::FixedVec;
pub use making::NoRoom;
