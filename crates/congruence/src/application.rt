pub mod applying;

use arrayvec::ArrayVec;

pub const MOST_ARGUMENTS: usize = 3;

// One application: the result is the function's value at the arguments.
#[derive(Drop, Default)]
pub struct Application {
    function: u8,
    arguments: ArrayVec<u8, MOST_ARGUMENTS>,
    result: u8,
}
