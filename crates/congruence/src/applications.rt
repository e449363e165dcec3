pub mod listing;

use crate::application::Application;
use arrayvec::ArrayVec;

pub const MOST_APPLICATIONS: usize = 32;

// The table of applications, in the order of their declaration.
#[derive(Drop)]
pub struct Applications {
    pub(crate) rows: ArrayVec<Application, MOST_APPLICATIONS>,
}
