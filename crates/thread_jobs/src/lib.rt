//! Any number of jobs at once, each in a thread of its own where one can be made.
#![tactic(auto)]

mod beside;
mod jobs;

pub use beside::run_beside;
pub use jobs::{Job, run_all};
