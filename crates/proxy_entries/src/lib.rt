//! The documents that a proxy keeps and the paths at which its remote had nothing, in ordered maps.
#![tactic(auto)]

mod documents;
mod kept;
mod negatives;
mod steps;

pub use documents::{find, put, replace};
pub use kept::Kept;
pub use negatives::{MOST_NEGATIVES, add_negative, negative_at, remove_negative};
pub use steps::{document_step, step_out};
