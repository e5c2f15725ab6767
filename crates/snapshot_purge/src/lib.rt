//! Which builds of a snapshot directory are no longer to be kept.
#![tactic(auto)]

mod ages;
mod builds;

pub use ages::{Ages, DueBuilds};
pub use builds::{Aged, Keep, due};
use std::alloc::AllocError;

/// There was no memory left.
pub type NoMemory = AllocError;
