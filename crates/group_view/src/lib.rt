//! A group of repositories: which of its members answers or is asked, the one document of all members, and a shelf of such documents.
#![tactic(auto)]

mod merging;
mod shelf;
mod stances;

pub use merging::merged;
pub use shelf::GroupShelf;
pub use stances::{Stance, Turn, next};
