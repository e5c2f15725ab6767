//! The journal: changes as frames of one file. A change that is committed is on the disk; a crash at any moment leaves the
//! tables of the committed changes, or these with the one change under way.
#![tactic(auto)]

mod committing;
mod faults;
mod journal;
mod laws;
mod loading;
mod reloading;
mod undoing;

pub use journal::Journal;
pub use laws::laws_of_journals;
