//! Deployment sessions: files are staged one after the other, to be deployed all at once or not at all.
#![tactic(auto)]

mod answers;
mod files;
mod known;
mod recording;
mod restart;
mod sessions;

pub use answers::{Abort, Begin, Commit, Stage};
pub use files::{Files, find as staged_file, has_room};
pub use sessions::Sessions;
