//! The repository itself, for one thread: one call is one turn of the machine that `repo_model` defines.
#![tactic(auto)]

mod asking;
mod faults;
mod landing;
mod loading;
mod machine;
mod repository;
mod session_turns;
mod starting;
mod thing;

pub use blob_audit::Damaged;
pub use faults::StartFault;
pub use repo_model::{Command, Place, Reply};
pub use repository::Core;
pub use starting::start;
