//! A proxy of a remote repository: what it keeps, what it does about a path, and what a fetch leaves.
#![tactic(auto)]

mod changes;
mod keeping;
mod landed;
mod proxy;
mod rule;
mod settling;
mod subjects;

pub use landed::Landed;
pub use path_patterns::{PatternFault, Patterns};
pub use proxy::Proxy;
pub use rule::Rule;
pub use subjects::subject_of;
