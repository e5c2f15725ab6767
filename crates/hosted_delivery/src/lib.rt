//! Staged files that are deployed to a repository all at once.
#![tactic(auto)]

mod delivering;
mod judging;
mod put_all;

pub use delivering::deliver;
pub use judging::judge;
pub use put_all::PutAll;
