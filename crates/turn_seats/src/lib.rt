//! A repository that any number of threads ask in turn: what its object keeps, a seat as one who asks, and the end of all.
#![tactic(auto)]

mod asker;
mod ends;
mod laws;
mod repository;

pub use asker::Asker;
pub use ends::end_all;
pub use laws::what_is_seen_is_a_history;
pub use repository::Repository;
