//! What holds of the one-thread repository: laws of its effects, of its turns and of all legal histories, and worked histories.
//!
//! No function here has code: its contract is the law.
#![tactic(auto)]

pub mod causes;
pub mod deployed;
pub mod documents;
pub mod numbers;
pub mod proxies;
pub mod replies;
pub mod restarts;
pub mod states;
pub mod tables;
pub mod worked;
