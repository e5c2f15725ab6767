//! Each answer of a served stream with the entry that it answers, and the cause of that in the history.
//!
//! No function here has code: its contract is the law.
#![tactic(auto)]

mod laws;

pub use laws::streams_are_answered_by_cause;
