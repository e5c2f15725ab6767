//! How many deployment sessions are open, how many files each stages, and what becomes of the results of those that have ended,
//! in each state of a history.
//!
//! No function here has code: its contract is the law.
#![tactic(auto)]

mod laws;
mod results;

pub use laws::{full_is_at_the_limit, sessions_keep_their_limits};
pub use results::{results_are_answered_again, results_are_kept};
