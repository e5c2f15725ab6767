//! What outlasts a crash of a server that still runs: laws of any seat's history, at any time.
//!
//! No function here has code: its contract is the law.
#![tactic(auto)]

mod answered;
mod named;
mod running;
mod seats;
mod starts;

pub use answered::{
    answered_commits_outlast_crashes, answered_puts_outlast_crashes,
    desks_so_far_are_answered_by_cause, turns_are_answered_by_cause,
};
pub use named::{named_files_outlast_crashes, named_files_outlast_crashes_between_calls};
pub use running::desks_of_running_servers_keep_what_they_answered;
pub use seats::{seats_outlast_crashes, spared_files_outlast_crashes};
pub use starts::starts_that_crashed_answer_the_same_files;
