//! A run of the program `mvnrepod` that never waits: what its words ask for, a replay, a check, a cleaning or a demonstration, the lines that it
//! prints, and its status.
#![tactic(auto)]

mod actions;
mod begun;
mod cleans;
mod demo;
mod laws;
mod program;
mod ran;
mod replays;
mod reports;
mod tally;
mod words;

pub use actions::{Action, Wanted};
pub use begun::{begin, refuse_start};
pub use laws::{
    alone_nothing_is_left_behind, sound_numbers_are_drawn, turns_are_a_history, worked_replay,
};
pub use program::run_once;
pub use ran::Ran;
pub use replays::serve_first;
pub use run_lines::{DAMAGED, DONE, INPUT, NAMED, NO_MEMORY, OUTPUT, REFUSED, SETTINGS, STORE};
pub use words::wanted;
