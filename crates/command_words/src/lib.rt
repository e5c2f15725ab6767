//! The words of the program's command line.
#![tactic(auto)]

mod commands;
mod wanted;
mod words;

pub use wanted::{Wanted, WordsFault};
pub use words::read_words;
