//! What a run of the program owns beside its records: desks, and a cleaner.
#![tactic(auto)]

mod objects;

pub use objects::{Cleaner, Desk};
