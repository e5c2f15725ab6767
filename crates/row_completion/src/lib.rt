//! Rows that were recorded without SHA-256 and SHA-512 are given them at a start.
//!
//! Each recorded file's blob is read once, and the digests of those that lack them are committed, at most 1,000 in one change.
#![tactic(auto)]

mod completing;
mod faults;
mod gathering;
pub mod laws;
mod recording;

pub use completing::complete;
pub use faults::CompletionFault;
