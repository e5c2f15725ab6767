//! Bytes and texts compared with a word and cut at their ends.
#![tactic(auto)]

pub mod bytes;
pub mod text;
