//! Patterns of repository paths: which texts are patterns, and which paths they match.
//!
//! A pattern is cut at `/` like a path. `*` matches bytes within one segment, as many as there are, and a segment `**`
//! matches whole segments, as many as there are (Apache Ant's patterns, without `?`).
#![tactic(auto)]

mod bytes;
mod form;
mod patterns;
mod segments;
mod verdict;

pub use form::is_pattern;
pub use patterns::{PatternFault, Patterns, is_let_through};
