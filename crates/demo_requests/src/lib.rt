//! The requests of a demonstration, and the settings under which they are answered: each request is a function of a number
//! and of its place, and each number one of the number before it.
#![tactic(auto)]

mod fixed;
mod numbers;
mod paths;
mod requests;

pub use fixed::settings;
pub use numbers::{NUMBERS, next_number};
pub use requests::request;
use std::alloc::AllocError;

/// Memory was wanting.
pub type NoMemory = AllocError;
