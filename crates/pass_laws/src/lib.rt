//! What each pass over the repositories asks at least, and why one runs out of memory.
//!
//! No function here has code: its contract is the law.
#![tactic(auto)]

mod laws;

pub use laws::{passes_ask, passes_want_memory_by_cause};
