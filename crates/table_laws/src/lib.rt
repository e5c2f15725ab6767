//! What tables are that a load of the records gives: those that items of the right form build up.
//!
//! No function here has code: its contract is the law.
#![tactic(auto)]

mod laws;

pub use laws::built_tables_are_right;
