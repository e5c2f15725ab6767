//! What the form of settings gives the machine.
//!
//! No function here has code: its contract is the law.
#![tactic(auto)]

mod laws;

pub use laws::settings_name_apart;
