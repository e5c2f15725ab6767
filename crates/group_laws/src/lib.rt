//! What a group has at a path, by whose turn it is among its members.
#![tactic(auto)]

pub mod laws;
