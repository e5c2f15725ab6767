//! Tests of `turn_lock` with threads that call at once. They stand apart from it, since a crate is proved once more with
//! its tests.
#![tactic(auto)]

#[cfg(test)]
mod threads;
