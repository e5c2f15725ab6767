//! The numbers of blobs, of leases and of sessions: drawn, in use, lent to readers, and garbage.
#![tactic(auto)]

mod places;
mod yard;

pub use yard::{DrawFault, Yard};
