//! What a start makes of what is recorded: each blob is looked at, rows come back to their repositories and proxies, documents to
//! their proxies, and the blobs that no row names go.
#![tactic(auto)]

mod empties;
mod faults;
mod leftovers;
mod numbers;
mod proxies;
mod restarts;
mod restoring;
mod taking;

pub use empties::empty_repos;
pub use faults::RestoreFault;
pub use proxies::empty_proxies;
pub use restarts::{Restored, restore};
