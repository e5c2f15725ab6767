//! Remote servers: the trait by which they are asked, and its form in memory.
#![tactic(auto)]

mod exchange;
mod remote;
mod script;

pub use exchange::{Asked, Exchange, RemoteFault};
pub use remote::Remote;
pub use script::ScriptRemote;
