//! Remote servers over TCP (RFC 9293): each exchange over a connection of its own, which doesn't wait for ever.
//!
//! No contract knows what a server sends: the remote counts its faults, and tells neither answers nor exchanges.
#![tactic(auto)]

mod connecting;
mod limits;
mod remote;
mod talking;
mod troubles;

pub use limits::Limits;
pub use remote::TcpRemote;
