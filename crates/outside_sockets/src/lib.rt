//! Connections over TCP: a listener as a port, and its connections as streams that don't wait for ever.
//!
//! No contract knows what a peer sends or takes: the adapters count their faults and tell no bytes.
#![tactic(auto)]

mod choice;
mod closing;
mod crowd;
mod door;
mod effort;
mod front;
mod heads;
mod hearing;
mod limits;
mod line;
mod links;
mod paces;
mod ports;
mod room;

pub use links::TcpLink;
pub use paces::PatrolPace;
pub use ports::TcpPort;
