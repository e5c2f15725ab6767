//! A run of the program `mvnrepod` over the system: the objects that its words have, and the run with them.
#![tactic(auto)]

mod folder;
mod memory;
mod places;
mod runs;
mod server;
mod status;
mod stock;

pub use places::{Places, take_places};
pub use server::{FolderCleaner, Server, TcpDesk, server_of};
pub use status::status_for;
