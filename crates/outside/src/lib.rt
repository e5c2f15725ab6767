//! The outside world as the server sees it: sources and sinks of bytes, connections, a listener, stored blobs
//! and a clock.
//!
//! Each is a trait. Its contract says what its object tells of itself, where it tells anything, and that a call
//! answers `Failed` only where the object's count of faults rose in that call. A program that is generic over
//! the traits can't raise a count, so it can't give up by itself.
#![tactic(auto)]

mod checks;
mod clocks;
mod contents;
mod duplex;
mod faults;
mod gatherings;
mod parcels;
mod pieces;
mod ports;
mod readings;
mod sinks;
mod sources;
mod stores;
mod streams;
mod tells;

pub use checks::{CheckFault, Checked, adopt_checked};
pub use clocks::Clock;
pub use contents::{KEPT_BYTES, KeptContent};
pub use duplex::Duplex;
pub use faults::{BlobFault, Failed, NoMemory};
pub use gatherings::Gathering;
pub use parcels::Parcel;
pub use pieces::{PIECE_BYTES, Piece, read_full_at};
pub use ports::Port;
pub use readings::{Reading, Step};
pub use sinks::{Sink, write_all};
pub use sources::{Source, read_full};
pub use stores::{Blobs, Held, Pen};
pub use streams::Stream;
pub use tells::Tells;
