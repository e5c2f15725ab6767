//! A file on a disk, as the journal sees it: reads and writes at a place, cuts and syncs, each whole or failed.
//!
//! A disk may tell the trace of the calls made on it. What a crash may leave at each moment follows from it.
//! `MemDisk` tells all; `FileDisk` stands on a file of the system and tells nothing.
#![tactic(auto)]

mod disk;
mod durable;
mod file;
mod memory;
mod record;
mod script;

pub use disk::Disk;
pub use durable::{cut_through, write_through};
pub use file::FileDisk;
pub use memory::{DiskRoom, MemDisk};
pub use record::DiskCall;
pub use script::DiskScript;
