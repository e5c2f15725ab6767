//! Paths of a Maven repository: what a path names (a file by its coordinates, a document by its
//! directory, or a side file of either), after the Maven 2 repository layout, and the civil
//! timestamps of unique snapshots.
#![tactic(auto)]

mod build;
mod coord;
mod fault;
mod kind;
pub mod laws;
mod name;
mod read;
mod segment;
mod stamp;
mod text;

pub use build::{Build, BuildText, NumberText, build_number};
pub use coord::{Coord, Dir};
pub use fault::{PathFault, Side};
pub use kind::Kind;
pub use read::{kind_of, path_of};
pub use segment::{
    are_path_bytes, is_artifact, is_group_segment, is_path_byte, is_segment, is_version_directory,
};
pub use stamp::Stamp;
use std::alloc::AllocError;

/// Memory was wanting.
pub type NoMemory = AllocError;
