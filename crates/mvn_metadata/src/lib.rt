//! The document `maven-metadata.xml` of a directory (Maven repository metadata 1.1.0): what it holds, how it is settled
//! for its directory, and how documents of one directory are merged. `mvn_doc` reads and writes it.
#![tactic(auto)]

mod doc;
mod entries;
mod form;
pub mod laws;
mod listing;
mod merging;
mod pair;
mod settling;
mod undo;
mod versions;

pub use doc::Doc;
pub use entries::Entries;
pub use form::{is_base, is_base_version, is_classifier, is_entry, is_extension, is_group};
pub use listing::Listing;
pub use merging::merge;
pub use pair::{Pair, SnapshotBuild};
pub use settling::{empty, settle};
use std::alloc::AllocError;
pub use undo::Undo;
pub use versions::Versions;

/// There was no memory left.
pub type NoMemory = AllocError;
