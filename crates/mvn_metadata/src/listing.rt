//! What a document lists.
use crate::{Entries, Versions};
use mvn_coords::{Build, Stamp};
use texts::Text;

/// What a document lists.
#[derive(Drop)]
pub enum Listing {
    /// The versions of an artifact, and when they last changed.
    Artifact {
        versions: Versions,
        updated: Option<Stamp>,
    },
    /// The files of a snapshot directory: its base version, the newest build, and per classifier and extension the
    /// newest one.
    Snapshot {
        base: Text,
        newest: Option<Build>,
        entries: Entries,
    },
}
