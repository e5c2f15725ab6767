//! The document of a directory.
ghost use Rattle.std.specs.Prelude.{◌≡◌, IfOk, IsTrue, OnErr, OnOk};
ghost use Rattle.std.specs.Option.{option_copied};
ghost use Rattle.mvn_coords.specs.Civil.{is_civil};
ghost use Rattle.mvn_metadata.specs.Form.{is_fit, is_listing};
ghost use Rattle.mvn_metadata.specs.Document.{joined, latest_time, merged, newest_build, nothing, with_build, with_update, with_version};
ghost use Rattle.mvn_metadata.specs.Undo.{undone};

use crate::pair::compare_builds;
use crate::undo::{add_version, undo_version};
use crate::{Entries, Listing, NoMemory, Pair, SnapshotBuild, Undo, Versions};
use mvn_coords::laws::stamp_is_civil;
use mvn_coords::{Build, Stamp};
use mvn_version::Version;
use std::alloc::Global;
use std::cmp::Ordering;
use std::marker::Model;
use texts::{Bytes, Text};

/// The document of a directory, which always keeps its form: versions are distinct and in order, entries have distinct
/// pairs in order, and no entry is newer than the newest build.
#[derive(Drop)]
pub struct Doc {
    group: Option<Bytes>,
    artifact: Option<Text>,
    listing: Listing,
}

impl Model for Doc {
    ghost use Rattle.std.specs.Prelude.{IsTrue};
    ghost use Rattle.mvn_metadata.specs.Document.{Document};
    ghost use Rattle.mvn_metadata.specs.Form.{is_document};

    ghost Value = { Document };

    ghost view = { λ d. record { group = d.group; artifact = d.artifact; listing = d.listing } };

    ghost invariant = { λ d. IsTrue (is_document (record { group = d.group; artifact = d.artifact; listing = d.listing })) };
}

pub(crate) fn latest_time(left: Option<Stamp>, right: Option<Stamp>) -> Option<Stamp>
    ensures { result ≡ latest_time left right }
{
    let (Some(time), Some(other)) = (left, right) else {
        return left.or(right);
    };
    Some(if time.cmp(&other) == Ordering::Less {
        other
    } else {
        time
    })
}

// A time that is known is one of the calendar.
fn time_is_civil(time: Option<Stamp>)
    ensures { IsTrue (is_fit is_civil time) }
{
    if let Some(stamp) = time {
        stamp_is_civil(stamp);
    }
}

fn newest_build(left: Option<Build>, right: Option<Build>) -> Option<Build>
    ensures { result ≡ newest_build left right }
{
    let (Some(build), Some(other)) = (left, right) else {
        return left.or(right);
    };
    Some(if compare_builds(build, other) == Ordering::Less {
        other
    } else {
        build
    })
}

/// Another copy of a text, if there is one.
fn copied(alloc: Global, text: &Option<Text>) -> Result<Option<Text>, NoMemory>
    ensures { IfOk result (λ t. t ≡ text.now) }
{
    match text {
        Some(text) => Ok(Some(text.copied(alloc)?)),
        None => Ok(None),
    }
}

fn copied_bytes(alloc: Global, bytes: &Option<Bytes>) -> Result<Option<Bytes>, NoMemory>
    ensures { IfOk result (λ t. t ≡ bytes.now) }
{
    match bytes {
        Some(bytes) => Ok(Some(Bytes::new(alloc, bytes.as_slice())?)),
        None => Ok(None),
    }
}

/// Another copy of what a document lists, which shares its versions.
fn copied_listing(alloc: Global, listing: &Listing) -> Result<Listing, NoMemory>
    requires { IsTrue (is_listing listing.now) }
    ensures { IfOk result (λ l. l ≡ listing.now) }
{
    match listing {
        Listing::Artifact { versions, updated } => Ok(Listing::Artifact {
            versions: versions.copied()?,
            updated: *updated,
        }),
        Listing::Snapshot {
            base,
            newest,
            entries,
        } => Ok(Listing::Snapshot {
            base: base.copied(alloc)?,
            newest: *newest,
            entries: entries.copied(alloc)?,
        }),
    }
}

/// Nothing of the same kind.
fn nothing(alloc: Global, listing: &Listing) -> Result<Listing, NoMemory>
    ensures { IfOk result (λ l. l ≡ nothing listing.now) }
{
    match listing {
        Listing::Artifact { .. } => Ok(Listing::Artifact {
            versions: Versions::new(alloc),
            updated: None,
        }),
        Listing::Snapshot { base, .. } => Ok(Listing::Snapshot {
            base: base.copied(alloc)?,
            newest: None,
            entries: Entries::new(alloc),
        }),
    }
}

/// What a document lists with what another one of the same kind does; one of the other kind adds nothing.
fn joined(alloc: Global, listing: Listing, other: &Listing) -> Result<Listing, NoMemory>
    ensures { IfOk result (λ l. l ≡ joined listing other.now) }
{
    match (listing, other) {
        (
            Listing::Artifact {
                mut versions,
                updated,
            },
            Listing::Artifact {
                versions: others,
                updated: later,
            },
        ) => {
            versions.add_all(others)?;
            let updated = latest_time(updated, *later);
            Ok(Listing::Artifact { versions, updated })
        }
        (
            Listing::Snapshot {
                base,
                newest,
                mut entries,
            },
            Listing::Snapshot {
                newest: newer,
                entries: others,
                ..
            },
        ) => {
            entries.add_all(alloc, others)?;
            let newest = newest_build(newest, *newer);
            Ok(Listing::Snapshot {
                base,
                newest,
                entries,
            })
        }
        (listing, _) => Ok(listing),
    }
}

impl Doc {
    ghost use Rattle.mvn_coords.specs.Segment.{is_version_directory};
    ghost use Rattle.mvn_metadata.specs.Form.{is_document, is_entry, is_listing};

    /// The document with these parts, which have the form of a document: a group (`is_group`), an artifact
    /// (`mvn_coords::is_artifact`), and what is listed; this has the form where it lists nothing, or only what
    /// `with_version`, `with_update` and `with_build` add.
    pub fn new(group: Option<Bytes>, artifact: Option<Text>, listing: Listing) -> Doc
        requires { IsTrue (is_document (record { group = group; artifact = artifact; listing = listing })) }
        ensures { result ≡ record { group = group; artifact = artifact; listing = listing } }
    {
        Doc {
            group,
            artifact,
            listing,
        }
    }

    /// What the document lists.
    pub(crate) fn into_listing(self) -> Listing
        ensures listing { result ≡ self.listing }
        ensures form { IsTrue (is_listing result) }
    {
        self.listing
    }

    /// The group with `.` between its segments, in ASCII.
    pub fn group(&self) -> Option<&[u8]>
        ensures { option_copied result ≡ self.now.group }
    {
        match &self.group {
            Some(group) => Some(group.as_slice()),
            None => None,
        }
    }

    /// The artifact.
    pub fn artifact(&self) -> Option<&str>
        ensures { option_copied result ≡ self.now.artifact }
    {
        match &self.artifact {
            Some(artifact) => Some(artifact.as_str()),
            None => None,
        }
    }

    /// What the document lists.
    pub fn listing(&self) -> &Listing
        ensures listing { result.now ≡ self.now.listing }
        ensures form { IsTrue (is_document self.now) }
    {
        &self.listing
    }

    /// The document's coordinates, and nothing listed.
    pub(crate) fn blank(&self, alloc: Global) -> Result<Doc, NoMemory>
        ensures { IfOk result (λ d. d ≡ record self.now { listing = nothing self.now.listing }) }
    {
        Ok(Doc {
            group: copied_bytes(alloc, &self.group)?,
            artifact: copied(alloc, &self.artifact)?,
            listing: nothing(alloc, &self.listing)?,
        })
    }

    /// The document with what another one lists.
    pub(crate) fn with(self, alloc: Global, other: &Doc) -> Result<Doc, NoMemory>
        ensures { IfOk result (λ d. d ≡ merged self other.now) }
    {
        let Doc {
            group,
            artifact,
            listing,
        } = self;
        let listing = joined(alloc, listing, &other.listing)?;
        Ok(Doc {
            group,
            artifact,
            listing,
        })
    }

    /// Another copy of the document, which shares its versions.
    pub fn copied(&self, alloc: Global) -> Result<Doc, NoMemory>
        ensures { IfOk result (λ d. d ≡ self.now) }
    {
        Ok(Doc {
            group: copied_bytes(alloc, &self.group)?,
            artifact: copied(alloc, &self.artifact)?,
            listing: copied_listing(alloc, &self.listing)?,
        })
    }

    /// The document with one more version (a version directory of the layout). A snapshot directory's document lists
    /// none and stays as it is.
    pub fn with_version(self, version: Version) -> Result<Doc, NoMemory>
        requires { IsTrue (is_version_directory version) }
        ensures { IfOk result (λ d. d ≡ record self { listing = with_version self.listing version }) }
    {
        let Doc {
            group,
            artifact,
            listing,
        } = self;
        let listing = with_version(listing, version)?;
        Ok(Doc {
            group,
            artifact,
            listing,
        })
    }

    /// Adds a version (a version directory of the layout) to an artifact's document, which changes at this moment, and gives what undoes
    /// that. A snapshot directory's document lists no versions and stays as it is. On an `Err` the document is as before.
    pub fn add_version(&mut self, version: Version, moment: Stamp) -> Result<Undo, NoMemory>
        requires { IsTrue (is_version_directory version) }
        ensures ok { OnOk result (self.new ≡ record self.old { listing = with_update (with_version self.old.listing version) moment }) }
        ensures undo { IfOk result (λ undo. record self.new { listing = undone self.new.listing undo } ≡ self.old) }
        ensures err { OnErr result (self.new ≡ self.old) }
    {
        stamp_is_civil(moment);
        add_version(&mut self.listing, version, moment)
    }

    /// Undoes one more version. It takes no memory.
    pub fn undo_version(&mut self, undo: &Undo)
        ensures { self.new ≡ record self.old { listing = undone self.old.listing undo.now } }
    {
        time_is_civil(undo.updated);
        undo_version(&mut self.listing, undo);
    }

    /// The document of an artifact that also changed at this moment; another one stays as it is.
    pub fn with_update(self, moment: Stamp) -> Doc
        ensures { result ≡ record self { listing = with_update self.listing moment } }
    {
        let Doc {
            group,
            artifact,
            listing,
        } = self;
        stamp_is_civil(moment);
        let listing = with_update(listing, moment);
        Doc {
            group,
            artifact,
            listing,
        }
    }

    /// The document of a snapshot directory with one more file of a build, which counts where it is the newest of its
    /// pair. An artifact's document lists none and stays as it is. The pair and its build have the form of an entry.
    pub fn with_build(self, pair: Pair, snapshot: SnapshotBuild) -> Result<Doc, NoMemory>
        requires { IsTrue (is_entry (pair, snapshot)) }
        ensures { IfOk result (λ d. d ≡ record self { listing = with_build self.listing (pair, snapshot) }) }
    {
        let Doc {
            group,
            artifact,
            listing,
        } = self;
        let listing = with_build(listing, pair, snapshot)?;
        Ok(Doc {
            group,
            artifact,
            listing,
        })
    }
}

fn with_version(listing: Listing, version: Version) -> Result<Listing, NoMemory>
    ensures { IfOk result (λ l. l ≡ with_version listing version) }
{
    match listing {
        Listing::Artifact {
            mut versions,
            updated,
        } => {
            versions.add(version)?;
            Ok(Listing::Artifact { versions, updated })
        }
        listing => Ok(listing),
    }
}

fn with_update(listing: Listing, moment: Stamp) -> Listing
    ensures { result ≡ with_update listing moment }
{
    match listing {
        Listing::Artifact { versions, updated } => Listing::Artifact {
            versions,
            updated: latest_time(updated, Some(moment)),
        },
        listing => listing,
    }
}

fn with_build(listing: Listing, pair: Pair, snapshot: SnapshotBuild) -> Result<Listing, NoMemory>
    ensures { IfOk result (λ l. l ≡ with_build listing (pair, snapshot)) }
{
    match listing {
        Listing::Snapshot {
            base,
            newest,
            mut entries,
        } => {
            let newest = newest_build(newest, Some(snapshot.build));
            entries.add(pair, snapshot)?;
            Ok(Listing::Snapshot {
                base,
                newest,
                entries,
            })
        }
        listing => Ok(listing),
    }
}
