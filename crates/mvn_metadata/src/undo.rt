//! One more version of a document, and what undoes it.
ghost use Rattle.std.specs.Prelude.{◌≡◌, IfOk, IsTrue, OnErr, OnOk};
ghost use Rattle.mvn_metadata.specs.Document.{latest_time, with_update, with_version};
ghost use Rattle.mvn_metadata.specs.Undo.{undone};

use crate::doc::latest_time;
use crate::{Listing, NoMemory};
use mvn_coords::Stamp;
use mvn_version::Version;

/// What undoes one more version of a document: that version, where its text was not listed before, and when the document had last
/// changed.
#[derive(Drop)]
pub struct Undo {
    version: Option<Version>,
    pub(crate) updated: Option<Stamp>,
}

/// Lists one more version and moment of change of an artifact, and gives what undoes that. What a snapshot directory's document lists
/// stays as it is. On an `Err` nothing is changed.
pub(crate) fn add_version(
    listing: &mut Listing,
    version: Version,
    moment: Stamp,
) -> Result<Undo, NoMemory>
    ensures ok { OnOk result (listing.new ≡ with_update (with_version listing.old version) moment) }
    ensures undo { IfOk result (λ undo. undone listing.new undo ≡ listing.old) }
    ensures err { OnErr result (listing.new ≡ listing.old) }
{
    let Listing::Artifact { versions, updated } = listing else {
        return Ok(Undo {
            version: None,
            updated: None,
        });
    };
    let listed = version.clone()?;
    let is_new = versions.add(version)?;
    let undo = Undo {
        version: if is_new { Some(listed) } else { None },
        updated: *updated,
    };
    *updated = latest_time(*updated, Some(moment));
    Ok(undo)
}

/// Undoes one more version. It takes no memory.
pub(crate) fn undo_version(listing: &mut Listing, undo: &Undo)
    ensures { listing.new ≡ undone listing.old undo.now }
{
    let Listing::Artifact { versions, updated } = listing else {
        return;
    };
    if let Some(version) = &undo.version {
        versions.remove(version);
    }
    *updated = undo.updated;
}
