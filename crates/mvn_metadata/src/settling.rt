//! A document as that of a directory.
ghost use Rattle.std.specs.Prelude.{◌≡◌, IfOk, map, if◌then◌else◌, ◌==◌};
ghost use Rattle.std.specs.Option.{option_copied};
ghost use Rattle.mvn_metadata.specs.Document.{blank, dotted, of_kind, settled};

use crate::{Doc, Entries, Listing, NoMemory, Versions};
use mvn_coords::Dir;
use mvn_coords::laws::directory_is_ruled;
use std::alloc::Global;
use texts::{Bytes, Text};

/// The document as that of a directory (Maven repository metadata 1.1.0): group, artifact and base version are the
/// directory's. In a snapshot directory the newest build and the entries of its version stay, else the versions and when
/// they changed.
pub fn settle(alloc: Global, doc: Doc, dir: &Dir<'_>) -> Result<Doc, NoMemory>
    ensures { IfOk result (λ d. d ≡ settled doc dir.now) }
{
    let listing = of_kind(alloc, dir.version(), doc.into_listing())?;
    let group = dotted(alloc, dir.group())?;
    let artifact = Text::new(alloc, dir.artifact())?;
    directory_is_ruled(dir);
    Ok(Doc::new(group, Some(artifact), listing))
}

/// The document of a directory, in which nothing is listed.
pub fn empty(alloc: Global, dir: &Dir<'_>) -> Result<Doc, NoMemory>
    ensures { IfOk result (λ d. d ≡ settled blank dir.now) }
{
    let listing = Listing::Artifact {
        versions: Versions::new(alloc),
        updated: None,
    };
    settle(alloc, Doc::new(None, None, listing), dir)
}

/// A group's segments with `.` between them.
fn dotted(alloc: Global, group: &str) -> Result<Option<Bytes>, NoMemory>
    ensures { IfOk result (λ t. t ≡ dotted group.now) }
{
    if group.is_empty() {
        return Ok(None);
    }
    let bytes = with_dots(alloc, group.as_bytes())?;
    Ok(Some(Bytes::from_vec(bytes)))
}

fn with_dots(alloc: Global, group: &[u8]) -> Result<Vec<u8>, NoMemory>
    ensures { IfOk result (λ v. v.items ≡ map (λ b. if b == 47 then 46 else b) group.now) }
{
    group
        .iter()
        .map(|b| if *b == b'/' { b'.' } else { *b })
        .collect(alloc)
}

/// What is listed of an artifact, or of a snapshot directory.
fn of_kind(alloc: Global, version: Option<&str>, listing: Listing) -> Result<Listing, NoMemory>
    ensures { IfOk result (λ l. l ≡ of_kind (option_copied version.entry) listing) }
{
    let Some(version) = version else {
        return Ok(match listing {
            Listing::Snapshot { .. } => Listing::Artifact {
                versions: Versions::new(alloc),
                updated: None,
            },
            listing => listing,
        });
    };
    let base = Text::new(alloc, version)?;
    match listing {
        Listing::Artifact { .. } => Ok(Listing::Snapshot {
            base,
            newest: None,
            entries: Entries::new(alloc),
        }),
        Listing::Snapshot {
            newest,
            mut entries,
            ..
        } => {
            entries.keep_of(version);
            Ok(Listing::Snapshot {
                base,
                newest,
                entries,
            })
        }
    }
}
