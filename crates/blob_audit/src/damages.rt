//! The recorded files whose blobs are not what was recorded.
ghost use Rattle.std.specs.Prelude.{◌≡◌, ◌∷◌, ◌++◌, [], IfOk, OnOk, map};
ghost use Rattle.outside.specs.Blobs.{HasBlobCause};
ghost use Rattle.blob_audit.specs.Damages.{AreDamaged, damaged_row};
ghost use Rattle.blob_audit.specs.Files.{shown_file};

use crate::lengths::sizes;
use crate::looking::{Found, look_at};
use crate::order::RecordedFile;
use outside::{BlobFault, Blobs, Piece};
use repo_model::{Print, Recorded};
use std::alloc::{AllocError, Global};
use texts::Text;

/// A recorded file whose blob has another length than the recorded one, or another of the digests that are recorded, or is
/// not there.
#[derive(Drop)]
pub struct Damaged {
    /// The id of its repository.
    pub repo: Text,
    /// Its path.
    pub path: Text,
    /// What was recorded of its content.
    pub recorded: Recorded,
    /// That of the blob; none where there is no blob.
    pub found: Option<Print>,
}

/// What a look at all recorded files has found.
#[derive(Drop)]
pub struct Audit {
    /// How many files were looked at.
    pub looked: u64,
    /// The damaged ones, in byte order of repository and then of path, a hosted file before a proxy's.
    pub damaged: Vec<Damaged>,
}

/// The damage of a file of whose blob this was found.
pub fn damage_of(
    alloc: Global,
    file: &RecordedFile<'_>,
    found: Option<Print>,
) -> Result<Damaged, AllocError>
    ensures { IfOk result (λ one. one ≡ damaged_row (shown_file file.now).row found) }
{
    sizes(file.row.print);
    Ok(Damaged {
        repo: Text::new(alloc, &file.place.0)?,
        path: Text::new(alloc, &file.place.1)?,
        recorded: file.row.print,
        found,
    })
}

// Adds a file of whose blob this was found.
fn push_damaged(
    alloc: Global,
    damaged: &mut Vec<Damaged>,
    file: &RecordedFile<'_>,
    found: Option<Print>,
) -> Result<(), AllocError>
    ensures { OnOk result (damaged.new.items ≡ damaged.old.items ++ damaged_row (shown_file file.now).row found ∷ []) }
{
    let one = damage_of(alloc, file, found)?;
    damaged.push(one)?;
    Ok(())
}

/// The damaged ones of some recorded files, in their order. Each blob is read once, all in the same 64 KiB.
pub fn damages<B: Blobs>(
    alloc: Global,
    blobs: &mut B,
    files: &[RecordedFile<'_>],
) -> Result<Vec<Damaged>, BlobFault>
    ensures cause { HasBlobCause (B.faults blobs.old) (B.faults blobs.new) result }
    ensures damaged { IfOk result (λ found. AreDamaged (B.shelf blobs.old) (map (λ f. (shown_file f).row) files.now) found.items) }
    ensures kept { B.shelf blobs.new ≡ B.shelf blobs.old }
{
    let mut damaged = Vec::new(alloc);
    let mut room = Piece::new(alloc)?;
    for file in files {
        match look_at(blobs, file.row, &mut room)? {
            Found::Whole(_) => {}
            Found::Other(found) => push_damaged(alloc, &mut damaged, file, found)?,
        }
    }
    Ok(damaged)
}
