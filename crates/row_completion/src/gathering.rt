//! The further digests of recorded files, found in their blobs.
ghost use Rattle.std.specs.Prelude.{◌≡◌, ◌∷◌, ◌++◌, [], IfOk, OnOk, map};
ghost use Rattle.mvn_digest.specs.Digests.{further_in};
ghost use Rattle.blob_audit.specs.Damages.{AreDamaged, IsFirstDamaged};
ghost use Rattle.blob_audit.specs.Files.{shown_file};
ghost use Rattle.row_completion.specs.Faults.{HasFindCause, OnDamage};
ghost use Rattle.row_completion.specs.Gathering.{Adds, AreItemsOf, items_of};

use crate::faults::CompletionFault;
use blob_audit::{Found, RecordedFile, damage_of, look_at, sizes};
use mvn_digest::Digests;
use outside::{Blobs, NoMemory, Piece};
use repo_model::Item;
use std::alloc::Global;
use texts::Text;

// Adds what is to be recorded of a file with these digests.
fn add_item(
    alloc: Global,
    items: &mut Vec<Item>,
    file: &RecordedFile<'_>,
    digests: Digests,
) -> Result<(), NoMemory>
    ensures { OnOk result (items.new.items ≡ items.old.items ++ items_of (shown_file file.now) (further_in digests)) }
{
    sizes(file.row.print);
    if file.row.print.digests.further.is_some() {
        return Ok(());
    }
    items.push(Item::Digested {
        repo: Text::new(alloc, file.place.0.as_str())?,
        path: Text::new(alloc, file.place.1.as_str())?,
        further: digests.further(),
    })?;
    Ok(())
}

// Looks at the blob of a recorded file in the room that is lent, and adds what is to be recorded of it.
fn add_found<B: Blobs>(
    alloc: Global,
    blobs: &mut B,
    items: &mut Vec<Item>,
    file: &RecordedFile<'_>,
    room: &mut Piece,
) -> Result<(), CompletionFault>
    ensures found { OnOk result (Adds (B.shelf blobs.old) (shown_file file.now) items.old.items items.new.items) }
    ensures damaged { OnDamage result (λ damage. AreDamaged (B.shelf blobs.old) ((shown_file file.now).row ∷ []) (damage ∷ [])) }
    ensures cause { HasFindCause (B.faults blobs.old) (B.faults blobs.new) result }
    ensures kept { B.shelf blobs.new ≡ B.shelf blobs.old }
{
    match look_at(blobs, file.row, room)? {
        Found::Whole(parcel) => add_item(alloc, items, file, parcel.digests)?,
        Found::Other(found) => return Err(CompletionFault::Damaged(damage_of(alloc, file, found)?)),
    }
    Ok(())
}

/// What is to be recorded of files that lack their further digests, in the order of the files. Each blob is read once,
/// all in the same 64 KiB.
/// `Damaged` comes at the first file whose blob is not the recorded one.
pub fn items_of_files<B: Blobs>(
    alloc: Global,
    blobs: &mut B,
    files: &[RecordedFile<'_>],
) -> Result<Vec<Item>, CompletionFault>
    ensures items { IfOk result (λ items. AreItemsOf (B.shelf blobs.old) (map shown_file files.now) items.items) }
    ensures damaged { OnDamage result (IsFirstDamaged (B.shelf blobs.old) (map (λ f. (shown_file f).row) files.now)) }
    ensures cause { HasFindCause (B.faults blobs.old) (B.faults blobs.new) result }
    ensures kept { B.shelf blobs.new ≡ B.shelf blobs.old }
{
    let mut items = Vec::new(alloc);
    let mut room = Piece::new(alloc)?;
    for file in files {
        add_found(alloc, blobs, &mut items, file, &mut room)?;
    }
    Ok(items)
}
