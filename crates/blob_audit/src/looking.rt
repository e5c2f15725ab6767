//! A look at the blob of one recorded file.
ghost use Rattle.std.specs.Prelude.{◌≡◌, IfOk};
ghost use Rattle.outside.specs.Blobs.{HasBlobCause};
ghost use Rattle.blob_audit.specs.Damages.{IsFound};
ghost use Rattle.blob_audit.specs.Found.{found_in, IsJudged, IsParcelOf};
ghost use Rattle.repo_model.specs.Prints.{print_in};

use crate::lengths::sizes;
use outside::{BlobFault, Blobs, CheckFault, Held, Parcel, Piece, adopt_checked};
use repo_model::{Print, Recorded};
use row_tables::FileRow;

/// What a store has under the number of a recorded file's blob.
#[derive(Drop)]
pub enum Found<H: Held> {
    /// The recorded content, taken into use.
    Whole(Parcel<H>),
    /// Another content, of this fingerprint; or none.
    Other(Option<Print>),
}

/// Looks at the blob of a recorded file: reads it once, piece by piece in the room that is lent, and compares its length and
/// each digest that is recorded.
pub fn look_at<B: Blobs>(
    blobs: &mut B,
    row: &FileRow,
    room: &mut Piece,
) -> Result<Found<B::Held>, BlobFault>
    ensures cause { HasBlobCause (B.faults blobs.old) (B.faults blobs.new) result }
    ensures found { IfOk result (λ f. IsFound (B.shelf blobs.old) row.now.blob (found_in f)) }
    ensures judged { IfOk result (IsJudged (print_in row.now.print)) }
    ensures parcel { IfOk result (IsParcelOf B.Held.bytes (B.shelf blobs.old) row.now.blob) }
    ensures kept { B.shelf blobs.new ≡ B.shelf blobs.old }
{
    sizes(row.print);
    let Recorded { length, digests } = row.print;
    match adopt_checked(blobs, row.blob, length, &digests, room) {
        Ok(Some(parcel)) => Ok(Found::Whole(parcel)),
        Ok(None) => Ok(Found::Other(None)),
        Err(CheckFault::Differs { length, digests }) => {
            Ok(Found::Other(Some(Print { length, digests })))
        }
        Err(CheckFault::Failed) => Err(BlobFault::Failed),
        Err(CheckFault::NoMemory) => Err(BlobFault::NoMemory),
    }
}
