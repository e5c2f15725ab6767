//! Blobs that are stored and read whole, in one call: for tests.
ghost use Rattle.std.specs.Prelude.{◌≡◌, ◌++◌, IfOk, OnOk};
ghost use Rattle.outside.specs.Blobs.{HasBlobCause};
ghost use Rattle.outside.specs.Told.{IsWhereTold};

use outside::{BlobFault, Blobs, NoMemory, PIECE_BYTES, Piece};
use std::alloc::Global;

/// Stores these bytes under a number: the blob is begun, all of it appended, and sealed.
pub fn store_whole<B: Blobs>(blobs: &mut B, blob: u64, bytes: &[u8]) -> Result<B::Held, BlobFault>
    ensures cause { HasBlobCause (B.faults blobs.old) (B.faults blobs.new) result }
    ensures told { IfOk result (λ held. IsWhereTold (B.Held.bytes held) bytes.now) }
{
    let mut pen = blobs.begin(blob)?;
    blobs.append(&mut pen, bytes)?;
    blobs.seal(pen)
}

// Adds a piece at the end.
fn add(bytes: &mut Vec<u8>, piece: &[u8]) -> Result<(), NoMemory>
    ensures { OnOk result (bytes.new.items ≡ bytes.old.items ++ piece.now) }
{
    bytes.extend_from_slice(piece)?;
    Ok(())
}

/// Reads all bytes of a stored blob.
pub fn read_whole<B: Blobs>(
    alloc: Global,
    blobs: &mut B,
    held: &B::Held,
) -> Result<Vec<u8>, BlobFault>
    ensures cause { HasBlobCause (B.faults blobs.old) (B.faults blobs.new) result }
    ensures told { IfOk result (λ bytes. IsWhereTold (B.Held.bytes held.now) bytes.items) }
{
    let mut room = Piece::new(alloc)?;
    let mut bytes = Vec::new(alloc);
    let mut at = 0;
    'pieces: loop {
        room.fill(blobs, held, at, PIECE_BYTES as u64)?;
        let piece = room.bytes();
        add(&mut bytes, piece)?;
        at += piece.len() as u64;
        if piece.len() < PIECE_BYTES {
            return Ok(bytes);
        }
    }
}
