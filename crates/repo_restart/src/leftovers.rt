//! Stored blobs that no row names are removed.
ghost use Rattle.std.specs.Prelude.{◌≡◌, ◌∷◌, ◌++◌, [], ℕ, List, IfOk, OnOk, OnErr};
ghost use Rattle.std.specs.List.Sorted.{IsNonDecreasing};
ghost use Rattle.outside.specs.Blobs.{HasBlobCause};
ghost use Rattle.repo_restart.specs.Leftovers.{Clears, ClearsFront, left_over, without_blobs};

use crate::numbers::{greatest_from, is_named, sorted_numbers};
use outside::{BlobFault, Blobs};
use std::alloc::Global;

// Removes the blob of a number that is not named.
fn remove_unnamed<B: Blobs>(blobs: &mut B, sorted: &[u64], number: u64) -> Result<(), BlobFault>
    requires { IsNonDecreasing sorted.now }
    ensures cause { HasBlobCause (B.faults blobs.old) (B.faults blobs.new) result }
    ensures ok { OnOk result (B.shelf blobs.new ≡ without_blobs (left_over sorted.now (number ∷ [])) (B.shelf blobs.old)) }
    ensures err { OnErr result (B.shelf blobs.new ≡ B.shelf blobs.old) }
{
    if is_named(sorted, number) {
        return Ok(());
    }
    blobs.remove(number)
}

// Removes the stored blobs that are not named, in their order; at a fault the first ones are gone.
fn remove_left_over<B: Blobs>(
    blobs: &mut B,
    sorted: &[u64],
    stored: &[u64],
) -> Result<(), BlobFault>
    requires { IsNonDecreasing sorted.now }
    ensures cause { HasBlobCause (B.faults blobs.old) (B.faults blobs.new) result }
    ensures ok { OnOk result (B.shelf blobs.new ≡ without_blobs (left_over sorted.now stored.now) (B.shelf blobs.old)) }
    ensures err { OnErr result ((gone rest : List ℕ) × (left_over sorted.now stored.now ≡ gone ++ rest)
        × (B.shelf blobs.new ≡ without_blobs gone (B.shelf blobs.old))) }
{
    for number in stored {
        remove_unnamed(blobs, sorted, *number)?;
    }
    Ok(())
}

/// Removes the stored blobs that are not named, in the order of the store, and gives the next number: one more than the
/// greatest below 2^63 of all that are named or stored, or 1. At a fault the first ones are gone and no others.
pub fn clear<B: Blobs>(alloc: Global, named: &[u64], blobs: &mut B) -> Result<u64, BlobFault>
    ensures ok { IfOk result (Clears named.now (B.shelf blobs.old) (B.shelf blobs.new)) }
    ensures err { OnErr result (ClearsFront named.now (B.shelf blobs.old) (B.shelf blobs.new)) }
    ensures cause { HasBlobCause (B.faults blobs.old) (B.faults blobs.new) result }
{
    let sorted = sorted_numbers(alloc, named)?;
    let stored = blobs.list()?;
    remove_left_over(blobs, &sorted, &stored)?;
    Ok(greatest_from(greatest_from(0, named), &stored) + 1)
}
