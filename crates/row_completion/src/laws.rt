//! What it comes to that rows are completed, as the contract of a function that does nothing.
ghost use Rattle.std.specs.Prelude.{◌≡◌, List, map};
ghost use Rattle.outside.specs.Blobs.{Shelf};
ghost use Rattle.repo_model.specs.Restart.{blobs_named};
ghost use Rattle.repo_model.specs.Tables.{RecordedRow, Tables};
ghost use Rattle.repo_laws.specs.InRange.{Completes};
ghost use Rattle.row_completion.specs.Completion.{AreDigested, IsComplete, IsDigested, bare_row};

/// Tables whose rows are given their further digests are else the same, blobs and all; where all rows had them they are the
/// same tables.
pub fn digests_change_nothing_else()
    ensures itself { (shelf : Shelf) (t : Tables) → IsDigested shelf t t }
    ensures complete { (shelf : Shelf) (old new : Tables) → IsComplete old → IsDigested shelf old new → new ≡ old }
    ensures bare { (shelf : Shelf) (old new : List RecordedRow) → AreDigested shelf old new → map bare_row new ≡ map bare_row old }
    ensures completes { (shelf : Shelf) (old new : Tables) → IsDigested shelf old new → Completes old new }
    ensures numbers { (shelf : Shelf) (old new : Tables) → IsDigested shelf old new → blobs_named new ≡ blobs_named old }
{}
