//! What holds of all changes and their bytes, as contracts of functions that do nothing.
ghost use Rattle.repo_rows.specs.Laws.{ReadsAgain, WasWritten};

/// A change is read from its bytes, and what is read was written so.
pub fn row_laws()
    ensures again { ReadsAgain }
    ensures written { WasWritten }
{}
