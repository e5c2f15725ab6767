//! The greatest of the moments that are recorded.
ghost use Rattle.std.specs.Prelude.{◌≡◌, [], fold, max};
ghost use Rattle.std.specs.BTreeMap.{values};
ghost use Rattle.repo_model.specs.Tables.{RecordedRow, RecordedDocument, moment_of};
ghost use Rattle.row_tables.specs.declared.files.FileRow.{FileRow};
ghost use Rattle.row_tables.specs.Stored.{shown_rows, shown_documents, shown_row};

use crate::documents::KeptDocument;
use crate::files::{FileRow, Place, RowPhase};
use std::collections::BTreeMap;

// The moment when a file was accepted, or since when it is unlisted if that is greater.
fn moment_of(row: &FileRow) -> u64
    ensures { result ≡ moment_of (shown_row [] row.now) }
{
    match row.phase {
        RowPhase::Listed => row.accepted,
        RowPhase::Fading(since) => row.accepted.max(since),
    }
}

/// The greatest moment of some files, or another one that is greater.
pub fn latest_file(rows: &BTreeMap<Place, FileRow>, other: u64) -> u64
    ensures { result ≡ fold (λ m (r : RecordedRow). max m (moment_of r.row)) other (shown_rows rows.now.entries) }
{
    rows.values()
        .fold(other, |latest, row| latest.max(moment_of(row)))
}

/// The greatest moment when one of some documents was asked for, or another one that is greater.
pub fn latest_document(documents: &BTreeMap<Place, KeptDocument>, other: u64) -> u64
    ensures { result ≡ fold (λ m (d : RecordedDocument). max m d.checked) other (shown_documents documents.now.entries) }
{
    documents
        .values()
        .fold(other, |latest, kept| latest.max(kept.checked))
}
