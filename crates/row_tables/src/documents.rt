//! Kept documents in an ordered map.
ghost use Rattle.std.specs.Prelude.{◌≡◌, OnOk, OnErr};
ghost use Rattle.repo_model.specs.Tables.{with_document};
ghost use Rattle.row_tables.specs.Stored.{shown_document, shown_documents};

use crate::files::Place;
use mvn_metadata::Doc;
use std::alloc::AllocError;
use std::collections::BTreeMap;

/// A document that a proxy keeps, and when it asked for it.
#[derive(Drop)]
pub struct KeptDocument {
    pub checked: u64,
    pub document: Doc,
}

/// Keeps a document at a place, instead of the one that is there.
pub fn keep_document(
    documents: &mut BTreeMap<Place, KeptDocument>,
    place: Place,
    kept: KeptDocument,
) -> Result<(), AllocError>
    ensures ok { OnOk result (shown_documents documents.new.entries
        ≡ with_document (shown_document (place, kept)) (shown_documents documents.old.entries)) }
    ensures err { OnErr result (shown_documents documents.new.entries ≡ shown_documents documents.old.entries) }
{
    documents.insert(place, kept)?;
    Ok(())
}
