//! Documents that are written, to be put in the places of those that are kept.
use written_docs::WrittenDoc;

/// What the directory at a path is to have: a document, or none.
#[derive(Drop)]
pub struct Page {
    pub path: String,
    pub kept: Option<WrittenDoc>,
}
