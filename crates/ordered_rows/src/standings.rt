//! What stands at a path, beside a content.
use repo_model::Print;

/// What stands at a path, beside a content.
#[derive(Clone, Copy, Debug)]
pub enum Standing {
    /// No row.
    Free,
    /// A row of another content, of this fingerprint.
    Other(Print),
    /// A visible row of the same content.
    Same,
    /// A row of the same content that is unlisted.
    Unlisted,
}
