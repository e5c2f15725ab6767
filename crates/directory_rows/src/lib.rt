//! The rows of a directory: a walk over them, the document that they make, and which of them are to fade.
#![tactic(auto)]

mod documents;
mod dues;
mod rule;
mod walk;

pub use documents::{document_of, is_in, with_file};
pub use dues::{MOST_ROWS, due_paths};
pub use rule::Rule;
