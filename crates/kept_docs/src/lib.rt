//! The documents of directories, kept as they are written: a visible row changes those of its directories in their places, which can be
//! undone without memory; and what several rows write anew takes the place of the old at once, without memory.
#![tactic(auto)]

mod changing;
mod docs;
mod drafts;
mod laws;
mod pages;
mod preparing;

pub use changing::{RowChange, add_row, undo_row};
pub use docs::Docs;
pub use drafts::Drafts;
pub use laws::document_laws;
pub use pages::Page;
pub use preparing::prepared;
