//! Which files a document names, by what is written in it, which files stay as they are, and which drafts and leases are left at the
//! end of a history.
//!
//! No function here has code: its contract is the law.
#![tactic(auto)]

mod documents;
mod ends;
mod puts;

pub use documents::{documents_name_their_rows, given_files_are_answered, worked_documents_name};
pub use ends::what_is_left_was_given;
pub use puts::{files_stay_until_collected, puts_again_keep_files};
