//! What settling a document for its directory makes of its text.
//!
//! No function here has code: its contract is the law.
#![tactic(auto)]

mod laws;

pub use laws::settled_documents;
