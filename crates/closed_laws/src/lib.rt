//! What a served document names is served: the laws of the repository's documents, carried to what is seen of a stream.
//!
//! No function here has code: its contract is the law.
#![tactic(auto)]

mod laws;

pub use laws::{named_files_are_served, reads_are_answered, streams_serve_named_files};
