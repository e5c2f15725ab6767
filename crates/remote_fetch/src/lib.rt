//! Files and documents fetched from a remote server with their side files, over any remote: what its answers come to.
#![tactic(auto)]

mod asking;
mod contents;
mod fetching;
mod heads;
pub mod laws;
mod replies;

pub use contents::{Content, fetch};
pub use fetching::Checked;
pub use replies::{Reply, read_answer};

/// The most bytes of a side file.
pub const LONGEST_SIDE: u64 = 1024;

/// The most bytes of a file or document that can be asked for.
pub const LONGEST_BODY: u64 = 16_777_216;

/// The most bytes that the written text of a document may have.
pub const LONGEST_TEXT: usize = 4_000_000;
