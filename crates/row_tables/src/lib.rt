//! What is recorded: items, the changes that are made of them, and the tables that they build up.
#![tactic(auto)]

mod applying;
mod change;
mod copies;
mod documents;
mod faults;
mod files;
mod memory;
mod moments;
mod paths;
mod records;
mod sessions;
mod tables;
mod version;

pub use change::Change;
pub use documents::KeptDocument;
pub use faults::{ApplyFault, CommitFault, LoadFault};
pub use files::{FileRow, Place, RowPhase};
pub use memory::MemRecords;
pub use records::Records;
pub use sessions::SessionRow;
pub use tables::Tables;
pub use version::Version;
