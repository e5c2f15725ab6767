//! The folder in which a program keeps what outlasts it: a file with its records, one for each blob, and a lock.
#![tactic(auto)]

mod disk;
mod lock;
mod opening;
mod reporting;

pub use disk::FolderDisk;
pub use lock::LockFile;
pub use opening::{blobs_in, find_disk, open_disk};
pub use reporting::ReportingDisk;
