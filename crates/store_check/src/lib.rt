//! A check of what is recorded: which files are not there as they were recorded, as lines, with the status that tells it.
#![tactic(auto)]

mod checking;
mod lines;
mod running;

pub use blob_audit::AuditFault;
pub use checking::{check_store, refuse_damaged, refuse_store};
pub use running::check;
