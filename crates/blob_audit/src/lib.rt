//! Looks whether the blobs of all recorded files are what was recorded of them.
#![tactic(auto)]

mod audits;
mod damages;
mod faults;
mod lengths;
mod looking;
mod order;

pub use audits::audit;
pub use damages::{Audit, Damaged, damage_of};
pub use faults::AuditFault;
pub use lengths::sizes;
pub use looking::{Found, look_at};
pub use order::{RecordedFile, all_files};
