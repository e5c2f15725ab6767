//! Changes as bytes: how they are written, and how they are read again with the place of the first fault.
#![tactic(auto)]

mod faults;
mod fields;
mod items;
pub mod laws;
mod numbers;
mod places;
mod strings;
mod taking;
mod writing;

pub use faults::RowFault;
pub use places::start_of;
pub use taking::take;
pub use writing::put;
