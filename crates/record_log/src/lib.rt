//! The lowest layer of a journal: a file of records, each a payload of bytes that is on the disk before it is acknowledged.
//!
//! A frame's gate is opened by a write of its own, once the frame is on the disk. So at each moment a crash leaves the
//! acknowledged payloads, or these and the one under way.
#![tactic(auto)]

mod faults;
mod frame;
mod frames;
mod laws;
mod log;
mod mend;
mod walker;

pub use faults::LogFault;
pub use frames::{Frame, MAGIC};
pub use laws::laws_of_logs;
pub use log::Log;
pub use walker::Frames;
