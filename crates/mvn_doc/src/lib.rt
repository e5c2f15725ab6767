//! The document `maven-metadata.xml` (Maven repository metadata 1.1.0) as text: how it is read, and its one written form.
//! What it holds, how it is settled for a directory and how documents are merged is `mvn_metadata`'s.
#![tactic(auto)]

pub mod laws;
mod picked;
mod place;
mod reading;
mod sheet;
mod sizes;
mod value;
mod writing;

pub use reading::{DocFault, read};
pub use writing::write;
