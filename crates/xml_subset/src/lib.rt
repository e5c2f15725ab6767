//! A subset of XML 1.0 (Fifth Edition), read from bytes: elements with attributes, character data, references to
//! characters, comments and the declaration. Document types, CDATA sections and other processing instructions are
//! refused. Time and memory are linear in the text.
#![tactic(auto)]

mod cut;
mod document;
pub mod laws;
mod reference;
mod tag;
mod token;
mod tree;

pub use document::{Element, MAX_DEPTH, XmlFault, outline};
