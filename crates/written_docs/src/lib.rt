//! A document with its written text, of which shares are taken, and the digests of that.
#![tactic(auto)]

mod document;

pub use document::{WrittenDoc, text_of, written};
