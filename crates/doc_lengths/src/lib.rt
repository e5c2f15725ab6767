//! How long the written text of a document is, counted without writing it (Maven repository metadata 1.1.0).
#![tactic(auto)]

mod lengths;

pub use lengths::text_length;
