//! Requests of a stream of bytes and the bytes of answers, in HTTP/1.1 (RFC 9110, RFC 9112).
//!
//! A [`Wire`] takes bytes from a source and gives one request head after the other, and the bodies. Its calls
//! give what `front` of `specs/Front.antt` says of the whole stream, in whatever pieces the bytes come.
//! [`render`] makes the bytes of an [`Answer`].
#![tactic(auto)]

mod answers;
mod faults;
pub mod fields;
mod laws;
mod lines;
mod parser;
mod pieces;
mod requests;
mod search;
mod wires;

pub use answers::{
    Answer, CONTINUE, Content, NO_MEMORY, NO_MEMORY_HEAD, Status, continue_answer,
    no_memory_answer, no_memory_head, render,
};
pub use faults::{HeadFault, WireFault};
pub use laws::{body_follows_head, front_stays, head_is_of_the_grammar, limits};
pub use requests::{BodyLength, Field, Request};
pub use wires::Wire;

/// The most bytes that a head may have, blank lines before it and its empty line included.
pub const HEAD_BYTES: usize = 8192;

/// The most lines that a head may have between its first line and its empty line.
pub const FIELD_LINES: usize = 64;
