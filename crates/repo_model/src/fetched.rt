//! What lands of a fetch.
use mvn_metadata::Doc;
use outside::{Held, Parcel};

/// A file that is stored, or a document.
#[derive(Drop)]
pub enum Got<H: Held> {
    File(Parcel<H>),
    Doc(Doc),
}
