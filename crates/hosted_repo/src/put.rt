//! What putting a stored blob at a path comes to.
use outside::{Held, Parcel};
use repo_model::Print;

/// What putting a stored blob at a path did. Where the blob is no row's, its parcel comes back.
#[derive(Drop)]
pub enum Put<H: Held> {
    /// It is a new row.
    Created,
    /// The visible row at the path has the same content.
    Same(Parcel<H>),
    /// The row at the path has the same content and is visible again.
    Relisted(Parcel<H>),
    /// The row at the path has another content, of this fingerprint.
    Taken { kept: Print, sent: Parcel<H> },
    /// The records failed. Their count of faults rose in that call, or stands at 2^64 - 1. Nothing is changed.
    StoreFault(Parcel<H>),
    /// There was no memory left. Nothing is changed.
    NoMemory(Parcel<H>),
}
