//! Stored blobs in memory that several threads use at once, and which show that these threads run at once.
#![tactic(auto)]

mod held_blobs;
mod meeting;

pub use held_blobs::HeldBlobs;
