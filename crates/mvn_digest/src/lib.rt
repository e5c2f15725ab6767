//! SHA-1, MD5, SHA-256 and SHA-512 of a stream of bytes, taken in one pass, and the side files that say them: their texts
//! in hexadecimal, written and read.
//!
//! A Maven repository has side files beside each file that say these digests. SHA-1, SHA-256 and SHA-512 are those of
//! FIPS 180-4, MD5 is that of RFC 1321. They are checksums against damage here and no protection against an attacker.
#![tactic(auto)]

mod digests;
mod hashes;
mod known;
pub mod laws;
mod message;
mod sides;

pub use digests::{
    Digest, Digests, MD5_BYTES, MD5_DIGITS, SHA1_BYTES, SHA1_DIGITS, SHA256_BYTES, SHA256_DIGITS,
    SHA512_BYTES, SHA512_DIGITS,
};
pub use hashes::Hashes;
pub use known::{Further, Known};
pub use sides::{SideText, read_side, side_text};
