//! What is to be fetched from a remote, and what came of it, as plain values.
#![tactic(auto)]

use mvn_digest::Digest;
use texts::Text;

/// What is to be fetched: the file or document at a path below a prefix of a remote, of at most `limit` bytes.
///
/// A file has a draft, the number under which it is to be stored; a document has none. It is fetched for the proxy of an id,
/// which is the `member`th of the group that was asked, counted from 0, or was asked itself, and then `member` is 0.
#[derive(Drop)]
pub struct Plan {
    pub proxy: Text,
    pub member: u64,
    pub host: Text,
    pub port: u16,
    pub prefix: Text,
    pub path: Text,
    pub draft: Option<u64>,
    pub limit: u64,
}

/// What came of a fetch.
#[derive(Drop)]
pub enum Outcome<G> {
    /// The remote has it, and a side file of the remote says its digest.
    Got(G),
    /// The remote has nothing there.
    Gone,
    /// The remote answered with this status.
    Refused(u16),
    /// The remote has no side file, or the one it has says no digest.
    NoChecksum,
    /// The side file says another digest than the bytes have.
    Differs { said: Digest, found: Digest },
    /// The answer, its body or the document is too long.
    TooLarge,
    /// The answer does not read, at this byte.
    BadAnswer { at: u64 },
    /// The document does not read, at this byte.
    BadDocument { at: u64 },
    /// The exchange failed.
    Fault,
}
