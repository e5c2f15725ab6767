//! What a repository has at a path.
ghost use Rattle.std.specs.Prelude.{◌≡◌};
ghost use Rattle.std.proofs.Props.{props};
ghost use Rattle.mvn_digest.specs.Digests.{digests_of};

use mvn_digest::{Digests, SideText};
use outside::{Held, Parcel};
use shared_bytes::SharedBytes;

/// What a repository has at a path: a file's blob, lent; the text of a side file; or the written document of a directory, with
/// its digests.
#[derive(Drop)]
pub enum Seen<'a, H: Held> {
    File(&'a Parcel<H>),
    Text(SideText),
    Doc(DocText),
}

/// A written document, which may have other shares, and its digests.
#[derive(Drop)]
pub struct DocText {
    pub text: SharedBytes,
    pub digests: Digests,
    pub ghost described: { digests ≡ digests_of text } by { Prim.hlevel props },
}
