//! Bytes fetched with their side file.
ghost use Rattle.std.specs.Prelude.{◌≡◌, ◌≤◌, IfOk, OnErr};
ghost use Rattle.mvn_digest.specs.Digests.{digests_of};
ghost use Rattle.remote_fetch.specs.Exchanged.{Reaches};
ghost use Rattle.remote_fetch.specs.Fetching.{IsByMd5, IsChecked, IsSided, agreed, body_in, said_of};

use crate::LONGEST_SIDE;
use crate::asking::ask;
use crate::replies::Reply;
use fetch_plan::{Outcome, Plan};
use mvn_coords::Side;
use mvn_digest::{Digests, Hashes, read_side};
use outside_remote::Remote;
use std::alloc::{AllocError, Global};
use texts::Bytes;

/// Bytes of which a side file of the remote says the digest, and all their digests.
#[derive(Drop)]
pub struct Checked {
    pub bytes: Bytes,
    pub digests: Digests,
}

fn digests_of(bytes: &[u8]) -> Digests
    ensures { result ≡ digests_of bytes.now }
{
    let mut hashes = Hashes::new();
    hashes.update(bytes);
    hashes.finish()
}

/// What the text of a side file makes of bytes.
fn agreed(bytes: Bytes, side: Side, text: &[u8]) -> Outcome<Checked>
    ensures { result ≡ agreed bytes side text.now }
{
    let Some(said) = read_side(text, side) else {
        return Outcome::NoChecksum;
    };
    let digests = digests_of(bytes.as_slice());
    let found = digests.of(side);
    if said == found {
        Outcome::Got(Checked { bytes, digests })
    } else {
        Outcome::Differs { said, found }
    }
}

/// What the reply for a side file makes of bytes.
fn said(bytes: Bytes, side: Side, reply: Reply) -> Outcome<Checked>
    ensures { result ≡ said_of bytes side reply }
{
    match reply {
        Reply::Body(text) => agreed(bytes, side, text.as_slice()),
        Reply::Gone => Outcome::NoChecksum,
        Reply::Refused(status) => Outcome::Refused(status),
        Reply::TooLarge => Outcome::TooLarge,
        Reply::Bad { at } => Outcome::BadAnswer { at },
        Reply::Fault => Outcome::Fault,
    }
}

/// What the MD5 side file makes of bytes.
fn by_md5<R: Remote>(
    alloc: Global,
    remote: &mut R,
    plan: &Plan,
    bytes: Bytes,
) -> Result<Outcome<Checked>, AllocError>
    ensures outcome { IfOk result (λ outcome. IsByMd5 plan.now bytes outcome (R.sees remote.old) (R.sees remote.new)) }
    ensures no_memory { OnErr result (Reaches 1 (R.sees remote.old) (R.sees remote.new)) }
{
    let reply = ask(alloc, remote, plan, b".md5", LONGEST_SIDE)?;
    Ok(said(bytes, Side::Md5, reply))
}

/// What the side files make of bytes: that of SHA-1, and where it is not there, that of MD5.
fn by_sides<R: Remote>(
    alloc: Global,
    remote: &mut R,
    plan: &Plan,
    bytes: Bytes,
) -> Result<Outcome<Checked>, AllocError>
    ensures outcome { IfOk result (λ outcome. IsSided plan.now bytes outcome (R.sees remote.old) (R.sees remote.new)) }
    ensures no_memory { OnErr result (Reaches 2 (R.sees remote.old) (R.sees remote.new)) }
{
    match ask(alloc, remote, plan, b".sha1", LONGEST_SIDE)? {
        Reply::Gone => by_md5(alloc, remote, plan, bytes),
        reply => Ok(said(bytes, Side::Sha1, reply)),
    }
}

/// The body of a reply, or what a fetch comes to without one.
fn body_in(reply: Reply) -> Result<Bytes, Outcome<Checked>>
    ensures { result ≡ body_in reply }
{
    match reply {
        Reply::Body(bytes) => Ok(bytes),
        Reply::Gone => Err(Outcome::Gone),
        Reply::Refused(status) => Err(Outcome::Refused(status)),
        Reply::TooLarge => Err(Outcome::TooLarge),
        Reply::Bad { at } => Err(Outcome::BadAnswer { at }),
        Reply::Fault => Err(Outcome::Fault),
    }
}

/// Fetches the bytes of a plan, and then a side file that says their digest.
pub(crate) fn fetch_bytes<R: Remote>(
    alloc: Global,
    remote: &mut R,
    plan: &Plan,
) -> Result<Outcome<Checked>, AllocError>
    requires limit { plan.now.limit ≤ 16_777_216 }
    ensures outcome { IfOk result (λ outcome. IsChecked plan.now outcome (R.sees remote.old) (R.sees remote.new)) }
    ensures no_memory { OnErr result (Reaches 3 (R.sees remote.old) (R.sees remote.new)) }
{
    match body_in(ask(alloc, remote, plan, b"", plan.limit)?) {
        Ok(bytes) => by_sides(alloc, remote, plan, bytes),
        Err(outcome) => Ok(outcome),
    }
}
