//! A fetch of a file or a document.
ghost use Rattle.std.specs.Prelude.{◌≡◌, ◌≤◌, IfOk, OnErr};
ghost use Rattle.mvn_doc.specs.Reading.{reading};
ghost use Rattle.remote_fetch.specs.Exchanged.{Reaches};
ghost use Rattle.remote_fetch.specs.Fetching.{HasGot, IsFetched, content_of, document_of, with_content};

use crate::LONGEST_TEXT;
use crate::fetching::{Checked, fetch_bytes};
use fetch_plan::{Outcome, Plan};
use mvn_doc::{DocFault, read, write};
use mvn_metadata::Doc;
use outside_remote::Remote;
use std::alloc::{AllocError, Global};

/// What was fetched.
#[derive(Drop)]
pub enum Content {
    File(Checked),
    /// A document as it was read.
    Doc(Doc),
}

/// The document that a text is, unless it is too long when it is written.
fn document(alloc: Global, text: &[u8]) -> Result<Outcome<Content>, AllocError>
    ensures { IfOk result (λ outcome. outcome ≡ document_of (reading text.now)) }
{
    let doc = match read(alloc, text) {
        Ok(doc) => doc,
        Err(DocFault::BadDocument { at }) => {
            return Ok(Outcome::BadDocument { at: at as u64 });
        }
        Err(DocFault::NoMemory) => return Err(AllocError),
    };
    let written = write(alloc, &doc)?;
    if written.len() > LONGEST_TEXT {
        Ok(Outcome::TooLarge)
    } else {
        Ok(Outcome::Got(Content::Doc(doc)))
    }
}

/// The content that bytes are: a file where there is a draft, else a document.
fn file_or_document(
    alloc: Global,
    draft: Option<u64>,
    checked: Checked,
) -> Result<Outcome<Content>, AllocError>
    ensures { IfOk result (λ outcome. outcome ≡ content_of draft checked) }
{
    match draft {
        Some(_) => Ok(Outcome::Got(Content::File(checked))),
        None => document(alloc, checked.bytes.as_slice()),
    }
}

fn with_content(
    alloc: Global,
    draft: Option<u64>,
    outcome: Outcome<Checked>,
) -> Result<Outcome<Content>, AllocError>
    ensures outcome { IfOk result (λ it. it ≡ with_content draft outcome) }
    ensures no_memory { OnErr result (HasGot outcome) }
{
    match outcome {
        Outcome::Got(checked) => file_or_document(alloc, draft, checked),
        Outcome::Gone => Ok(Outcome::Gone),
        Outcome::Refused(status) => Ok(Outcome::Refused(status)),
        Outcome::NoChecksum => Ok(Outcome::NoChecksum),
        Outcome::Differs { said, found } => Ok(Outcome::Differs { said, found }),
        Outcome::TooLarge => Ok(Outcome::TooLarge),
        Outcome::BadAnswer { at } => Ok(Outcome::BadAnswer { at }),
        Outcome::BadDocument { at } => Ok(Outcome::BadDocument { at }),
        Outcome::Fault => Ok(Outcome::Fault),
    }
}

/// Fetches what a plan says, by at most three exchanges: what stands at its path, then its SHA-1 side file, and where there is
/// none, its MD5 side file. Nothing else is asked, wherever an answer points.
///
/// A file is got as the bytes that came, and a document as it is read from them, in both cases where the side file says the
/// digest of the bytes. When memory runs out some of these exchanges may have been made.
pub fn fetch<R: Remote>(
    alloc: Global,
    remote: &mut R,
    plan: &Plan,
) -> Result<Outcome<Content>, AllocError>
    requires limit { plan.now.limit ≤ 16_777_216 }
    ensures outcome { IfOk result (λ outcome. IsFetched plan.now outcome (R.sees remote.old) (R.sees remote.new)) }
    ensures no_memory { OnErr result (Reaches 3 (R.sees remote.old) (R.sees remote.new)) }
{
    let checked = fetch_bytes(alloc, remote, plan)?;
    with_content(alloc, plan.draft, checked)
}
