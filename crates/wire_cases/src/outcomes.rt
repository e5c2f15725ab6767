//! Plans, and what comes of them, as the steps write it.

use case_texts::{copied, shown};
use fetch_plan::{Outcome, Plan};
use mvn_coords::Side;
use mvn_digest::{Digest, Hashes};
use mvn_doc::write;
use remote_fetch::Content;
use std::alloc::{AllocError, Global};
use texts::Text;

// The path of the file that is fetched.
const FILE: &str = "org/acme/lib/1.0/lib-1.0.jar";

// The path of the document that is fetched.
const DOCUMENT: &str = "org/acme/lib/maven-metadata.xml";

/// A plan for the file, which has the draft 1, or for the document, at a remote, below `/m2`.
pub fn plan(alloc: Global, is_file: bool, limit: u64) -> Result<Plan, AllocError> {
    let path = if is_file { FILE } else { DOCUMENT };
    Ok(Plan {
        proxy: Text::new(alloc, "central")?,
        member: 0,
        host: Text::new(alloc, "repo.test")?,
        port: 8080,
        prefix: Text::new(alloc, "/m2")?,
        path: Text::new(alloc, path)?,
        draft: if is_file { Some(1) } else { None },
        limit,
    })
}

fn content(alloc: Global, content: &Content) -> Result<String, AllocError> {
    match content {
        Content::File(checked) => {
            let text: String = shown(alloc, checked.bytes.as_slice())?;
            format!(in alloc; "got {text}")
        }
        Content::Doc(doc) => {
            let text: String = shown(alloc, write(alloc, doc)?.as_slice())?;
            format!(in alloc; "document {text}")
        }
    }
}

// The letter of a digest: A and B are those of `abc`, E and F those of no bytes, the SHA-1 digest first.
fn letter(digest: &Digest) -> &'static str {
    let mut empty = Hashes::new();
    empty.update(b"");
    let mut abc = Hashes::new();
    abc.update(b"abc");
    let (empty, abc) = (empty.finish(), abc.finish());
    if *digest == abc.of(Side::Sha1) {
        "A"
    } else if *digest == abc.of(Side::Md5) {
        "B"
    } else if *digest == empty.of(Side::Sha1) {
        "E"
    } else if *digest == empty.of(Side::Md5) {
        "F"
    } else {
        "another"
    }
}

/// An outcome as text.
pub fn outcome(alloc: Global, outcome: &Outcome<Content>) -> Result<String, AllocError> {
    let text = match outcome {
        Outcome::Got(got) => content(alloc, got)?,
        Outcome::Gone => copied(alloc, "gone")?,
        Outcome::Refused(status) => format!(in alloc; "refused {}", *status)?,
        Outcome::NoChecksum => copied(alloc, "no-checksum")?,
        Outcome::Differs { said, found } => {
            format!(in alloc; "differs {} {}", letter(said), letter(found))?
        }
        Outcome::TooLarge => copied(alloc, "too-large")?,
        Outcome::BadAnswer { at } => format!(in alloc; "bad-answer {}", *at)?,
        Outcome::BadDocument { at } => format!(in alloc; "bad-document {}", *at)?,
        Outcome::Fault => copied(alloc, "fault")?,
    };
    Ok(text)
}
