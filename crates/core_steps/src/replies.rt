// What a core replies, in words.
use crate::blobs::CaseHeld;
use crate::faults::WorldFault;
use fetch_plan::Plan;
use mvn_coords::Side;
use mvn_digest::{Digest, Digests, Hashes, side_text};
use repo_model::{Finding, Print, Reply, SessionResult};
use std::alloc::Global;

fn text_of(alloc: Global, text: &str) -> Result<String, WorldFault> {
    Ok(String::from_str(alloc, text)?)
}

/// Bytes that are text, or their places.
fn bytes_of(alloc: Global, bytes: &[u8]) -> Result<String, WorldFault> {
    Ok(String::from_utf8_lossy(alloc, bytes)?)
}

/// A word and a number.
fn number_of(alloc: Global, word: &str, number: u64) -> Result<String, WorldFault> {
    Ok(format!(in alloc; "{word} {number}")?)
}

/// A length, and SHA-1, MD5, SHA-256 and SHA-512 in small digits.
fn content_of(alloc: Global, length: u64, digests: &Digests) -> Result<String, WorldFault> {
    let sha1: String = bytes_of(alloc, digests.sha1_text().as_slice())?;
    let md5: String = bytes_of(alloc, digests.md5_text().as_slice())?;
    let sha256: String = bytes_of(alloc, side_text(digests, Side::Sha256).as_bytes())?;
    let sha512: String = bytes_of(alloc, side_text(digests, Side::Sha512).as_bytes())?;
    Ok(format!(in alloc; "{length} {sha1} {md5} {sha256} {sha512}")?)
}

fn print_of(alloc: Global, print: &Print) -> Result<String, WorldFault> {
    content_of(alloc, print.length, &print.digests)
}

/// The name of a digest's form, and its small digits.
pub(crate) fn digest_of(alloc: Global, digest: &Digest) -> Result<String, WorldFault> {
    let mut told: String = text_of(
        alloc,
        match digest {
            Digest::Sha1(_) => "sha1:",
            Digest::Md5(_) => "md5:",
            Digest::Sha256(_) => "sha256:",
            Digest::Sha512(_) => "sha512:",
        },
    )?;
    for byte in digest.bytes() {
        write!(told, "{byte:02x}")?;
    }
    Ok(told)
}

/// Numbers, each after a blank.
pub fn numbers_of(alloc: Global, numbers: &[u64]) -> Result<String, WorldFault> {
    let mut told: String = String::new(alloc);
    for number in numbers {
        write!(told, " {number}")?;
    }
    Ok(told)
}

fn word_of(reply: &Reply<CaseHeld>) -> &'static str {
    match reply {
        Reply::Missed => "missed",
        Reply::Done => "done",
        Reply::KindRefused => "kind-refused",
        Reply::NoDraft => "no-draft",
        Reply::Same => "same",
        Reply::Relisted => "relisted",
        Reply::Created => "created",
        Reply::Dropped => "dropped",
        Reply::NotThere => "not-there",
        Reply::Agreed => "agreed",
        Reply::Noted => "noted",
        Reply::NoSession => "no-session",
        Reply::TooMany => "too-many",
        Reply::SessionFull => "session-full",
        Reply::Staged => "staged",
        Reply::StoreFault => "store-fault",
        Reply::Spent => "spent",
        Reply::NoMemory => "no-memory",
        Reply::Blocked => "blocked",
        Reply::Negative => "negative",
        Reply::Never => "never",
        Reply::Landed => "landed",
        _ => "",
    }
}

/// Replies of numbers alone; others are a word.
fn told_numbers(alloc: Global, reply: &Reply<CaseHeld>) -> Result<String, WorldFault> {
    match reply {
        Reply::Draft(draft) => number_of(alloc, "draft", *draft),
        Reply::Opened(session) => number_of(alloc, "session", *session),
        Reply::Ended(SessionResult::Done(count)) => number_of(alloc, "deployed", *count),
        Reply::Ended(SessionResult::Aborted) => text_of(alloc, "aborted"),
        Reply::Unlisted(rows) => number_of(alloc, "unlisted", *rows),
        Reply::Collected { expired, blobs } => {
            let blobs: String = numbers_of(alloc, blobs.as_slice())?;
            Ok(format!(in alloc; "collected {expired}:{blobs}")?)
        }
        Reply::Found(finding) => finding_of(alloc, finding),
        _ => text_of(alloc, word_of(reply)),
    }
}

/// What is found to a question.
fn finding_of(alloc: Global, finding: &Finding) -> Result<String, WorldFault> {
    match finding {
        Finding::Counts {
            files,
            fading,
            cached,
            documents,
            sessions,
        } => Ok(format!(in alloc; "{files} {fading} {cached} {documents} {sessions}")?),
    }
}

/// A text, and whether its digests are its own.
fn document_of(alloc: Global, text: &[u8], digests: &Digests) -> Result<String, WorldFault> {
    let mut hashes = Hashes::new();
    hashes.update(text);
    let word: &str = if hashes.finish() == *digests {
        "document"
    } else {
        "document of other digests"
    };
    let text: String = bytes_of(alloc, text)?;
    Ok(format!(in alloc; "{word} {text}")?)
}

/// What is kept, and what was sent.
fn both_of(alloc: Global, kept: &Print, sent: &Print) -> Result<String, WorldFault> {
    let kept: String = print_of(alloc, kept)?;
    let sent: String = print_of(alloc, sent)?;
    Ok(format!(in alloc; "{kept} {sent}")?)
}

/// What is to be fetched: at which proxy and member, of which remote, which path, under which draft, and how long it may be.
fn plan_of(alloc: Global, plan: &Plan) -> Result<String, WorldFault> {
    let proxy: &str = plan.proxy.as_str();
    let host: &str = plan.host.as_str();
    let prefix: &str = plan.prefix.as_str();
    let path: &str = plan.path.as_str();
    let draft: String = match plan.draft {
        Some(draft) => format!(in alloc; "{draft}")?,
        None => text_of(alloc, "no-draft")?,
    };
    Ok(format!(in alloc;
        "fetch {proxy} {} {host}:{}{prefix} {path} {draft} {}",
        plan.member, plan.port, plan.limit
    )?)
}

/// A reply, in words.
pub fn told(alloc: Global, reply: &Reply<CaseHeld>) -> Result<String, WorldFault> {
    match reply {
        Reply::File { lease, parcel } => {
            let blob: u64 = parcel.blob;
            let content: String = content_of(alloc, parcel.length, &parcel.digests)?;
            Ok(format!(in alloc; "file {lease} {blob} {content}")?)
        }
        Reply::Taken { kept, sent } => {
            let both: String = both_of(alloc, kept, sent)?;
            Ok(format!(in alloc; "taken {both}")?)
        }
        Reply::Offends { path, kept, sent } => {
            let path: &str = path.as_str();
            let both: String = both_of(alloc, kept, sent)?;
            Ok(format!(in alloc; "offends {path} {both}")?)
        }
        Reply::MissingPom { dir } => {
            let dir: &str = dir.as_str();
            Ok(format!(in alloc; "missing-pom {dir}")?)
        }
        Reply::Text(text) => {
            let text: String = bytes_of(alloc, text.as_bytes())?;
            Ok(format!(in alloc; "text {text}")?)
        }
        Reply::Fetch(plan) => plan_of(alloc, plan),
        Reply::Doc { text, digests } => document_of(alloc, text.as_slice(), digests),
        Reply::Differs { said, kept } => {
            let said: String = digest_of(alloc, said)?;
            let kept: String = digest_of(alloc, kept)?;
            Ok(format!(in alloc; "differs {said} {kept}")?)
        }
        _ => told_numbers(alloc, reply),
    }
}
