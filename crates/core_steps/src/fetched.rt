// What came of a fetch, in words.
use crate::blobs::{CaseBlobs, CaseHeld};
use crate::commands::{parcel_of, text_of};
use crate::faults::WorldFault;
use crate::steps::{number_of, said_by};
use fetch_plan::{Outcome, Plan};
use mvn_doc::read;
use repo_model::{Command, Got};
use std::alloc::Global;

type CaseOutcome = Outcome<Got<CaseHeld>>;

/// The plan of a proxy's remote in the cases.
fn plan_of(alloc: Global, proxy: &str, path: &str, draft: Option<u64>) -> Result<Plan, WorldFault> {
    Ok(Plan {
        proxy: text_of(alloc, proxy)?,
        member: 0,
        host: text_of(alloc, "repo.test")?,
        port: 8080,
        prefix: text_of(alloc, "/m2")?,
        path: text_of(alloc, path)?,
        draft,
        limit: 1000,
    })
}

/// A document that a text is.
fn document_of(alloc: Global, text: &str) -> Result<CaseOutcome, WorldFault> {
    match read(alloc, text.as_bytes()) {
        Ok(doc) => Ok(Outcome::Got(Got::Doc(doc))),
        Err(_) => Err(WorldFault::NoStep),
    }
}

/// What came of a fetch: a file of these bytes, stored under a number, a document, or what the words say.
fn outcome_of(
    alloc: Global,
    blobs: &mut CaseBlobs,
    words: &[String],
) -> Result<CaseOutcome, WorldFault> {
    let [word, rest @ ..] = words else {
        return Err(WorldFault::NoStep);
    };
    match (word.as_str(), rest) {
        ("file", [blob, bytes]) => {
            let parcel = parcel_of(blobs, number_of(blob.as_str())?, bytes.as_bytes())?;
            Ok(Outcome::Got(Got::File(parcel)))
        }
        ("document", [text]) => document_of(alloc, text.as_str()),
        ("gone", []) => Ok(Outcome::Gone),
        ("refused", [status]) => match status.as_str().parse::<u16>() {
            Ok(status) => Ok(Outcome::Refused(status)),
            Err(_) => Err(WorldFault::NoStep),
        },
        ("no-checksum", []) => Ok(Outcome::NoChecksum),
        ("differs", [said, found]) => Ok(Outcome::Differs {
            said: said_by(said.as_str())?,
            found: said_by(found.as_str())?,
        }),
        ("too-large", []) => Ok(Outcome::TooLarge),
        ("bad-answer", [at]) => Ok(Outcome::BadAnswer {
            at: number_of(at.as_str())?,
        }),
        ("bad-document", [at]) => Ok(Outcome::BadDocument {
            at: number_of(at.as_str())?,
        }),
        ("fault", []) => Ok(Outcome::Fault),
        _ => Err(WorldFault::NoStep),
    }
}

/// The command that lands what came of a fetch of a proxy's path, under a draft or under none.
pub(crate) fn land(
    alloc: Global,
    blobs: &mut CaseBlobs,
    proxy: &str,
    path: &str,
    draft: Option<u64>,
    words: &[String],
) -> Result<Command<CaseHeld>, WorldFault> {
    let plan = plan_of(alloc, proxy, path, draft)?;
    let outcome = outcome_of(alloc, blobs, words)?;
    Ok(Command::Land { plan, outcome })
}
