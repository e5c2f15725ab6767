// Answers in their bytes.
use case_texts::{Tale, number_of, text_of};
use mvn_coords::Side;
use mvn_digest::{Digest, Digests, Hashes, side_text};
use repo_course::{FetchFault, Response, ResponseMode, rendered};
use repo_model::{Finding, Print, SessionResult};
use shared_bytes::SharedBytes;
use std::alloc::{AllocError, Global};
use texts::Bytes;

fn digests_of(bytes: &[u8]) -> Digests {
    let mut hashes = Hashes::new();
    hashes.update(bytes);
    hashes.finish()
}

fn print_of(bytes: &[u8]) -> Print {
    Print {
        length: bytes.len() as u64,
        digests: digests_of(bytes),
    }
}

/// Whether the connection goes on, and whether the body is left out.
fn mode_of(word: &str) -> ResponseMode {
    ResponseMode {
        close: word.starts_with("closes"),
        last: word == "last",
        head_only: word.ends_with("head"),
    }
}

/// What is said of numbers.
fn response_of_numbers(words: &[u64]) -> Option<Response> {
    Some(match words {
        [session] => Response::Opened(*session),
        [unlisted, removed] => Response::Cleaned {
            unlisted: *unlisted,
            removed: *removed,
        },
        [files, fading, cached, documents, sessions] => Response::Found(Finding::Counts {
            files: *files,
            fading: *fading,
            cached: *cached,
            documents: *documents,
            sessions: *sessions,
        }),
        _ => return None,
    })
}

fn numbers_of(alloc: Global, words: &[String]) -> Result<Vec<u64>, AllocError> {
    let mut numbers: Vec<u64> = Vec::new(alloc);
    for word in words {
        numbers.push(number_of(word.as_str()).unwrap_or(0))?;
    }
    Ok(numbers)
}

/// What is said of contents.
fn response_of_contents(alloc: Global, words: &[String]) -> Result<Option<Response>, AllocError> {
    Ok(Some(match words {
        [word, said, kept] if word.as_str() == "differs" => Response::Differs {
            said: side_text(&digests_of(said.as_bytes()), Side::Md5),
            kept: side_text(&digests_of(kept.as_bytes()), Side::Md5),
        },
        [word, recorded, found] if word.as_str() == "blob-differs" => Response::BlobDiffers {
            recorded: print_of(recorded.as_bytes()),
            found: print_of(found.as_bytes()),
        },
        [word, text] if word.as_str() == "document" => Response::Doc {
            text: SharedBytes::new(alloc, text.as_bytes())?,
            digests: digests_of(text.as_bytes()),
        },
        _ => return Ok(None),
    }))
}

/// What is said of a fetch that gave nothing.
fn response_of_fetch(words: &[String]) -> Option<Response> {
    let [word, rest @ ..] = words else {
        return None;
    };
    let why = match (word.as_str(), rest) {
        ("refused", [status]) => {
            FetchFault::Refused(u16::try_from(number_of(status.as_str())?).ok()?)
        }
        ("no-checksum", []) => FetchFault::NoChecksum,
        ("differs", [said, found]) => FetchFault::Differs {
            said: Digest::Sha1(digests_of(said.as_bytes()).sha1),
            found: Digest::Sha1(digests_of(found.as_bytes()).sha1),
        },
        ("too-large", []) => FetchFault::TooLarge,
        ("bad-answer", [at]) => FetchFault::BadAnswer {
            at: number_of(at.as_str())?,
        },
        ("bad-document", [at]) => FetchFault::BadDocument {
            at: number_of(at.as_str())?,
        },
        ("fault", []) => FetchFault::Fault,
        _ => return None,
    };
    Some(Response::NotFetched(why))
}

fn response_of(alloc: Global, words: &[String]) -> Result<Option<Response>, AllocError> {
    let [word, rest @ ..] = words else {
        return Ok(None);
    };
    Ok(match (word.as_str(), rest) {
        ("no-draft", []) => Some(Response::NoDraft),
        ("spent", []) => Some(Response::Spent),
        ("same", []) => Some(Response::Same),
        ("relisted", []) => Some(Response::Relisted),
        ("blocked", []) => Some(Response::Blocked),
        ("negative", []) => Some(Response::Negative),
        ("never", []) => Some(Response::NeverAsked),
        ("remote-gone", []) => Some(Response::RemoteGone),
        ("fetch", why) => response_of_fetch(why),
        ("deployed", [count]) => Some(Response::Ended(SessionResult::Done(number_of(
            count.as_str(),
        ).unwrap_or(0)))),
        ("numbers", numbers) => response_of_numbers(numbers_of(alloc, numbers)?.as_slice()),
        _ => response_of_contents(alloc, words)?,
    })
}

/// What is told of a step about answers.
pub(crate) fn told(alloc: Global, key: &str, words: &[String]) -> Tale {
    let (true, [mode, said @ ..]) = (key == "answer", words) else {
        return Ok(None);
    };
    let Some(said) = response_of(alloc, said)? else {
        return Ok(None);
    };
    let bytes: Bytes = rendered(alloc, said, mode_of(mode.as_str()))?;
    Ok(Some(text_of(alloc, bytes.as_slice())?))
}
