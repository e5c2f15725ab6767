// What a case came to, and how that differs from what it has to come to.
use crate::cases::{Case, Link};
use std::alloc::{AllocError, Global};

/// What a case came to.
#[derive(Drop)]
pub struct Went {
    /// What was written on the connection.
    pub answers: Vec<u8>,
    /// What was printed after it.
    pub line: Vec<u8>,
    /// What the run ended with; of no meaning for one connection of several.
    pub status: u8,
    /// How many calls of the blobs have failed.
    pub blob_faults: u64,
    /// How many exchanges were made with the remote.
    pub exchanges: u64,
    /// The numbers of the blobs that it leaves. Nothing where they can not be listed.
    pub blobs: Option<Vec<u64>>,
}

impl Went {
    /// Whether it has the answers, the line and the status of a case.
    pub fn is_as_said(&self, case: &Case) -> bool {
        self.answers.as_slice() == case.last.answers.as_slice()
            && self.line.as_slice() == case.last.line.as_slice()
            && self.status == case.status
    }
}

/// How many bytes two texts begin with alike.
pub(crate) fn alike(one: &[u8], other: &[u8]) -> usize {
    let mut count = 0;
    for (a, b) in one.iter().zip(other.iter()) {
        if a != b {
            return count;
        }
        count = count.saturating_add(1);
    }
    count
}

/// So many bytes are shown of what differs.
const SHOWN: usize = 120;

/// The bytes after the first so many, as far as they are shown.
fn shown(alloc: Global, bytes: &[u8], from: usize) -> Result<String, AllocError> {
    let rest: &[u8] = bytes.get(from..).unwrap_or(&[]);
    let rest: &[u8] = rest.get(..SHOWN).unwrap_or(rest);
    String::from_utf8_lossy(alloc, rest)
}

/// How what was written differs from what has to be. Nothing where it does not.
fn difference(
    alloc: Global,
    what: &str,
    want: &[u8],
    got: &[u8],
) -> Result<Option<String>, AllocError> {
    if want == got {
        return Ok(None);
    }
    let count: usize = alike(want, got);
    let wanted: String = shown(alloc, want, count)?;
    let given: String = shown(alloc, got, count)?;
    let told: String = format!(in alloc;
        "{what}, behind {count} bytes: wanted {wanted:?}, given {given:?}"
    )?;
    Ok(Some(told))
}

/// How a connection differs from what it has to be, in its answers or else in its line. Nothing where it does not.
pub fn wrong_link(alloc: Global, link: &Link, went: &Went) -> Result<Option<String>, AllocError> {
    match difference(
        alloc,
        "answers",
        link.answers.as_slice(),
        went.answers.as_slice(),
    )? {
        Some(told) => Ok(Some(told)),
        None => difference(alloc, "line", link.line.as_slice(), went.line.as_slice()),
    }
}

/// How the status of a run differs from that of a case. Nothing where it does not.
fn wrong_status(alloc: Global, case: &Case, went: &Went) -> Result<Option<String>, AllocError> {
    let want: u8 = case.status;
    let given: u8 = went.status;
    if want == given {
        return Ok(None);
    }
    Ok(Some(format!(in alloc; "status: wanted {want}, given {given}")?))
}

/// How the number of exchanges differs from what a case says. Nothing where it says none, or it does not.
fn wrong_exchanges(alloc: Global, case: &Case, went: &Went) -> Result<Option<String>, AllocError> {
    let given: u64 = went.exchanges;
    match case.exchanges {
        Some(want) if want != given => {
            Ok(Some(format!(in alloc; "exchanges: wanted {want}, given {given}")?))
        }
        _ => Ok(None),
    }
}

/// How a run differs from its case, in answers, line, status or exchanges, the first of them that does. Nothing where it does not.
pub fn wrong_run(alloc: Global, case: &Case, went: &Went) -> Result<Option<String>, AllocError> {
    if let Some(told) = wrong_link(alloc, &case.last, went)? {
        return Ok(Some(told));
    }
    match wrong_status(alloc, case, went)? {
        Some(told) => Ok(Some(told)),
        None => wrong_exchanges(alloc, case, went),
    }
}

/// How the blobs that are left differ from those that a case says. Nothing where it says none, or they do not.
pub fn wrong_blobs(alloc: Global, case: &Case, went: &Went) -> Result<Option<String>, AllocError> {
    let Some(want) = &case.blobs else {
        return Ok(None);
    };
    let Some(left) = &went.blobs else {
        return Ok(Some(String::from_str(alloc, "the blobs can not be listed")?));
    };
    if left.as_slice() == want.as_slice() {
        return Ok(None);
    }
    Ok(Some(format!(in alloc; "blobs: wanted {want:?}, given {left:?}")?))
}
