// Changes as bytes, and the tables that they are applied to.
use case_texts::{Tale, copied, run_together, shown};
use repo_model::{Item, SessionResult};
use repo_rows::{RowFault, put, start_of, take};
use row_tables::{ApplyFault, Change, FileRow, Place, Tables};
use std::alloc::{AllocError, Global};
use std::collections::BTreeMap;

fn push_end(told: &mut String, end: &SessionResult) -> Result<(), AllocError> {
    match end {
        SessionResult::Done(count) => write!(told, "done {count}"),
        SessionResult::Aborted => write!(told, "aborted"),
    }
}

/// The item of a file or of a session, or only its kind.
fn push_item(told: &mut String, item: &Item) -> Result<(), AllocError> {
    match item {
        Item::HostedPut {
            repo,
            path,
            blob,
            print,
            accepted,
        } => {
            let (repo, path) = (repo.as_str(), path.as_str());
            let length: u64 = print.length;
            write!(told, " put {repo} {path} {blob} {length} {accepted}")
        }
        Item::Digested { repo, path, .. } => {
            let (repo, path) = (repo.as_str(), path.as_str());
            write!(told, " digested {repo} {path}")
        }
        Item::SessionOpened(session) => write!(told, " opened {session}"),
        Item::SessionEnded { session, result } => {
            write!(told, " ended {session} ")?;
            push_end(told, result)
        }
        _ => write!(told, " another"),
    }
}

/// Whether all files of a change have their further digests.
fn wholeness(change: &Change) -> &'static str {
    if change.is_whole() {
        "whole"
    } else {
        "lacking"
    }
}

/// How many bytes a change has, whether it is whole, and its items.
fn told_change(alloc: Global, change: &Change, size: usize) -> Result<String, AllocError> {
    let mut told: String = format!(in alloc; "{size} {}", wholeness(change))?;
    for item in change.items() {
        push_item(&mut told, item)?;
    }
    Ok(told)
}

/// What is read of bytes, or where they are refused.
fn told_read(alloc: Global, bytes: &[u8]) -> Result<String, AllocError> {
    match take(alloc, bytes) {
        Ok((change, size)) => told_change(alloc, &change, size),
        Err(RowFault::BadField { at }) => format!(in alloc; "refused {at}"),
        Err(RowFault::NoMemory) => Err(AllocError),
    }
}

/// The change of these bytes. Nothing where they are refused.
pub(crate) fn change_in(alloc: Global, bytes: &[u8]) -> Result<Option<Change>, AllocError> {
    match take(alloc, bytes) {
        Ok((change, _)) => Ok(Some(change)),
        Err(RowFault::BadField { .. }) => Ok(None),
        Err(RowFault::NoMemory) => Err(AllocError),
    }
}

/// The bytes that are written of what is read, where all its files have their further digests.
fn told_written(alloc: Global, bytes: &[u8]) -> Result<String, AllocError> {
    let Some(change) = change_in(alloc, bytes)? else {
        return copied(alloc, "refused");
    };
    if !change.is_whole() {
        return copied(alloc, "lacking");
    }
    let mut written: Vec<u8> = Vec::new(alloc);
    put(alloc, &change, &mut written)?;
    shown(alloc, written.as_slice())
}

/// Where each item of a change begins, and its end.
fn told_starts(alloc: Global, bytes: &[u8]) -> Result<String, AllocError> {
    let Some(change) = change_in(alloc, bytes)? else {
        return copied(alloc, "refused");
    };
    let mut told: String = copied(alloc, "at")?;
    for item in 0..=change.len() as u64 {
        let start: u64 = start_of(alloc, &change, item)?;
        write!(told, " {start}")?;
    }
    Ok(told)
}

/// A change of a version with these items, of which there are less than 200.
fn change_of(alloc: Global, version: u8, items: &[String]) -> Result<Vec<u8>, AllocError> {
    let count: u8 = items.len().min(200) as u8;
    let mut bytes: Vec<u8> = Vec::from_slice(alloc, &[version, 0, 0, 0, count])?;
    let rest: Vec<u8> = run_together(alloc, items)?;
    bytes.extend_from_slice(rest.as_slice())?;
    Ok(bytes)
}

/// Applies a change of these items. What is told of it, where it is not read or does not fit.
fn misfit(
    alloc: Global,
    tables: &mut Tables,
    version: u8,
    items: &[String],
) -> Result<Option<String>, AllocError> {
    let bytes: Vec<u8> = change_of(alloc, version, items)?;
    let Some(change) = change_in(alloc, bytes.as_slice())? else {
        return Ok(Some(copied(alloc, "refused")?));
    };
    match tables.apply(alloc, &change) {
        Ok(()) => Ok(None),
        Err(ApplyFault::Misfit { item }) => Ok(Some(format!(in alloc; "misfit {item}")?)),
        Err(ApplyFault::NoMemory) => Err(AllocError),
    }
}

/// The first item that does not fit tables of nothing after those before it.
fn told_fit(alloc: Global, items: &[String]) -> Result<String, AllocError> {
    let mut tables: Tables = Tables::new(alloc);
    match misfit(alloc, &mut tables, 1, items)? {
        Some(told) => Ok(told),
        None => copied(alloc, "fits"),
    }
}

/// Whether all these rows have their further digests.
fn completeness(rows: &BTreeMap<Place, FileRow>) -> &'static str {
    if rows.values().all(|row| row.print.digests.further.is_some()) {
        "whole"
    } else {
        "lacking"
    }
}

/// The same of a change of the second version after one of the first, with the items after `then` and before it, and whether the rows
/// of repositories, and of proxies, then have their further digests.
fn told_completed(alloc: Global, words: &[String]) -> Result<String, AllocError> {
    let mut tables: Tables = Tables::new(alloc);
    let mut version: u8 = 1;
    for items in words.split(|word| word.as_str() == "then") {
        if let Some(told) = misfit(alloc, &mut tables, version, items)? {
            return Ok(told);
        }
        version = 2;
    }
    let hosted: &str = completeness(tables.hosted());
    let cached: &str = completeness(tables.cached());
    format!(in alloc; "hosted {hosted} cached {cached}")
}

/// Where a change of one item of a version is refused, which has this tag, these fields, and after them so many blanks.
fn told_item(
    alloc: Global,
    version: u8,
    fields: &[String],
    blanks: usize,
) -> Result<String, AllocError> {
    let mut bytes: Vec<u8> = Vec::from_slice(alloc, &[version, 0, 0, 0, 1])?;
    let rest: Vec<u8> = run_together(alloc, fields)?;
    bytes.extend_from_slice(rest.as_slice())?;
    bytes.resize(bytes.len().saturating_add(blanks), b' ')?;
    match take(alloc, bytes.as_slice()) {
        Ok(_) => copied(alloc, "read"),
        Err(RowFault::BadField { at }) => format!(in alloc; "refused {at}"),
        Err(RowFault::NoMemory) => Err(AllocError),
    }
}

/// What is told of a step about changes.
pub(crate) fn told(alloc: Global, key: &str, words: &[String]) -> Tale {
    Ok(Some(match (key, words) {
        ("change", _) => told_read(alloc, run_together(alloc, words)?.as_slice())?,
        ("written", _) => told_written(alloc, run_together(alloc, words)?.as_slice())?,
        ("starts", _) => told_starts(alloc, run_together(alloc, words)?.as_slice())?,
        ("applied", items) => told_fit(alloc, items)?,
        ("completed", words) => told_completed(alloc, words)?,
        ("item", fields) => told_item(alloc, 1, fields, 0)?,
        ("second-item", fields) => told_item(alloc, 2, fields, 0)?,
        ("long-item", fields) => told_item(alloc, 1, fields, 4_100_001)?,
        _ => return Ok(None),
    }))
}
