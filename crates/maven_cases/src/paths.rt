// Paths and what they name.
use crate::digests::word_of;
use crate::generated_paths::told_of_generated;
use crate::plain_paths::{Said, line};
use case_texts::{Tale, copied, joined, number_of};
use mvn_coords::{Build, Coord, Dir, Kind, Stamp, kind_of, path_of};
use std::alloc::{AllocError, Global};

fn build_text(alloc: Global, build: Option<Build>) -> Result<String, AllocError> {
    match build {
        Some(build) => {
            let stamp = build.stamp().text();
            let stamp = str::from_utf8(&stamp).unwrap_or("");
            format!(in alloc; "{stamp}-{}", build.number())
        }
        None => Ok(String::new(alloc)),
    }
}

/// Group and artifact, directory, build, classifier, extension and side.
fn file_line(alloc: Global, c: &Coord<'_>, side: &str) -> Result<String, AllocError> {
    let build = build_text(alloc, c.build())?;
    let parts = [
        c.artifact(),
        c.dir(),
        build.as_str(),
        c.classifier(),
        c.extension(),
        side,
    ];
    line(alloc, "file", &[c.group()], &parts)
}

/// Group and artifact, version and side.
fn document_line(alloc: Global, d: &Dir<'_>, side: &str) -> Result<String, AllocError> {
    let parts = [d.artifact(), d.version().unwrap_or(""), side];
    if d.group().is_empty() {
        line(alloc, "document", &[], &parts)
    } else {
        line(alloc, "document", &[d.group()], &parts)
    }
}

fn kind_line(alloc: Global, kind: &Kind<'_>) -> Result<String, AllocError> {
    match kind {
        Kind::File(c) => file_line(alloc, c, ""),
        Kind::FileSide(c, side) => file_line(alloc, c, word_of(*side)),
        Kind::Doc(d) => document_line(alloc, d, ""),
        Kind::DocSide(d, side) => document_line(alloc, d, word_of(*side)),
    }
}

/// Whether a file's coordinates have this path.
fn is_written(alloc: Global, path: &str, kind: &Kind<'_>) -> Result<bool, AllocError> {
    match kind {
        Kind::File(c) => Ok(path_of(alloc, c)?.as_str() == path),
        _ => Ok(true),
    }
}

fn real_line(alloc: Global, path: &str, kind: &Kind<'_>) -> Result<String, AllocError> {
    if is_written(alloc, path, kind)? {
        kind_line(alloc, kind)
    } else {
        copied(alloc, "another path")
    }
}

/// What a path names in one line, or its fault.
pub(crate) fn real(alloc: Global, path: &str) -> Result<Said, AllocError> {
    match kind_of(path) {
        Ok(kind) => Ok(Ok(real_line(alloc, path, &kind)?)),
        Err(fault) => Ok(Err(fault)),
    }
}

/// The line of a path, or the name of its fault.
fn told_line(alloc: Global, path: &str) -> Result<String, AllocError> {
    match real(alloc, path)? {
        Ok(line) => Ok(line),
        Err(fault) => copied(alloc, fault.name()),
    }
}

/// The first word of the line of a path, or the name of its fault.
fn told_kind(alloc: Global, path: &str) -> Result<String, AllocError> {
    let told: String = told_line(alloc, path)?;
    copied(alloc, told.as_str().split_whitespace().next().unwrap_or(""))
}

fn stamp_text(alloc: Global, stamp: Stamp) -> Result<String, AllocError> {
    String::from_utf8_lossy(alloc, stamp.text().as_slice())
}

/// The stamp of a moment.
fn told_moment(alloc: Global, word: &str) -> Result<String, AllocError> {
    match number_of(word) {
        Some(moment) if moment <= Stamp::LAST_MOMENT => {
            stamp_text(alloc, Stamp::from_moment(moment))
        }
        _ => copied(alloc, "no moment"),
    }
}

/// Whether the first is a stamp, and below the second, where it is one.
fn told_order(first: &str, second: &str) -> &'static str {
    let first = Stamp::parse(first);
    if first.is_none() {
        return "no stamp";
    }
    if first < Stamp::parse(second) {
        "below"
    } else {
        "not below"
    }
}

/// What is told of a step about paths.
pub(crate) fn told(alloc: Global, key: &str, words: &[String]) -> Tale {
    Ok(Some(match (key, words) {
        ("path", _) => told_kind(alloc, joined(alloc, words)?.as_str())?,
        ("coordinates", _) => told_line(alloc, joined(alloc, words)?.as_str())?,
        ("generated-paths", []) => copied(alloc, told_of_generated(alloc)?)?,
        ("moment", [moment]) => told_moment(alloc, moment.as_str())?,
        ("stamps", [first, second]) => {
            copied(alloc, told_order(first.as_str(), second.as_str()))?
        }
        _ => return Ok(None),
    }))
}
