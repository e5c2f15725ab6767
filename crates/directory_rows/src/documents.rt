//! The document of a directory, from its visible rows.
ghost use Rattle.std.specs.Prelude.{◌≡◌, ◌≤◌, ◌++◌, is_some, IfOk, string_bytes};
ghost use Rattle.std.specs.Option.{option_copied, option_map};
ghost use Rattle.mvn_coords.specs.Calendar.{civil_of};
ghost use Rattle.mvn_coords.specs.FileName.{base_of};
ghost use Rattle.mvn_metadata.specs.Document.{lists_versions, with_update, with_version};
ghost use Rattle.repo_model.specs.Document.{document, with_build_of, with_coordinates};
ghost use Rattle.repo_model.specs.History.{latest_moment};
ghost use Rattle.repo_model.specs.Paths.{same_version, stands_in};
ghost use Rattle.directory_rows.specs.Documents.{added, gone_on, GoesOn};
ghost use Rattle.ordered_rows.specs.Rows.{shown_at, shown_rows};
ghost use Rattle.directory_rows.specs.Walks.{IsUpTo, IsWalkOf};

use crate::walk::{Step, step_from};
use mvn_coords::{Coord, Dir, Kind, Stamp, kind_of};
use mvn_metadata::{Doc, Listing, Pair, SnapshotBuild, empty};
use mvn_version::Version;
use ordered_rows::{CountedRows, Phase, Row, joined};
use outside::{Held, NoMemory};
use std::alloc::Global;
use std::collections::BTreeMap;
use texts::Text;

/// Whether a version directory is the one of a snapshot directory, if that is given.
fn is_version(version: Option<&str>, directory: &str) -> bool
    ensures { result ≡ same_version (option_copied version.entry) directory.now }
{
    match version {
        Some(version) => version == directory,
        None => true,
    }
}

/// Whether a file stands in a directory: in this snapshot directory, or in any version directory of the artifact.
pub fn is_in(dir: &Dir<'_>, c: &Coord<'_>) -> bool
    ensures { result ≡ stands_in dir.now (Some c.now) }
{
    c.group() == dir.group() && c.artifact() == dir.artifact() && is_version(dir.version(), c.dir())
}

/// X, where a file's version directory is X-SNAPSHOT.
fn base_of<'a>(c: &Coord<'a>) -> Option<&'a str>
    ensures { option_copied result ≡ base_of c.now.directory }
{
    if c.dir().len() > 9 {
        c.dir().strip_suffix("-SNAPSHOT")
    } else {
        None
    }
}

fn is_artifact(doc: &Doc) -> bool
    ensures { result ≡ lists_versions doc.now.listing }
{
    matches!(doc.listing(), Listing::Artifact { .. })
}

/// The document with a file's version directory, accepted at a moment.
fn with_version_of(alloc: Global, doc: Doc, c: &Coord<'_>, accepted: u64) -> Result<Doc, NoMemory>
    requires { accepted ≤ latest_moment }
    ensures { IfOk result (λ d. d ≡ record doc { listing = with_update (with_version doc.listing c.now.directory) (civil_of accepted) }) }
{
    // A file's path tells what its version directory is made of.
    let _path = c.path();
    let version = Version::parse(alloc, c.dir())?;
    Ok(
        doc.with_version(version)?
            .with_update(Stamp::from_moment(accepted)),
    )
}

/// The document with a file's build.
fn with_build_of(alloc: Global, doc: Doc, c: &Coord<'_>) -> Result<Doc, NoMemory>
    ensures { IfOk result (λ d. d ≡ record doc { listing = with_build_of c.now c.now.build doc.listing }) }
{
    // These tell what a file's name and its build are made of.
    let (_path, _snapshot) = (c.path(), c.is_snapshot());
    let (Some(build), Some(base)) = (c.build(), base_of(c)) else {
        return Ok(doc);
    };
    let (_text, _number) = (build.stamp().text(), build.number());
    let pair = Pair {
        classifier: Text::new(alloc, c.classifier())?,
        extension: Text::new(alloc, c.extension())?,
    };
    let base = Text::new(alloc, base)?;
    doc.with_build(pair, SnapshotBuild { base, build })
}

/// The document with a file, accepted at a moment.
pub fn with_file(alloc: Global, doc: Doc, c: &Coord<'_>, accepted: u64) -> Result<Doc, NoMemory>
    requires { accepted ≤ latest_moment }
    ensures { IfOk result (λ d. d ≡ record doc { listing = with_coordinates accepted (Some c.now) doc.listing }) }
{
    if is_artifact(&doc) {
        with_version_of(alloc, doc, c, accepted)
    } else {
        with_build_of(alloc, doc, c)
    }
}

/// The document of a directory with a row, where that is visible and the directory's.
fn with_row<H: Held>(
    alloc: Global,
    dir: &Dir<'_>,
    doc: Option<Doc>,
    path: &str,
    row: &Row<H>,
) -> Result<Option<Doc>, NoMemory>
    ensures { IfOk result (λ d. d ≡ added dir.now doc (shown_at path.now row.now)) }
{
    let Phase::Listed = row.phase else {
        return Ok(doc);
    };
    let Ok(Kind::File(c)) = kind_of(path) else {
        return Ok(doc);
    };
    if !is_in(dir, &c) {
        return Ok(doc);
    }
    let doc = match doc {
        Some(doc) => doc,
        None => empty(alloc, dir)?,
    };
    Ok(Some(with_file(alloc, doc, &c, row.accepted)?))
}

/// Walks over the rows from a text on, and gives the document with them; and where there may be more of the directory's rows
/// farther on, the text that the walk is to go on from. `base` and `word` are the directory's, as `step_from` takes them.
fn walk_from<H: Held>(
    alloc: Global,
    rows: &BTreeMap<String, Row<H>>,
    dir: &Dir<'_>,
    base: &str,
    word: &str,
    from: &String,
    doc: Option<Doc>,
) -> Result<(Option<Doc>, Option<String>), NoMemory>
    requires walk { IsWalkOf dir.now base.now word.now (is_some dir.now.version) }
    requires from { IsUpTo base.now (string_bytes from.now) }
    ensures left { IfOk result (λ r. gone_on dir.now (shown_rows rows.now.entries) doc (Some (string_bytes from.now))
        ≡ gone_on dir.now (shown_rows rows.now.entries) r.0 (option_map string_bytes r.1)) }
    ensures next { IfOk result (λ r. GoesOn base.now (string_bytes from.now) (shown_rows rows.now.entries) (option_map string_bytes r.1)) }
{
    let is_snapshot = dir.is_snapshot();
    let mut found = doc;
    for (path, row) in rows.range(from..) {
        match step_from(alloc, base, word, is_snapshot, path.as_str())? {
            Step::Here => found = with_row(alloc, dir, found, path.as_str(), row)?,
            Step::Past => return Ok((found, None)),
            Step::To(next) => return Ok((found, Some(next))),
        }
    }
    Ok((found, None))
}

/// The document of a directory; none where none of its rows is visible. Where its artifact can have no rows, as that of a
/// group, none is looked at.
pub fn document_of<H: Held>(
    alloc: Global,
    rows: &CountedRows<H>,
    dir: &Dir<'_>,
) -> Result<Option<Doc>, NoMemory>
    ensures { IfOk result (λ d. d ≡ document dir.now rows.now) }
{
    let home = joined(alloc, dir.group(), "/", dir.artifact(), "", "")?;
    if !rows.may_have(home.as_str()) {
        return Ok(None);
    }
    document_among(alloc, rows.map(), dir)
}

/// The same by a walk. It takes steps by the directory's rows, and by a few for each directory below it, not by all rows that
/// stand deeper.
fn document_among<H: Held>(
    alloc: Global,
    rows: &BTreeMap<String, Row<H>>,
    dir: &Dir<'_>,
) -> Result<Option<Doc>, NoMemory>
    ensures { IfOk result (λ d. d ≡ document dir.now (shown_rows rows.now.entries)) }
{
    let base = with_end(alloc, dir.path(), "/")?;
    let word = with_end(alloc, dir.artifact(), "-")?;
    let mut doc = None;
    let mut next = Some(with_end(alloc, dir.path(), "/")?);
    while let Some(from) = next {
        let (found, then) = walk_from(alloc, rows, dir, base.as_str(), word.as_str(), &from, doc)?;
        doc = found;
        next = then;
    }
    Ok(doc)
}

fn with_end(alloc: Global, text: &str, end: &str) -> Result<String, NoMemory>
    ensures { IfOk result (λ t. string_bytes t ≡ text.now ++ end.now) }
{
    let mut joined = String::from_str(alloc, text)?;
    joined.push_str(end)?;
    Ok(joined)
}
