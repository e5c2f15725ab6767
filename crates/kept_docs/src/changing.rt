//! Documents that change in their places by one more visible row, and what undoes that: no copy is made of the versions of an artifact.
ghost use Rattle.std.specs.Prelude.{◌≡◌, ◌≤◌, ℕ, List, None, Some, IfOk, OnErr, OnOk, true};
ghost use Rattle.mvn_coords.specs.Layout.{Directory, text_of_directory, text_of_document};
ghost use Rattle.mvn_coords.specs.Path.{IsDirectory};
ghost use Rattle.mvn_digest.specs.Digests.{digests_of};
ghost use Rattle.mvn_metadata.specs.Document.{lists_versions};
ghost use Rattle.mvn_metadata.specs.Written as form;
ghost use Rattle.repo_model.specs.Data.{Blob};
ghost use Rattle.repo_model.specs.Document.{with_coordinates};
ghost use Rattle.repo_model.specs.Effect.{new_row};
ghost use Rattle.repo_model.specs.History.{latest_moment};
ghost use Rattle.repo_model.specs.Paths.{stands_in};
ghost use Rattle.directory_rows.specs.Documents.{added};
ghost use Rattle.kept_docs.specs.Drafted.{HasFileMore, with_file_of};
ghost use Rattle.kept_docs.specs.Kept.{AreSame, document_in, kept_at};
ghost use Rattle.kept_docs.specs.Undone.{CanUndo, CanUndoRow, IsBefore, IsUndo, IsUndoOfRow, document_before, kept_before, without_change, as_before};

use crate::docs::Docs;
use crate::drafts::{artifact_document, version_document};
use directory_rows::{is_in, with_file};
use mvn_coords::{Coord, Dir, Kind, Stamp, kind_of};
use mvn_digest::Digests;
use mvn_metadata::{Listing, Undo, empty};
use mvn_version::Version;
use outside::NoMemory;
use shared_bytes::SharedBytes;
use std::alloc::Global;
use std::mem;
use written_docs::{WrittenDoc, text_of, written};

/// What the document of a directory was before it changed.
#[derive(Drop)]
pub(crate) enum Before {
    /// There was none.
    Nothing,
    /// Another one, which was kept.
    Other(WrittenDoc),
    /// The same without a version, or with an earlier moment of change, with its text and digests.
    Shorter {
        undo: Undo,
        text: SharedBytes,
        digests: Digests,
    },
}

/// A change of the document of the directory at a path.
#[derive(Drop)]
pub(crate) struct Change {
    path: String,
    before: Before,
}

/// What a visible row changed: the document of its artifact, and that of its version directory, which changed last.
#[derive(Drop)]
pub struct RowChange {
    artifact: Option<Change>,
    version: Option<Change>,
}

// Adds a file's version to a document in its place. On an `Err` the document is as before.
fn add_version(
    alloc: Global,
    kept: &mut WrittenDoc,
    c: &Coord<'_>,
    accepted: u64,
) -> Result<Before, NoMemory>
    requires moment { accepted ≤ latest_moment }
    requires artifact { lists_versions kept.old.doc.listing ≡ true }
    ensures more { OnOk result (kept.new.doc ≡ record kept.old.doc { listing = with_coordinates accepted (Some c.now) kept.old.doc.listing }) }
    ensures back { IfOk result (λ before. document_before before (Some kept.new.doc) ≡ Some kept.old.doc) }
    ensures can { IfOk result (λ before. IsBefore before (Some kept.new.doc)) }
    ensures err { OnErr result (kept.new.doc ≡ kept.old.doc) }
{
    // A file's path tells what its version directory is made of.
    let _path = c.path();
    let version = Version::parse(alloc, c.dir())?;
    let undo = kept.doc.add_version(version, Stamp::from_moment(accepted))?;
    match text_of(alloc, &kept.doc) {
        Ok((text, digests)) => Ok(Before::Shorter {
            undo,
            text: mem::replace(&mut kept.text, text),
            digests: mem::replace(&mut kept.digests, digests),
        }),
        Err(error) => {
            kept.doc.undo_version(&undo);
            Err(error)
        }
    }
}

// Puts another document with one more file in the place of one.
fn replace(
    alloc: Global,
    kept: &mut WrittenDoc,
    c: &Coord<'_>,
    accepted: u64,
) -> Result<Before, NoMemory>
    requires { accepted ≤ latest_moment }
    ensures more { OnOk result (kept.new.doc ≡ record kept.old.doc { listing = with_coordinates accepted (Some c.now) kept.old.doc.listing }) }
    ensures back { IfOk result (λ before. document_before before (Some kept.new.doc) ≡ Some kept.old.doc) }
    ensures can { IfOk result (λ before. IsBefore before (Some kept.new.doc)) }
    ensures err { OnErr result (kept.new.doc ≡ kept.old.doc) }
{
    let copy = kept.doc.copied(alloc)?;
    let doc = with_file(alloc, copy, c, accepted)?;
    let now = written(alloc, doc)?;
    Ok(Before::Other(mem::replace(kept, now)))
}

// Adds a file to a document in its place.
fn add_file(
    alloc: Global,
    kept: &mut WrittenDoc,
    c: &Coord<'_>,
    accepted: u64,
) -> Result<Before, NoMemory>
    requires { accepted ≤ latest_moment }
    ensures more { OnOk result (kept.new.doc ≡ record kept.old.doc { listing = with_coordinates accepted (Some c.now) kept.old.doc.listing }) }
    ensures back { IfOk result (λ before. document_before before (Some kept.new.doc) ≡ Some kept.old.doc) }
    ensures can { IfOk result (λ before. IsBefore before (Some kept.new.doc)) }
    ensures err { OnErr result (kept.new.doc ≡ kept.old.doc) }
{
    match kept.doc.listing() {
        Listing::Artifact { .. } => add_version(alloc, kept, c, accepted),
        Listing::Snapshot { .. } => replace(alloc, kept, c, accepted),
    }
}

// The first document of a directory, with a file.
fn first_document(
    alloc: Global,
    dir: &Dir<'_>,
    c: &Coord<'_>,
    accepted: u64,
) -> Result<WrittenDoc, NoMemory>
    requires moment { accepted ≤ latest_moment }
    requires there { stands_in dir.now (Some c.now) ≡ true }
    ensures { IfOk result (λ kept. Some kept.doc ≡ with_file_of dir.now c.now accepted None) }
{
    let doc = with_file(alloc, empty(alloc, dir)?, c, accepted)?;
    written(alloc, doc)
}

// Adds a file that stands in a directory to what is kept of it.
fn change_place(
    alloc: Global,
    place: &mut Option<WrittenDoc>,
    dir: &Dir<'_>,
    c: &Coord<'_>,
    accepted: u64,
) -> Result<Before, NoMemory>
    requires moment { accepted ≤ latest_moment }
    requires there { stands_in dir.now (Some c.now) ≡ true }
    ensures more { OnOk result (document_in place.new ≡ with_file_of dir.now c.now accepted (document_in place.old)) }
    ensures back { IfOk result (λ before. document_before before (document_in place.new) ≡ document_in place.old) }
    ensures can { IfOk result (λ before. IsBefore before (document_in place.new)) }
    ensures err { OnErr result (document_in place.new ≡ document_in place.old) }
{
    if let Some(kept) = place {
        return add_file(alloc, kept, c, accepted);
    }
    *place = Some(first_document(alloc, dir, c, accepted)?);
    Ok(Before::Nothing)
}

// Adds a file to the document of a directory in its place, where the file stands there.
fn change_in(
    alloc: Global,
    docs: &mut Docs,
    dir: &Dir<'_>,
    c: &Coord<'_>,
    accepted: u64,
) -> Result<Option<Change>, NoMemory>
    requires { accepted ≤ latest_moment }
    ensures more { OnOk result (HasFileMore (text_of_document dir.now) c.now accepted (λ text. kept_at text docs.old) (λ text. kept_at text docs.new)) }
    ensures undo { IfOk result (λ change. IsUndo change (λ text. kept_at text docs.old) (λ text. kept_at text docs.new)) }
    ensures err { OnErr result (AreSame docs.old docs.new) }
{
    // It tells that the directory has a document.
    let _path = dir.path();
    if !is_in(dir, c) {
        return Ok(None);
    }
    let path = String::from_str(alloc, dir.path())?;
    docs.add_place(alloc, path.as_str())?;
    let mut place = docs.take(path.as_str());
    let changed = change_place(alloc, &mut place, dir, c, accepted);
    docs.set(path.as_str(), place);
    match changed {
        Ok(before) => Ok(Some(Change { path, before })),
        Err(error) => {
            docs.drop_place(path.as_str());
            Err(error)
        }
    }
}

// Adds a file to the document at a path, where it is that of a directory in which the file stands.
fn change_at(
    alloc: Global,
    docs: &mut Docs,
    document: &str,
    c: &Coord<'_>,
    accepted: u64,
) -> Result<Option<Change>, NoMemory>
    requires { accepted ≤ latest_moment }
    ensures more { OnOk result (HasFileMore document.now c.now accepted (λ text. kept_at text docs.old) (λ text. kept_at text docs.new)) }
    ensures undo { IfOk result (λ change. IsUndo change (λ text. kept_at text docs.old) (λ text. kept_at text docs.new)) }
    ensures err { OnErr result (AreSame docs.old docs.new) }
{
    match kind_of(document) {
        Ok(Kind::Doc(dir)) => change_in(alloc, docs, &dir, c, accepted),
        Ok(Kind::File(_)) => Ok(None),
        Ok(Kind::FileSide(_, _)) => Ok(None),
        Ok(Kind::DocSide(_, _)) => Ok(None),
        Err(_) => Ok(None),
    }
}

// The document without a version, as it was written before.
fn shorter(kept: WrittenDoc, undo: &Undo, text: SharedBytes, digests: Digests) -> WrittenDoc
    requires text { text ≡ form.text (as_before kept.doc undo.now) }
    requires digests { digests ≡ digests_of text }
    ensures { result.doc ≡ as_before kept.doc undo.now }
{
    let WrittenDoc { doc, .. } = kept;
    let mut doc = doc;
    doc.undo_version(undo);
    WrittenDoc { doc, text, digests }
}

// Undoes a change, if there is one. It takes no memory.
fn undo_change(docs: &mut Docs, change: Option<Change>)
    requires { CanUndo change (λ text. kept_at text docs.old) }
    ensures { (text : List ℕ) → kept_at text docs.new ≡ without_change change (λ t. kept_at t docs.old) text }
{
    let Some(Change { path, before }) = change else {
        return;
    };
    let path = path.as_str();
    match before {
        Before::Nothing => docs.remove(path),
        Before::Other(kept) => docs.set(path, Some(kept)),
        Before::Shorter {
            undo,
            text,
            digests,
        } => {
            if let Some(kept) = docs.take(path) {
                docs.set(path, Some(shorter(kept, &undo, text, digests)));
            }
        }
    }
}

// Adds a file to the documents of its directories in their places.
fn change_both(
    alloc: Global,
    docs: &mut Docs,
    c: &Coord<'_>,
    accepted: u64,
) -> Result<RowChange, NoMemory>
    requires { accepted ≤ latest_moment }
    ensures more { OnOk result ((d : Directory) → IsDirectory d
        → kept_at (text_of_directory d) docs.new ≡ with_file_of d c.now accepted (kept_at (text_of_directory d) docs.old)) }
    ensures undo { IfOk result (λ change. IsUndoOfRow change docs.old docs.new) }
    ensures err { OnErr result (AreSame docs.old docs.new) }
{
    // It tells that the group has a byte.
    let _path = c.path();
    let artifact = artifact_document(alloc, c)?;
    let version = version_document(alloc, c)?;
    let first = change_at(alloc, docs, artifact.as_str(), c, accepted)?;
    match change_at(alloc, docs, version.as_str(), c, accepted) {
        Ok(second) => Ok(RowChange {
            artifact: first,
            version: second,
        }),
        Err(error) => {
            undo_change(docs, first);
            Err(error)
        }
    }
}

/// Adds a visible file at a path, accepted at a moment, in seconds since 1970 in UTC, to the documents of its directories, and gives
/// what undoes that. On an `Err` no document is changed.
pub fn add_row(
    alloc: Global,
    docs: &mut Docs,
    path: &str,
    accepted: u64,
) -> Result<RowChange, NoMemory>
    requires { accepted ≤ latest_moment }
    ensures more { OnOk result ((d : Directory) (blob : Blob) → IsDirectory d
        → kept_at (text_of_directory d) docs.new ≡ added d (kept_at (text_of_directory d) docs.old) (new_row path.now blob accepted)) }
    ensures undo { IfOk result (λ change. IsUndoOfRow change docs.old docs.new) }
    ensures err { OnErr result (AreSame docs.old docs.new) }
{
    match kind_of(path) {
        Ok(Kind::File(c)) => change_both(alloc, docs, &c, accepted),
        Ok(Kind::FileSide(_, _)) => Ok(no_change()),
        Ok(Kind::Doc(_)) => Ok(no_change()),
        Ok(Kind::DocSide(_, _)) => Ok(no_change()),
        Err(_) => Ok(no_change()),
    }
}

// Of no document.
fn no_change() -> RowChange
    ensures artifact { result.artifact ≡ None }
    ensures version { result.version ≡ None }
{
    RowChange {
        artifact: None,
        version: None,
    }
}

/// Undoes what a visible file changed. It takes no memory.
pub fn undo_row(docs: &mut Docs, change: RowChange)
    requires { CanUndoRow change docs.old }
    ensures { (text : List ℕ) → kept_at text docs.new ≡ kept_before text change docs.old }
{
    let RowChange { artifact, version } = change;
    undo_change(docs, version);
    undo_change(docs, artifact);
}
