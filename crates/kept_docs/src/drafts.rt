//! Documents that are to be, before they are written.
ghost use Rattle.std.specs.Prelude.{◌≡◌, ◌≤◌, ◌++◌, ◌∷◌, ℕ, List, None, Some, IfOk, IsSome, OnOk, codes, string_bytes, true, unwrap_or};
ghost use Rattle.std.specs.Option.{option_copied, option_map};
ghost use Rattle.mvn_coords.specs.Layout.{Directory, artifact_directory_of, text_of_directory, text_of_document, version_directory_of};
ghost use Rattle.mvn_coords.specs.Path.{IsDirectory};
ghost use Rattle.mvn_metadata.specs.Document.{blank, settled};
ghost use Rattle.repo_model.specs.Data.{Blob};
ghost use Rattle.repo_model.specs.Document.{document};
ghost use Rattle.repo_model.specs.Effect.{new_row};
ghost use Rattle.repo_model.specs.History.{latest_moment};
ghost use Rattle.repo_model.specs.Paths.{file_at, stands_in};
ghost use Rattle.directory_rows.specs.Documents.{added};
ghost use Rattle.kept_docs.specs.Drafted.{AreRight, HasDraftMore, HasWalked, IsDraftedAt, KeepsDrafts, draft_at, drafted, with_file_of};
ghost use Rattle.kept_docs.specs.Kept.{kept_at};
ghost use Rattle.kept_docs.specs.Placed.{page_at};

use crate::docs::Docs;
use crate::pages::Page;
use directory_rows::{document_of, is_in, with_file};
use mvn_coords::{Coord, Dir, Kind, kind_of};
use mvn_metadata::{Doc, empty};
use ordered_rows::{CountedRows, joined};
use outside::{Held, NoMemory};
use std::alloc::Global;
use std::collections::BTreeMap;
use written_docs::written;

/// The documents that directories are to have, or that they are to have none, by the paths of the directories.
#[derive(Drop)]
pub struct Drafts {
    map: BTreeMap<String, Option<Doc>>,
}

// The path of the document of a file's artifact.
pub(crate) fn artifact_document(alloc: Global, c: &Coord<'_>) -> Result<String, NoMemory>
    ensures { IfOk result (λ t. string_bytes t ≡ artifact_directory_of c.now ++ 47 ∷ codes "maven-metadata.xml") }
{
    let path = joined(
        alloc,
        c.group(),
        "/",
        c.artifact(),
        "/",
        "maven-metadata.xml",
    )?;
    Ok(path)
}

// The path of the document of a file's version directory.
pub(crate) fn version_document(alloc: Global, c: &Coord<'_>) -> Result<String, NoMemory>
    ensures { IfOk result (λ t. string_bytes t ≡ version_directory_of c.now ++ 47 ∷ codes "maven-metadata.xml") }
{
    let mut path = joined(alloc, c.group(), "/", c.artifact(), "/", c.dir())?;
    path.push_str("/maven-metadata.xml")?;
    Ok(path)
}

// What is to be at a path: a document, or none.
fn page_of(alloc: Global, path: String, doc: Option<Doc>) -> Result<Page, NoMemory>
    ensures path { IfOk result (λ page. page.path ≡ path) }
    ensures doc { IfOk result (λ page. option_map (λ kept. kept.doc) page.kept ≡ doc) }
{
    let kept = match doc {
        Some(doc) => Some(written(alloc, doc)?),
        None => None,
    };
    Ok(Page { path, kept })
}

impl Drafts {
    /// No drafts.
    pub fn new(alloc: Global) -> Drafts
        ensures { (text : List ℕ) → draft_at text result ≡ None }
    {
        Drafts {
            map: BTreeMap::new(alloc),
        }
    }

    // Takes the draft of a directory out, or a copy of its document that is kept, or one in which nothing is listed.
    fn take(&mut self, alloc: Global, docs: &Docs, dir: &Dir<'_>) -> Result<Doc, NoMemory>
        ensures taken { IfOk result (λ doc. doc ≡ unwrap_or (drafted (text_of_directory dir.now) docs.now self.old) (settled blank dir.now)) }
        ensures others { (text : List ℕ) → (text ≡ text_of_directory dir.now → ⊥) → draft_at text self.new ≡ draft_at text self.old }
    {
        match self.map.remove(dir.path()) {
            Some(Some(doc)) => Ok(doc),
            Some(None) => empty(alloc, dir),
            None => match docs.get(dir) {
                Some(kept) => kept.doc.copied(alloc),
                None => empty(alloc, dir),
            },
        }
    }

    // Drafts the document of a directory, or that it has none.
    fn put(&mut self, alloc: Global, dir: &Dir<'_>, doc: Option<Doc>) -> Result<(), NoMemory>
        ensures { OnOk result (IsDraftedAt (text_of_directory dir.now) doc self.old self.new) }
    {
        let path = String::from_str(alloc, dir.path())?;
        self.map.insert(path, doc)?;
        Ok(())
    }

    // Adds a file to the document of a directory, where it stands there.
    fn add_in(
        &mut self,
        alloc: Global,
        docs: &Docs,
        dir: &Dir<'_>,
        c: &Coord<'_>,
        accepted: u64,
    ) -> Result<(), NoMemory>
        requires { accepted ≤ latest_moment }
        ensures { OnOk result (HasDraftMore (text_of_document dir.now) c.now accepted docs.now self.old self.new) }
    {
        // It tells that the directory has a document.
        let _path = dir.path();
        if !is_in(dir, c) {
            return Ok(());
        }
        let doc = self.take(alloc, docs, dir)?;
        let more = with_file(alloc, doc, c, accepted)?;
        self.put(alloc, dir, Some(more))
    }

    // Adds a file to the document at a path, where it is that of a directory in which the file stands.
    fn add_at(
        &mut self,
        alloc: Global,
        docs: &Docs,
        document: &str,
        c: &Coord<'_>,
        accepted: u64,
    ) -> Result<(), NoMemory>
        requires { accepted ≤ latest_moment }
        ensures { OnOk result (HasDraftMore document.now c.now accepted docs.now self.old self.new) }
    {
        match kind_of(document) {
            Ok(Kind::Doc(dir)) => self.add_in(alloc, docs, &dir, c, accepted),
            Ok(Kind::File(_)) => Ok(()),
            Ok(Kind::FileSide(_, _)) => Ok(()),
            Ok(Kind::DocSide(_, _)) => Ok(()),
            Err(_) => Ok(()),
        }
    }

    // Adds a file to the documents of its directories.
    fn add_file(
        &mut self,
        alloc: Global,
        docs: &Docs,
        c: &Coord<'_>,
        accepted: u64,
    ) -> Result<(), NoMemory>
        requires { accepted ≤ latest_moment }
        ensures { OnOk result ((d : Directory) → IsDirectory d
            → drafted (text_of_directory d) docs.now self.new ≡ with_file_of d c.now accepted (drafted (text_of_directory d) docs.now self.old)) }
    {
        // It tells that the group has a byte.
        let _path = c.path();
        let artifact = artifact_document(alloc, c)?;
        let first = artifact.as_str();
        self.add_at(alloc, docs, first, c, accepted)?;
        let version = version_document(alloc, c)?;
        let second = version.as_str();
        self.add_at(alloc, docs, second, c, accepted)
    }

    /// Adds a visible file at a path, accepted at a moment, in seconds since 1970 in UTC, to the documents of its directories: those
    /// that are drafted, and else copies of those that are kept.
    pub fn add(
        &mut self,
        alloc: Global,
        docs: &Docs,
        path: &str,
        accepted: u64,
    ) -> Result<(), NoMemory>
        requires { accepted ≤ latest_moment }
        ensures { OnOk result ((d : Directory) (blob : Blob) → IsDirectory d
            → drafted (text_of_directory d) docs.now self.new ≡ added d (drafted (text_of_directory d) docs.now self.old) (new_row path.now blob accepted)) }
    {
        match kind_of(path) {
            Ok(Kind::File(c)) => self.add_file(alloc, docs, &c, accepted),
            Ok(Kind::FileSide(_, _)) => Ok(()),
            Ok(Kind::Doc(_)) => Ok(()),
            Ok(Kind::DocSide(_, _)) => Ok(()),
            Err(_) => Ok(()),
        }
    }

    // Drafts the document of a directory as the rows have it, where it is not drafted yet.
    fn walk_in<H: Held>(
        &mut self,
        alloc: Global,
        rows: &CountedRows<H>,
        dir: &Dir<'_>,
    ) -> Result<(), NoMemory>
        requires { AreRight self.old rows.now }
        ensures { OnOk result (HasWalked (text_of_document dir.now) rows.now self.old self.new) }
    {
        // It tells that the directory has a document.
        let _path = dir.path();
        if self.map.contains_key(dir.path()) {
            return Ok(());
        }
        let doc = document_of(alloc, rows, dir)?;
        self.put(alloc, dir, doc)
    }

    // Drafts the document at a path as the rows have it, where it is that of a directory and not drafted yet.
    fn walk_at<H: Held>(
        &mut self,
        alloc: Global,
        rows: &CountedRows<H>,
        document: &str,
    ) -> Result<(), NoMemory>
        requires { AreRight self.old rows.now }
        ensures { OnOk result (HasWalked document.now rows.now self.old self.new) }
    {
        match kind_of(document) {
            Ok(Kind::Doc(dir)) => self.walk_in(alloc, rows, &dir),
            Ok(Kind::File(_)) => Ok(()),
            Ok(Kind::FileSide(_, _)) => Ok(()),
            Ok(Kind::DocSide(_, _)) => Ok(()),
            Err(_) => Ok(()),
        }
    }

    // The same of a file's directories.
    fn walk_file<H: Held>(
        &mut self,
        alloc: Global,
        rows: &CountedRows<H>,
        c: &Coord<'_>,
    ) -> Result<(), NoMemory>
        requires { AreRight self.old rows.now }
        ensures right { OnOk result (AreRight self.new rows.now) }
        ensures kept { OnOk result (KeepsDrafts self.old self.new) }
        ensures walked { OnOk result ((d : Directory) → IsDirectory d → stands_in d (Some c.now) ≡ true → IsSome (draft_at (text_of_directory d) self.new)) }
    {
        // It tells that the group has a byte.
        let _path = c.path();
        let artifact = artifact_document(alloc, c)?;
        let first = artifact.as_str();
        self.walk_at(alloc, rows, first)?;
        let version = version_document(alloc, c)?;
        let second = version.as_str();
        self.walk_at(alloc, rows, second)
    }

    /// Drafts the documents of a file's directories as the rows have them, where they are not drafted yet.
    pub fn walk<H: Held>(
        &mut self,
        alloc: Global,
        rows: &CountedRows<H>,
        path: &str,
    ) -> Result<(), NoMemory>
        requires { AreRight self.old rows.now }
        ensures right { OnOk result (AreRight self.new rows.now) }
        ensures kept { OnOk result (KeepsDrafts self.old self.new) }
        ensures walked { OnOk result ((d : Directory) → IsDirectory d → stands_in d (file_at path.now) ≡ true
            → IsSome (draft_at (text_of_directory d) self.new)) }
    {
        match kind_of(path) {
            Ok(Kind::File(c)) => self.walk_file(alloc, rows, &c),
            Ok(Kind::FileSide(_, _)) => Ok(()),
            Ok(Kind::Doc(_)) => Ok(()),
            Ok(Kind::DocSide(_, _)) => Ok(()),
            Err(_) => Ok(()),
        }
    }

    /// The drafts as they are written, each once.
    pub fn written(self, alloc: Global) -> Result<Vec<Page>, NoMemory>
        ensures { IfOk result (λ pages. (text : List ℕ) → page_at text pages.items ≡ draft_at text self) }
    {
        let mut pages = Vec::new(alloc);
        let Drafts { map } = self;
        for (path, doc) in map {
            let page = page_of(alloc, path, doc)?;
            pages.push(page)?;
        }
        Ok(pages)
    }
}
