//! Documents that are kept by the paths of their directories.
ghost use Rattle.std.specs.Prelude.{◌≡◌, ℕ, List, None, Some, IsSome, OnOk, if◌then◌else◌, bytes_eq, string_bytes};
ghost use Rattle.std.specs.Option.{option_copied, option_map};
ghost use Rattle.mvn_coords.specs.Layout.{text_of_directory};
ghost use Rattle.mvn_coords.specs.Path.{IsDirectory};
ghost use Rattle.kept_docs.specs.Kept.{AreSame, document_in, kept_at, place_at};
ghost use Rattle.kept_docs.specs.Placed.{HasRoom, placed};

use crate::pages::Page;
use mvn_coords::Dir;
use outside::NoMemory;
use std::alloc::Global;
use std::collections::BTreeMap;
use std::mem;
use written_docs::WrittenDoc;

/// Documents by the paths of their directories. A path may have a place in which no document is.
#[derive(Drop)]
pub struct Docs {
    map: BTreeMap<String, Option<WrittenDoc>>,
}

impl Docs {
    /// No documents.
    pub fn new(alloc: Global) -> Docs
        ensures { (text : List ℕ) → kept_at text result ≡ None }
    {
        Docs {
            map: BTreeMap::new(alloc),
        }
    }

    /// The document of a directory, lent. It takes no memory.
    pub fn get(&self, dir: &Dir<'_>) -> Option<&WrittenDoc>
        ensures document { option_map (λ kept. kept.now.doc) result ≡ kept_at (text_of_directory dir.now) self.now }
        ensures rule { IsDirectory dir.now }
    {
        match self.map.get(dir.path()) {
            Some(Some(kept)) => Some(kept),
            _ => None,
        }
    }

    // Gives a path a place.
    pub(crate) fn add_place(&mut self, alloc: Global, path: &str) -> Result<(), NoMemory>
        ensures same { AreSame self.old self.new }
        ensures kept { (text : List ℕ) → IsSome (place_at text self.old) → IsSome (place_at text self.new) }
        ensures place { OnOk result (IsSome (place_at path.now self.new)) }
    {
        if self.map.contains_key(path) {
            return Ok(());
        }
        let key = String::from_str(alloc, path)?;
        self.map.insert(key, None)?;
        Ok(())
    }

    // Takes the place of a path away where no document is in it.
    pub(crate) fn drop_place(&mut self, path: &str)
        ensures { AreSame self.old self.new }
    {
        if let Some(None) = self.map.get(path) {
            self.map.remove(path);
        }
    }

    // Takes the document of a path out of its place.
    pub(crate) fn take(&mut self, path: &str) -> Option<WrittenDoc>
        ensures taken { document_in result ≡ kept_at path.now self.old }
        ensures rest { (text : List ℕ) → kept_at text self.new ≡ (if bytes_eq text path.now then None else kept_at text self.old) }
        ensures places { (text : List ℕ) → IsSome (place_at text self.old) → IsSome (place_at text self.new) }
    {
        match self.map.get_mut(path) {
            Some(place) => mem::take(place),
            None => None,
        }
    }

    // Takes the place of a path away, with what is in it.
    pub(crate) fn remove(&mut self, path: &str)
        ensures { (text : List ℕ) → kept_at text self.new ≡ (if bytes_eq text path.now then None else kept_at text self.old) }
    {
        self.map.remove(path);
    }

    // Puts a document, or none, in the place of a path.
    pub(crate) fn set(&mut self, path: &str, kept: Option<WrittenDoc>)
        requires { IsSome (place_at path.now self.old) }
        ensures set { (text : List ℕ) → kept_at text self.new ≡ (if bytes_eq text path.now then document_in kept else kept_at text self.old) }
        ensures places { (text : List ℕ) → IsSome (place_at text self.old) → IsSome (place_at text self.new) }
    {
        if let Some(place) = self.map.get_mut(path) {
            *place = kept;
        }
    }

    /// Makes room for pages. No document changes.
    pub fn make_room(&mut self, alloc: Global, pages: &[Page]) -> Result<(), NoMemory>
        ensures same { AreSame self.old self.new }
        ensures room { OnOk result (HasRoom self.new pages.now) }
    {
        for page in pages {
            self.add_place(alloc, page.path.as_str())?;
        }
        Ok(())
    }

    /// Gives up the room that was made for pages. It takes no memory, and no document changes.
    pub fn give_up(&mut self, pages: &[Page])
        ensures { AreSame self.old self.new }
    {
        for page in pages {
            self.drop_place(page.path.as_str());
        }
    }

    /// Puts pages in the places of the documents that were kept there. It takes no memory.
    pub fn place(&mut self, pages: Vec<Page>)
        requires { HasRoom self.old pages.items }
        ensures { (text : List ℕ) → kept_at text self.new ≡ placed text self.old pages.items }
    {
        let mut pages = pages;
        while let Some(page) = pages.pop() {
            let Page { path, kept } = page;
            self.set(path.as_str(), kept);
        }
    }
}
