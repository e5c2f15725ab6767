//! The documents of a group, kept by the paths of their directories.
ghost use Rattle.std.specs.Prelude.{◌≡◌, ℕ, List, None, Some, OnErr, OnOk, if◌then◌else◌, bytes_eq};
ghost use Rattle.std.specs.Option.{option_map};
ghost use Rattle.mvn_coords.specs.Layout.{text_of_directory};
ghost use Rattle.mvn_coords.specs.Path.{IsDirectory};
ghost use Rattle.group_view.specs.Shelved.{AreSame, shelved_at};

use mvn_coords::Dir;
use mvn_metadata::NoMemory;
use std::alloc::Global;
use std::collections::BTreeMap;
use written_docs::WrittenDoc;

/// Documents as they are written, by the paths of their directories.
#[derive(Drop)]
pub struct GroupShelf {
    map: BTreeMap<String, WrittenDoc>,
}

impl GroupShelf {
    /// No documents.
    pub fn new(alloc: Global) -> GroupShelf
        ensures { (text : List ℕ) → shelved_at text result ≡ None }
    {
        GroupShelf {
            map: BTreeMap::new(alloc),
        }
    }

    /// The document of a directory, lent; none where it has nothing there. It takes no memory.
    pub fn get(&self, dir: &Dir<'_>) -> Option<&WrittenDoc>
        ensures document { option_map (λ w. w.now.doc) result ≡ shelved_at (text_of_directory dir.now) self.now }
        ensures rule { IsDirectory dir.now }
    {
        self.map.get(dir.path())
    }

    /// Keeps the document of a directory, in the place of the one that is there. When memory runs out nothing is changed.
    pub fn keep(
        &mut self,
        alloc: Global,
        dir: &Dir<'_>,
        written: WrittenDoc,
    ) -> Result<(), NoMemory>
        ensures ok { OnOk result ((text : List ℕ)
            → shelved_at text self.new ≡ (if bytes_eq text (text_of_directory dir.now) then Some written.doc else shelved_at text self.old)) }
        ensures err { OnErr result (AreSame self.old self.new) }
    {
        let path = String::from_str(alloc, dir.path())?;
        self.map.insert(path, written)?;
        Ok(())
    }

    /// Forgets the document of the directory at a path. It takes no memory.
    pub fn forget(&mut self, path: &str)
        ensures { (text : List ℕ) → shelved_at text self.new ≡ (if bytes_eq text path.now then None else shelved_at text self.old) }
    {
        self.map.remove(path);
    }

    /// Forgets all documents. It takes no memory.
    pub fn forget_all(&mut self)
        ensures { (text : List ℕ) → shelved_at text self.new ≡ None }
    {
        self.map.clear();
    }
}
