//! The entries of a snapshot directory's document.
ghost use Rattle.std.specs.Prelude.{◌≡◌, ◌↔◌, ◌++◌, [], IfOk, IsTrue, OnOk, OnErr, bytes_eq, codes, filter};
ghost use Rattle.mvn_metadata.specs.Document.{is_of};
ghost use Rattle.mvn_metadata.specs.Merge.{is_newer, with_entries, with_entry};
ghost use Rattle.mvn_metadata.specs.Order.{pair_cmp};
ghost use Rattle.std.specs.FinMap.Entries.{is_sorted};
ghost use Rattle.std.specs.Map.{lookup};
ghost use Rattle.std.specs.BTreeMap.{is_at};

use crate::pair::compare_builds;
use crate::{NoMemory, Pair, SnapshotBuild};
use byte_cuts::text::behind;
use std::alloc::Global;
use std::cmp::Ordering;
use std::collections::BTreeMap;
use std::collections::btree_map::Iter;
use std::marker::Model;

/// The newest build of each pair of classifier and extension, in the order of the pairs. A contract sees the list.
#[derive(Drop)]
pub struct Entries {
    map: BTreeMap<Pair, SnapshotBuild>,
}

impl Model for Entries {
    ghost use Rattle.std.specs.Prelude.{List};
    ghost use Rattle.mvn_metadata.specs.Merge.{Entry};

    ghost Value = { List Entry };

    ghost view = { λ e. e.map.entries };
}

impl Entries {
    /// No entries.
    pub fn new(alloc: Global) -> Entries
        ensures { result ≡ [] }
    {
        Entries {
            map: BTreeMap::new(alloc),
        }
    }

    // Whether the build is newer than the one that is kept for the pair, or none is.
    fn is_newer(&self, pair: &Pair, snapshot: &SnapshotBuild) -> bool
        ensures { result ≡ is_newer snapshot.now (lookup (is_at (pair_cmp pair.now)) self.now) }
    {
        match self.map.get(pair) {
            Some(kept) => compare_builds(kept.build, snapshot.build) == Ordering::Less,
            None => true,
        }
    }

    /// Adds an entry, which counts where it is newer than the one of its pair. On an `Err` the entries are as before.
    pub fn add(&mut self, pair: Pair, snapshot: SnapshotBuild) -> Result<(), NoMemory>
        ensures ok { OnOk result (self.new ≡ with_entry self.old (pair, snapshot)) }
        ensures err { OnErr result (self.new ≡ self.old) }
    {
        if !self.is_newer(&pair, &snapshot) {
            return Ok(());
        }
        self.map.insert(pair, snapshot)?;
        Ok(())
    }

    /// Adds each of the entries. On an `Err` some may have been added.
    pub(crate) fn add_all(&mut self, alloc: Global, entries: &Entries) -> Result<(), NoMemory>
        ensures { OnOk result (self.new ≡ with_entries self.old entries.now) }
    {
        for (pair, snapshot) in entries.map.iter() {
            self.add(pair.copied(alloc)?, snapshot.copied(alloc)?)?;
        }
        Ok(())
    }

    /// Another copy of the entries.
    pub(crate) fn copied(&self, alloc: Global) -> Result<Entries, NoMemory>
        requires { IsTrue (is_sorted pair_cmp self.now) }
        ensures { IfOk result (λ e. e ≡ self.now) }
    {
        let mut copies = Entries::new(alloc);
        copies.add_all(alloc, self)?;
        Ok(copies)
    }

    /// Keeps the entries of a version directory.
    pub(crate) fn keep_of(&mut self, directory: &str)
        ensures { self.new ≡ filter (is_of directory.now) self.old }
    {
        self.map
            .retain(|_, snapshot| is_in(snapshot.base.as_str(), directory));
    }

    /// Whether there are no entries.
    pub fn is_empty(&self) -> bool
        ensures { IsTrue result ↔ (self.now ≡ []) }
    {
        self.map.is_empty()
    }

    /// The entries, in the order of their pairs.
    pub fn iter(&self) -> Iter<'_, Pair, SnapshotBuild>
        ensures { result ≡ self.now }
    {
        self.map.iter()
    }
}

// Whether a version directory is X-SNAPSHOT.
fn is_in(base: &str, directory: &str) -> bool
    ensures { result ≡ bytes_eq (base.now ++ codes "-SNAPSHOT") directory.now }
{
    match behind(base, directory) {
        Some(rest) => rest == "-SNAPSHOT",
        None => false,
    }
}
