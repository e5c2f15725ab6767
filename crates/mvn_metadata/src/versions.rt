//! The versions that a document lists.
ghost use Rattle.std.specs.Prelude.{◌≡◌, ◌↔◌, [], if◌then◌else◌, IfOk, IsTrue, OnOk, OnErr};
ghost use Rattle.std.specs.BTreeMap.{is_at};
ghost use Rattle.std.specs.Option.{option_copied};
ghost use Rattle.mvn_metadata.specs.Document.{is_snapshot, latest, release};
ghost use Rattle.std.specs.BTreeSet.{insert_key};
ghost use Rattle.std.specs.Set.{remove_key};
ghost use Rattle.mvn_metadata.specs.Merge.{with_versions};
ghost use Rattle.mvn_version.specs.Order.{list_cmp};

use crate::NoMemory;
use mvn_version::Version;
use std::alloc::Global;
use std::collections::BTreeSet;
use std::collections::btree_set::Iter;
use std::marker::Model;

/// Versions, each once, in the order of lists of versions. A contract sees the list of their texts.
#[derive(Drop)]
pub struct Versions {
    set: BTreeSet<Version>,
}

impl Model for Versions {
    ghost use Rattle.std.specs.Prelude.{ℕ, List};

    ghost Value = { List (List ℕ) };

    ghost view = { λ v. v.set.keys };
}

impl Versions {
    /// No versions.
    pub fn new(alloc: Global) -> Versions
        ensures { result ≡ [] }
    {
        Versions {
            set: BTreeSet::new(alloc),
        }
    }

    /// Adds a version, unless its text is there, and tells whether it was not: then the versions without it are those before. On an
    /// `Err` the versions are as before.
    pub fn add(&mut self, version: Version) -> Result<bool, NoMemory>
        ensures ok { OnOk result (self.new ≡ insert_key list_cmp self.old version) }
        ensures undo { IfOk result (λ is_new. self.old ≡ (if is_new then remove_key (is_at (list_cmp version)) self.new else self.new)) }
        ensures err { OnErr result (self.new ≡ self.old) }
    {
        let is_new = self.set.insert(version)?;
        Ok(is_new)
    }

    /// Takes a version out, where its text is there. It takes no memory.
    pub(crate) fn remove(&mut self, version: &Version)
        ensures { self.new ≡ remove_key (is_at (list_cmp version.now)) self.old }
    {
        self.set.remove(version);
    }

    /// Adds each of the versions, which are shared. On an `Err` some may have been added.
    pub(crate) fn add_all(&mut self, versions: &Versions) -> Result<(), NoMemory>
        ensures { OnOk result (self.new ≡ with_versions self.old versions.now) }
    {
        for version in versions.set.iter() {
            self.add(version.clone()?)?;
        }
        Ok(())
    }

    /// Another copy of the versions, which shares each of them.
    pub(crate) fn copied(&self) -> Result<Versions, NoMemory>
        ensures { IfOk result (λ v. v ≡ self.now) }
    {
        let set = self.set.clone()?;
        Ok(Versions { set })
    }

    /// Whether there are no versions.
    pub fn is_empty(&self) -> bool
        ensures { IsTrue result ↔ (self.now ≡ []) }
    {
        self.set.is_empty()
    }

    /// The versions, in order.
    pub fn iter(&self) -> Iter<'_, Version>
        ensures { result ≡ self.now }
    {
        self.set.iter()
    }

    /// The last version.
    pub fn latest(&self) -> Option<&str>
        ensures { option_copied result ≡ latest self.now }
    {
        let version = self.set.iter().next_back()?;
        Some(version.as_str())
    }

    /// The last version that does not end in `-SNAPSHOT`.
    pub fn release(&self) -> Option<&str>
        ensures { option_copied result ≡ release self.now }
    {
        let mut versions = self.set.iter();
        'back: while let Some(version) = versions.next_back() {
            let text = version.as_str();
            if !is_snapshot(text) {
                return Some(text);
            }
        }
        None
    }
}

#[tactic(auto, using(std::proofs::lemmas::Str::Pattern::ends_text))]
fn is_snapshot(version: &str) -> bool
    ensures { result ≡ is_snapshot version.now }
{
    version.ends_with("-SNAPSHOT")
}
