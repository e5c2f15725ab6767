//! The builds of a snapshot directory, file after file, and which of them are due.
ghost use Rattle.std.specs.Prelude.{◌≡◌, [], IfOk, OnOk, OnErr};
ghost use Rattle.std.specs.List.{list_any};
ghost use Rattle.std.specs.Option.{option_copied};
ghost use Rattle.mvn_coords.specs.FileName.{BuildOf};
ghost use Rattle.repo_model.specs.Purge.{aged, due, is_same_build};
ghost use Rattle.snapshot_purge.specs.Shown.{shown_builds};
ghost use Rattle.snapshot_purge.specs.Ages.{HaveSameBuilds, latest};

use crate::NoMemory;
use crate::builds::{Aged, Keep, due};
use mvn_coords::Build;
use std::alloc::Global;
use std::collections::BTreeMap;
use std::marker::Model;

/// The builds of a snapshot directory (Maven 2 repository layout), each once, with the greatest moment at which a file of
/// it was accepted, in seconds since 1970 in UTC. A file takes at most as many steps as the logarithm of the builds.
#[derive(Drop)]
pub struct Ages {
    builds: BTreeMap<Build, u64>,
}

impl Model for Ages {
    ghost use Rattle.std.specs.Prelude.{List};
    ghost use Rattle.repo_model.specs.Purge as plain;
    ghost use Rattle.snapshot_purge.specs.Ages.{shown_ages};

    ghost Value = { List plain.Aged };

    ghost view = { λ a. shown_ages a.builds.entries };
}

impl Ages {
    /// No builds.
    pub fn new(alloc: Global) -> Ages
        ensures { result ≡ [] }
    {
        Ages {
            builds: BTreeMap::new(alloc),
        }
    }

    /// Adds a file of a build, accepted at a moment.
    pub fn add(&mut self, build: Build, accepted: u64) -> Result<(), NoMemory>
        ensures ok { OnOk result (HaveSameBuilds self.new (aged accepted build self.old)) }
        ensures err { OnErr result (self.new ≡ self.old) }
    {
        let newest = latest(self.builds.get(&build), accepted);
        self.builds.insert(build, newest)?;
        Ok(())
    }

    /// The builds that at a moment are no longer to be kept.
    pub fn due(&self, alloc: Global, rule: &Keep, now: u64) -> Result<DueBuilds, NoMemory>
        ensures { IfOk result (λ found. (b : BuildOf) → list_any (is_same_build b) found
            ≡ list_any (is_same_build b) (due self.now rule.now.count rule.now.days now)) }
    {
        let builds = self.listed(alloc)?;
        let mut found = due(alloc, builds.as_slice(), rule, now)?;
        found.sort_unstable();
        Ok(DueBuilds { builds: found })
    }

    /// The builds in rising order.
    fn listed(&self, alloc: Global) -> Result<Vec<Aged>, NoMemory>
        ensures { IfOk result (λ builds. shown_builds builds.items ≡ self.now) }
    {
        let mut builds = Vec::new(alloc);
        for (build, accepted) in &self.builds {
            builds.push(Aged {
                build: *build,
                accepted: *accepted,
            })?;
        }
        Ok(builds)
    }
}

/// The later one of two moments, of which the first may be missing.
fn latest(before: Option<&u64>, accepted: u64) -> u64
    ensures { result ≡ latest (option_copied before.entry) accepted }
{
    match before {
        Some(before) => (*before).max(accepted),
        None => accepted,
    }
}

/// Builds that are no longer to be kept.
#[derive(Drop)]
pub struct DueBuilds {
    builds: Vec<Build>,
}

impl Model for DueBuilds {
    ghost use Rattle.std.specs.Prelude.{List};
    ghost use Rattle.std.specs.List.Sorted.{IsSorted};
    ghost use Rattle.mvn_coords.specs.FileName.{BuildOf};
    ghost use Rattle.mvn_metadata.specs.Order.{build_cmp};

    ghost Value = { List BuildOf };

    ghost view = { λ d. d.builds.items };

    ghost invariant = { λ d. IsSorted build_cmp d.builds.items };
}

impl DueBuilds {
    /// Whether a build is one of them. It takes at most as many steps as their logarithm.
    pub fn has(&self, build: Build) -> bool
        ensures { result ≡ list_any (is_same_build build) self.now }
    {
        self.builds.binary_search(&build).is_ok()
    }
}
