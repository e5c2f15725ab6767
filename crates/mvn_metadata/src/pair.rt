//! The files of a snapshot directory, by classifier and extension.
ghost use Rattle.std.specs.Prelude.{◌≡◌, IfOk};
ghost use Rattle.std.proofs.Common.{refl};
ghost use Rattle.std.specs.Cmp.{partial_equiv_from_equiv, po};
ghost use Rattle.std.specs.Ordering.{as_partial_cmp};
ghost use Rattle.mvn_metadata.specs.Order.{build_cmp, pair_cmp, pair_cmp_total, pair_eq, pair_eq_equiv};

use crate::NoMemory;
use mvn_coords::Build;
use std::alloc::Global;
use std::cmp::Ordering;
use texts::Text;

/// What a file of a build is: its classifier, empty where it has none, and its extension. Pairs have the order of
/// their classifiers by bytes, and then of their extensions.
#[derive(Drop)]
pub struct Pair {
    pub classifier: Text,
    pub extension: Text,
}

/// A build of a pair: X of its version directory X-SNAPSHOT, and the build.
#[derive(Drop)]
pub struct SnapshotBuild {
    pub base: Text,
    pub build: Build,
}

impl Pair {
    /// Another copy of the pair.
    pub fn copied(&self, alloc: Global) -> Result<Pair, NoMemory>
        ensures { IfOk result (λ p. p ≡ self.now) }
    {
        Ok(Pair {
            classifier: self.classifier.copied(alloc)?,
            extension: self.extension.copied(alloc)?,
        })
    }
}

impl SnapshotBuild {
    /// Another copy of the build and its base.
    pub fn copied(&self, alloc: Global) -> Result<SnapshotBuild, NoMemory>
        ensures { IfOk result (λ h. h ≡ self.now) }
    {
        Ok(SnapshotBuild {
            base: self.base.copied(alloc)?,
            build: self.build,
        })
    }
}

/// The order of two builds: by timestamp, and at one timestamp by number.
pub(crate) fn compare_builds(left: Build, right: Build) -> Ordering
    ensures { result ≡ build_cmp left right }
{
    left.cmp(&right)
}

impl PartialEq for Pair {
    ghost eq = { pair_eq };

    ghost laws = { partial_equiv_from_equiv pair_eq_equiv };

    fn eq(&self, other: &Pair) -> bool {
        self.cmp(other) == Ordering::Equal
    }
}

impl Eq for Pair {
    ghost laws = { pair_eq_equiv };
}

impl Ord for Pair {
    ghost cmp = { pair_cmp };

    ghost total = { pair_cmp_total };

    ghost matches_partial_cmp = { λ p q. refl };

    ghost matches_eq = { λ p q. refl };

    fn cmp(&self, other: &Pair) -> Ordering {
        let classifiers = self.classifier.as_str().cmp(other.classifier.as_str());
        classifiers.then_with(|| self.extension.as_str().cmp(other.extension.as_str()))
    }
}

impl PartialOrd for Pair {
    ghost partial_cmp = { as_partial_cmp pair_cmp };

    ghost laws = { po pair_cmp_total (λ p q. refl) };

    fn partial_cmp(&self, other: &Pair) -> Option<Ordering> {
        Some(self.cmp(other))
    }
}
