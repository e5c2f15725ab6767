//! Builds that are old and have enough newer ones.
ghost use Rattle.std.specs.Prelude.{◌≡◌, ◌+◌, ◌*◌, map, count_by, nat_lt, IfOk};
ghost use Rattle.std.specs.Ordering.{is_lt};
ghost use Rattle.std.specs.List.Sorted.{IsPermutation, IsSorted};
ghost use Rattle.mvn_metadata.specs.Order.{build_cmp};
ghost use Rattle.repo_model.specs.Purge.{due};
ghost use Rattle.snapshot_purge.specs.Shown.{shown_builds, is_due_among};

use crate::NoMemory;
use mvn_coords::Build;
use std::alloc::Global;

/// A build of a snapshot directory (Maven 2 repository layout), and the greatest moment at which a visible file of it was
/// accepted, in seconds since 1970 in UTC.
#[derive(Clone, Copy, Debug)]
pub struct Aged {
    pub build: Build,
    pub accepted: u64,
}

/// What is kept of a snapshot directory: its newest builds, so many, and for so many days all others.
#[derive(Clone, Copy, Debug)]
pub struct Keep {
    pub count: u64,
    pub days: u64,
}

/// The seconds of a day.
const DAY: u64 = 86_400;

/// The builds that at a moment are no longer to be kept, in the order in which they are given: those with at least
/// `rule.count` newer ones among the given that were accepted more than `rule.days` days ago.
///
/// It takes as many steps as a sort of the builds.
pub fn due(alloc: Global, builds: &[Aged], rule: &Keep, now: u64) -> Result<Vec<Build>, NoMemory>
    ensures { IfOk result (λ found. found.items ≡ due (shown_builds builds.now) rule.now.count rule.now.days now) }
{
    let order = in_order(alloc, builds)?;
    let mut found = Vec::new(alloc);
    for aged in builds {
        if is_due(&order, aged, rule, now) {
            found.push(aged.build)?;
        }
    }
    Ok(found)
}

/// The builds without their ages.
fn without_ages(alloc: Global, builds: &[Aged]) -> Result<Vec<Build>, NoMemory>
    ensures { IfOk result (λ found. found.items ≡ map (λ a. a.build) builds.now) }
{
    builds.iter().map(|aged| aged.build).collect(alloc)
}

/// The builds in rising order.
fn in_order(alloc: Global, builds: &[Aged]) -> Result<Vec<Build>, NoMemory>
    ensures sorted { IfOk result (λ order. IsSorted build_cmp order.items) }
    ensures same { IfOk result (λ order. IsPermutation (map (λ a. a.build) builds.now) order.items) }
{
    let mut order = without_ages(alloc, builds)?;
    order.sort_unstable();
    Ok(order)
}

/// Whether a build is no longer to be kept beside builds that stand in rising order.
fn is_due(order: &[Build], aged: &Aged, rule: &Keep, now: u64) -> bool
    requires { IsSorted build_cmp order.now }
    ensures { result ≡ is_due_among order.now rule.now.count rule.now.days now aged.now }
{
    newer(order, aged.build) as u64 >= rule.count && is_old(aged.accepted, rule.days, now)
}

/// How many of the builds, which stand in rising order, are newer than a build.
fn newer(order: &[Build], build: Build) -> usize
    requires { IsSorted build_cmp order.now }
    ensures { result ≡ count_by (λ other. is_lt (build_cmp build other)) order.now }
{
    order.len() - order.partition_point(|other| *other <= build)
}

/// Whether so many days after a moment are over.
fn is_old(accepted: u64, days: u64, now: u64) -> bool
    ensures { result ≡ nat_lt (accepted + days * 86_400) now }
{
    let end = days
        .checked_mul(DAY)
        .and_then(|seconds| accepted.checked_add(seconds));
    // What does not fit comes after each moment.
    end.is_some_and(|end| end < now)
}
