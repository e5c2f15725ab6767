//! The purge over all repositories: rows whose grace period is over go, and their blobs become garbage.
ghost use Rattle.std.specs.Prelude.{◌≡◌, ◌≤◌, length, map, vec_len, IfOk};
ghost use Rattle.std.specs.List.{AllByRecursion};
ghost use Rattle.ordered_rows.specs.Recording.{IsRemoved};
ghost use Rattle.repo_model.specs.Purge.{expire_all, most_rows};
ghost use Rattle.repo_model.specs.Effect.{recorded};
ghost use Rattle.hosted_repo.specs.Expired.{blob_of};
ghost use Rattle.repo_parts.specs.Purge.{AreKeptOnce, condemned_by, dropped_by, kept_without, shares};

use blob_yard::Yard;
use hosted_repo::Hosted;
use outside::{Held, NoMemory};
use row_tables::Change;
use std::alloc::Global;

/// The rows of all repositories whose grace period is over: how many go in each, their blobs, and the change that they are.
#[derive(Drop)]
pub struct Gone {
    pub counts: Vec<u64>,
    pub blobs: Vec<u64>,
    pub change: Change,
}

/// The first rows whose grace period, in seconds, is over at a moment, at most 1,000,000, in the order of the repositories and
/// then in byte order of path.
pub fn expiring<H: Held>(
    alloc: Global,
    repos: &[Hosted<H>],
    grace: u64,
    now: u64,
) -> Result<Gone, NoMemory>
    ensures counts { IfOk result (λ found. found.counts.items ≡ shares grace now most_rows repos.now) }
    ensures blobs { IfOk result (λ found. found.blobs.items ≡ map blob_of (expire_all grace now repos.now)) }
    ensures change { IfOk result (λ found. found.change ≡ recorded (expire_all grace now repos.now)) }
    ensures removed { IfOk result (λ found. AllByRecursion IsRemoved found.change) }
{
    let mut counts = Vec::new(alloc);
    let mut blobs = Vec::new(alloc);
    let mut change = Change::new(alloc);
    for repo in repos {
        let count = repo.expiring(grace, now, &mut change, &mut blobs)?;
        counts.push(count)?;
    }
    Ok(Gone {
        counts,
        blobs,
        change,
    })
}

/// Takes so many of the first rows whose grace period is over away in each repository.
pub fn drop_expired<H: Held>(repos: &mut Vec<Hosted<H>>, grace: u64, now: u64, counts: &[u64])
    requires { length counts.now ≤ vec_len repos.old }
    ensures { repos.new.items ≡ dropped_by grace now counts.now repos.old.items }
{
    for (place, count) in counts.iter().enumerate() {
        repos[place].drop_expired(grace, now, *count);
    }
}

/// Blobs that are in use, each once, become garbage.
pub fn condemn_all(yard: &mut Yard, blobs: &[u64])
    requires { AreKeptOnce blobs.now yard.old.kept }
    ensures { yard.new ≡ record { yard = condemned_by blobs.now yard.old.yard; kept = kept_without blobs.now yard.old.kept } }
{
    for blob in blobs {
        yard.condemn(*blob);
    }
}
