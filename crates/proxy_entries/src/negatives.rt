//! The paths at which a proxy's remote had nothing, in an ordered map from path to moment: 10,000 at most.
ghost use Rattle.std.specs.Prelude.{◌≡◌, ◌≤◌, None, OnOk, OnErr, find, fold, length, string_bytes};
ghost use Rattle.std.specs.BTreeMap.{IsOrdered};
ghost use Rattle.std.specs.String.{string_cmp};
ghost use Rattle.std.specs.Option.{option_map};
ghost use Rattle.repo_model.specs.Effect.{insert_negative, is_older, older, most_negatives, with_negative, without_negative};
ghost use Rattle.repo_model.specs.State.{is_negative_of};
ghost use Rattle.repo_model.specs.History.{latest_moment};
ghost use Rattle.proxy_entries.specs.Stored.{AreInTime, shown_negative, shown_negatives};

use outside::NoMemory;
use std::alloc::Global;
use std::collections::BTreeMap;

/// The most negative entries that are kept.
pub const MOST_NEGATIVES: usize = 10_000;

/// When the remote had nothing at a path.
pub fn negative_at(negatives: &BTreeMap<String, u64>, path: &str) -> Option<u64>
    ensures { option_map (shown_negative path.now) result ≡ find (is_negative_of path.now) (shown_negatives negatives.now.entries) }
{
    match negatives.get(path) {
        Some(moment) => Some(*moment),
        None => None,
    }
}

// Whether a negative entry is older than another one: it has the lesser moment, and of equal ones the lesser path.
fn is_older(path: &str, moment: u64, other: &str, other_moment: u64) -> bool
    ensures { result ≡ is_older (shown_negative path.now moment) (shown_negative other.now other_moment) }
{
    moment < other_moment || (moment == other_moment && path < other)
}

// The path of the oldest negative entry.
fn oldest_of(negatives: &BTreeMap<String, u64>) -> Option<(&str, u64)>
    ensures { option_map (λ m. shown_negative m.0.now m.1) result ≡ fold older None (shown_negatives negatives.now.entries) }
{
    let mut oldest: Option<(&str, u64)> = None;
    for (path, moment) in negatives {
        oldest = older(oldest, path.as_str(), *moment);
    }
    oldest
}

// The older of two negative entries, the second of which is there.
fn older<'a>(best: Option<(&'a str, u64)>, path: &'a str, moment: u64) -> Option<(&'a str, u64)>
    ensures { option_map (λ m. shown_negative m.0.now m.1) result
        ≡ older (option_map (λ m. shown_negative m.0.now m.1) best.entry) (shown_negative path.now moment) }
{
    match best {
        Some((other, other_moment)) if !is_older(path, moment, other, other_moment) => Some((
            other,
            other_moment,
        )),
        _ => Some((path, moment)),
    }
}

/// Adds a negative entry of a path at a moment. Where the path is new and there are 10,000 negative entries, the oldest goes.
pub fn add_negative(
    alloc: Global,
    negatives: &mut BTreeMap<String, u64>,
    path: &str,
    moment: u64,
) -> Result<(), NoMemory>
    requires few { length negatives.old.entries ≤ most_negatives }
    requires timely { AreInTime (shown_negatives negatives.old.entries) }
    requires moment { moment ≤ latest_moment }
    ensures ok { OnOk result (shown_negatives negatives.new.entries ≡ with_negative (shown_negative path.now moment) (shown_negatives negatives.old.entries)) }
    ensures few { length negatives.new.entries ≤ most_negatives }
    ensures timely { AreInTime (shown_negatives negatives.new.entries) }
    ensures err { OnErr result (shown_negatives negatives.new.entries ≡ shown_negatives negatives.old.entries) }
{
    let key = String::from_str(alloc, path)?;
    if negatives.len() < MOST_NEGATIVES || negatives.contains_key(path) {
        return set(negatives, key, moment);
    }
    displace(alloc, negatives, key, moment)
}

/// Forgets the negative entry of a path.
pub fn remove_negative(negatives: &mut BTreeMap<String, u64>, path: &str)
    ensures shown { shown_negatives negatives.new.entries ≡ without_negative path.now (shown_negatives negatives.old.entries) }
    ensures few { length negatives.new.entries ≤ length negatives.old.entries }
    ensures timely { AreInTime (shown_negatives negatives.old.entries) → AreInTime (shown_negatives negatives.new.entries) }
{
    // Its contract says that each path stands once.
    let _len = negatives.len();
    negatives.remove(path);
}

// Writes a negative entry, in the place of the one at its path.
fn set(negatives: &mut BTreeMap<String, u64>, key: String, moment: u64) -> Result<(), NoMemory>
    ensures ok { OnOk result (shown_negatives negatives.new.entries
        ≡ insert_negative (shown_negative (string_bytes key) moment) (without_negative (string_bytes key) (shown_negatives negatives.old.entries))) }
    ensures sorted { IsOrdered string_cmp negatives.old }
    ensures err { OnErr result (shown_negatives negatives.new.entries ≡ shown_negatives negatives.old.entries) }
{
    negatives.insert(key, moment)?;
    Ok(())
}

// Writes a negative entry at a path that has none, where there are 10,000 others, and takes the oldest of those away.
fn displace(
    alloc: Global,
    negatives: &mut BTreeMap<String, u64>,
    key: String,
    moment: u64,
) -> Result<(), NoMemory>
    requires full { most_negatives ≤ length negatives.old.entries }
    requires free { find (is_negative_of (string_bytes key)) (shown_negatives negatives.old.entries) ≡ None }
    ensures ok { OnOk result (shown_negatives negatives.new.entries ≡ with_negative (shown_negative (string_bytes key) moment) (shown_negatives negatives.old.entries)) }
    ensures err { OnErr result (shown_negatives negatives.new.entries ≡ shown_negatives negatives.old.entries) }
{
    let Some((oldest, _)) = oldest_of(negatives) else {
        return set(negatives, key, moment);
    };
    let oldest = String::from_str(alloc, oldest)?;
    set(negatives, key, moment)?;
    remove_negative(negatives, oldest.as_str());
    Ok(())
}
