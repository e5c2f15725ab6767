//! Which rows are to fade at a moment, each snapshot directory looked at once.
ghost use Rattle.std.specs.Prelude.{◌≡◌, ◌<◌, ◌++◌, ◌∷◌, [], length, map, slice_index_or, IfOk, OnOk, IfSome, string_bytes};
ghost use Rattle.std.specs.List.{All};
ghost use Rattle.mvn_coords.specs.Layout.{text_of_directory};
ghost use Rattle.repo_model.specs.Document.{listed_in};
ghost use Rattle.repo_model.specs.Paths.{stands_in};
ghost use Rattle.repo_model.specs.Purge.{builds_of, due_rows, is_due_at, snapshot_directory};
ghost use Rattle.snapshot_purge.specs.Ages.{HaveSameBuilds};
ghost use Rattle.directory_rows.specs.Dues.{directory_of, with_build_of_row, is_due_row, IsRight};
ghost use Rattle.ordered_rows.specs.Rows.{shown_at, shown_rows};
ghost use Rattle.directory_rows.specs.Rules.{shown_rule};
ghost use Rattle.directory_rows.specs.declared.dues.Known.{Known};

use crate::rule::Rule;
use mvn_coords::{Coord, Kind, kind_of};
use ordered_rows::{CountedRows, Phase, Row, joined};
use outside::{Held, NoMemory};
use snapshot_purge::{Ages, DueBuilds, Keep};
use std::alloc::Global;
use std::collections::BTreeMap;
use texts::Text;

/// The most rows that one purge unlists or takes away.
pub const MOST_ROWS: usize = 1_000_000;

/// A snapshot directory, and which of its builds are to fade. `base` is its path and a slash.
#[derive(Drop)]
pub struct Known {
    base: String,
    pub group: Text,
    pub artifact: Text,
    pub version: Text,
    pub due: DueBuilds,
}

/// Whether a file stands in a directory that is known.
fn is_of(known: &Known, c: &Coord<'_>) -> bool
    ensures { result ≡ stands_in (directory_of known.now) (Some c.now) }
{
    c.group() == known.group.as_str()
        && c.artifact() == known.artifact.as_str()
        && known.version.as_str() == c.dir()
}

/// Where a file's directory stands among those that are known.
fn place_of(known: &[Known], c: &Coord<'_>) -> Option<usize>
    ensures { IfSome result (λ i. (i < length known.now)
        × ((d : Known) → directory_of (slice_index_or known.now i d) ≡ snapshot_directory c.now)) }
{
    for (i, one) in known.iter().enumerate() {
        if is_of(one, c) {
            return Some(i);
        }
    }
    None
}

/// How many of the first directories that are known lie above a path, one below the other.
fn count_above(known: &[Known], path: &str) -> usize {
    for (i, one) in known.iter().enumerate() {
        if !path.starts_with(one.base.as_str()) {
            return i;
        }
    }
    known.len()
}

/// The path of a file's snapshot directory, and a slash.
fn base_of(alloc: Global, c: &Coord<'_>) -> Result<String, NoMemory>
    ensures { IfOk result (λ t. string_bytes t ≡ text_of_directory (snapshot_directory c.now) ++ 47 ∷ []) }
{
    // A file's path tells that its group has a byte.
    let _path = c.path();
    let mut base = joined(alloc, c.group(), "/", c.artifact(), "/", c.dir())?;
    base.push_str("/")?;
    Ok(base)
}

/// Adds a row to the builds of a file's directory, where it is visible and stands there.
fn add_row<H: Held>(
    ages: &mut Ages,
    c: &Coord<'_>,
    path: &str,
    row: &Row<H>,
) -> Result<(), NoMemory>
    ensures { OnOk result (HaveSameBuilds ages.new (with_build_of_row (snapshot_directory c.now) ages.old (shown_at path.now row.now))) }
{
    let Phase::Listed = row.phase else {
        return Ok(());
    };
    let Ok(Kind::File(found)) = kind_of(path) else {
        return Ok(());
    };
    if !stand_together(c, &found) {
        return Ok(());
    }
    match found.build() {
        Some(build) => ages.add(build, row.accepted),
        None => Ok(()),
    }
}

/// Whether a file stands in the version directory of another one.
fn stand_together(c: &Coord<'_>, found: &Coord<'_>) -> bool
    ensures { result ≡ stands_in (snapshot_directory c.now) (Some found.now) }
{
    found.group() == c.group() && found.artifact() == c.artifact() && c.dir() == found.dir()
}

/// The builds of a file's directory, from the visible rows. It looks at all rows below the directory.
fn ages_in<H: Held>(
    alloc: Global,
    rows: &BTreeMap<String, Row<H>>,
    base: &String,
    c: &Coord<'_>,
) -> Result<Ages, NoMemory>
    requires { string_bytes base.now ≡ text_of_directory (snapshot_directory c.now) ++ 47 ∷ [] }
    ensures { IfOk result (λ ages. HaveSameBuilds ages (builds_of (listed_in (snapshot_directory c.now) (shown_rows rows.now.entries)))) }
{
    let mut ages = Ages::new(alloc);
    let front = base.as_str();
    for (path, row) in rows.range(base..) {
        let text = path.as_str();
        if !text.starts_with(front) {
            return Ok(ages);
        }
        add_row(&mut ages, c, text, row)?;
    }
    Ok(ages)
}

/// A file's directory, and which of its builds are to fade at a moment.
fn known_of<H: Held>(
    alloc: Global,
    rows: &BTreeMap<String, Row<H>>,
    rule: &Rule,
    now: u64,
    c: &Coord<'_>,
) -> Result<Known, NoMemory>
    ensures directory { IfOk result (λ k. directory_of k ≡ snapshot_directory c.now) }
    ensures due { IfOk result (IsRight (shown_rule rule.now) now (shown_rows rows.now.entries)) }
{
    let base = base_of(alloc, c)?;
    let ages = ages_in(alloc, rows, &base, c)?;
    let keep = Keep {
        count: rule.keep_count,
        days: rule.keep_days,
    };
    let due = ages.due(alloc, &keep, now)?;
    let group = Text::new(alloc, c.group())?;
    let artifact = Text::new(alloc, c.artifact())?;
    let version = Text::new(alloc, c.dir())?;
    Ok(Known {
        base,
        group,
        artifact,
        version,
        due,
    })
}

/// Where a file's directory stands among those that are known, once it is. Those that don't lie above the file are
/// forgotten then: no later row in byte order of path stands below them.
fn place_once_known<H: Held>(
    alloc: Global,
    rows: &BTreeMap<String, Row<H>>,
    rule: &Rule,
    now: u64,
    known: &mut Vec<Known>,
    c: &Coord<'_>,
) -> Result<usize, NoMemory>
    requires { All (IsRight (shown_rule rule.now) now (shown_rows rows.now.entries)) known.old.items }
    ensures right { All (IsRight (shown_rule rule.now) now (shown_rows rows.now.entries)) known.new.items }
    ensures place { IfOk result (λ i. (i < length known.new.items)
        × ((d : Known) → directory_of (slice_index_or known.new.items i d) ≡ snapshot_directory c.now)) }
{
    if let Some(place) = place_of(known.as_slice(), c) {
        return Ok(place);
    }
    let above = count_above(known.as_slice(), c.path());
    known.truncate(above);
    let place = known.len();
    let found = known_of(alloc, rows, rule, now, c)?;
    known.push(found)?;
    Ok(place)
}

/// Whether a file is to fade at a moment, where it is visible.
fn is_due_file<H: Held>(
    alloc: Global,
    rows: &BTreeMap<String, Row<H>>,
    rule: &Rule,
    now: u64,
    known: &mut Vec<Known>,
    c: &Coord<'_>,
) -> Result<bool, NoMemory>
    requires { All (IsRight (shown_rule rule.now) now (shown_rows rows.now.entries)) known.old.items }
    ensures right { All (IsRight (shown_rule rule.now) now (shown_rows rows.now.entries)) known.new.items }
    ensures due { IfOk result (λ b. b ≡ is_due_at (shown_rule rule.now) now (shown_rows rows.now.entries) (Some c.now)) }
{
    let Some(build) = c.build() else {
        return Ok(false);
    };
    let place = place_once_known(alloc, rows, rule, now, known, c)?;
    Ok(known[place].due.has(build))
}

/// Whether a row is visible and to fade at a moment.
fn is_due<H: Held>(
    alloc: Global,
    rows: &BTreeMap<String, Row<H>>,
    rule: &Rule,
    now: u64,
    known: &mut Vec<Known>,
    path: &str,
    row: &Row<H>,
) -> Result<bool, NoMemory>
    requires { All (IsRight (shown_rule rule.now) now (shown_rows rows.now.entries)) known.old.items }
    ensures right { All (IsRight (shown_rule rule.now) now (shown_rows rows.now.entries)) known.new.items }
    ensures due { IfOk result (λ b. b ≡ is_due_row (shown_rule rule.now) now (shown_rows rows.now.entries) (shown_at path.now row.now)) }
{
    let Phase::Listed = row.phase else {
        return Ok(false);
    };
    let Ok(Kind::File(c)) = kind_of(path) else {
        return Ok(false);
    };
    is_due_file(alloc, rows, rule, now, known, &c)
}

/// The paths of the rows that are to fade at a moment, at most 1,000,000, in byte order.
pub fn due_paths<H: Held>(
    alloc: Global,
    rows: &CountedRows<H>,
    rule: &Rule,
    now: u64,
) -> Result<Vec<String>, NoMemory>
    ensures { IfOk result (λ paths. map string_bytes paths.items ≡ map (λ row. row.path) (due_rows (shown_rule rule.now) now rows.now)) }
{
    due_among(alloc, rows.map(), rule, now)
}

fn due_among<H: Held>(
    alloc: Global,
    rows: &BTreeMap<String, Row<H>>,
    rule: &Rule,
    now: u64,
) -> Result<Vec<String>, NoMemory>
    ensures { IfOk result (λ paths. map string_bytes paths.items ≡ map (λ row. row.path) (due_rows (shown_rule rule.now) now (shown_rows rows.now.entries))) }
{
    let mut known = Vec::new(alloc);
    let mut paths = Vec::new(alloc);
    for (path, row) in rows {
        if paths.len() == MOST_ROWS {
            return Ok(paths);
        }
        let text = path.as_str();
        let due = is_due(alloc, rows, rule, now, &mut known, text, row)?;
        if due {
            let copy = String::from_str(alloc, text)?;
            paths.push(copy)?;
        }
    }
    Ok(paths)
}
