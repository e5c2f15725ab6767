//! The purge of snapshots in two phases: rows are unlisted, and gone once their grace period is over.
ghost use Rattle.std.specs.Prelude.{◌≡◌, ◌≢◌, ◌≤◌, ◌++◌, ℕ, [], List, None, length, map, filter, take, IfOk, IsTrue, OnOk, OnErr};
ghost use Rattle.std.specs.List.{All};
ghost use Rattle.mvn_coords.specs.Layout.{Directory, text_of_directory};
ghost use Rattle.mvn_coords.specs.Path.{IsDirectory};
ghost use Rattle.repo_model.specs.Document.{document};
ghost use Rattle.repo_model.specs.History.{latest_moment};
ghost use Rattle.row_tables.specs.Leaving.{Leaves, MayTake, end_of};
ghost use Rattle.row_tables.specs.Items.{are_of};
ghost use Rattle.row_tables.specs.declared.version.Version.TheVariants.{Second};
ghost use Rattle.kept_docs.specs.Kept.{AreOf, AreSame, kept_at};
ghost use Rattle.kept_docs.specs.Drafted.{AreRight, draft_at};
ghost use Rattle.kept_docs.specs.Placed.{HasRoom, WillBeOf};
ghost use Rattle.hosted_repo.specs.Fades.{AreApartFrom, accepted_at, accepted_of, listed_back};
ghost use Rattle.repo_model.specs.Effect.{expires, recorded};
ghost use Rattle.repo_model.specs.Purge.{due_rows, fade_all};
ghost use Rattle.row_tables.specs.Items.{IsChange};
ghost use Rattle.hosted_repo.specs.Fades.{fade_at_paths};
ghost use Rattle.hosted_repo.specs.Expired.{shown_expired};
ghost use Rattle.hosted_repo.specs.Fades.{hosted_of};
ghost use Rattle.ordered_rows.specs.Rows.{is_before, rows_after_all, shown_rows};
ghost use Rattle.directory_rows.specs.Rules.{shown_rule};

use crate::changes::{fade_change, removals};
use directory_rows::{Rule, due_paths};
use kept_docs::{Docs, Drafts, Page, prepared};
use ordered_rows::{CountedRows, Row, find, is_before};
use outside::{Held, NoMemory};
use row_tables::{Change, CommitFault, Records};
use std::alloc::Global;
use std::collections::BTreeMap;
use texts::Text;

/// A row whose grace period is over: its path, and the number of its blob.
#[derive(Drop)]
pub struct Expired {
    pub path: String,
    pub blob: u64,
}

/// Unlists the rows at some paths.
pub fn fade_all<H: Held>(rows: &mut CountedRows<H>, paths: &[String], moment: u64)
    ensures { (repo : List ℕ) → rows.new ≡ rows_after_all (fade_at_paths repo moment paths.now) rows.old }
{
    for path in paths {
        rows.fade(path.as_str(), moment);
    }
}

// When the row at a path was accepted; 0 where there is none.
fn moment_at<H: Held>(rows: &BTreeMap<String, Row<H>>, path: &str) -> u64
    ensures moment { result ≡ accepted_of (shown_rows rows.now.entries) path.now }
    ensures late { result ≤ latest_moment }
{
    match find(rows, path) {
        Some(row) => row.accepted,
        None => 0,
    }
}

// When each row at some paths was accepted.
fn moments_of<H: Held>(
    alloc: Global,
    rows: &BTreeMap<String, Row<H>>,
    paths: &[String],
) -> Result<Vec<u64>, NoMemory>
    ensures moments { IfOk result (λ moments. moments.items ≡ accepted_at (shown_rows rows.now.entries) paths.now) }
    ensures late { IfOk result (λ moments. All (λ moment. moment ≤ latest_moment) moments.items) }
{
    let mut moments = Vec::new(alloc);
    for path in paths {
        let moment = moment_at(rows, path.as_str());
        moments.push(moment)?;
    }
    Ok(moments)
}

// Lists the rows at some paths again, each accepted at its moment.
fn list_back<H: Held>(rows: &mut CountedRows<H>, paths: &[String], moments: &[u64])
    requires many { length moments.now ≡ length paths.now }
    requires late { All (λ moment. moment ≤ latest_moment) moments.now }
    ensures { rows.new ≡ listed_back paths.now moments.now rows.old }
{
    for (i, path) in paths.iter().enumerate() {
        rows.list_again(path.as_str(), moments[i]);
    }
}

// The documents of the directories of files at some paths, as the rows have them.
fn drafts_of<H: Held>(
    alloc: Global,
    rows: &CountedRows<H>,
    paths: &[String],
) -> Result<Drafts, NoMemory>
    ensures right { IfOk result (λ drafts. AreRight drafts rows.now) }
    ensures walked { IfOk result (λ drafts. (d : Directory) → IsDirectory d → draft_at (text_of_directory d) drafts ≡ None → AreApartFrom d paths.now) }
{
    let mut drafts = Drafts::new(alloc);
    for path in paths {
        drafts.walk(alloc, rows, path.as_str())?;
    }
    Ok(drafts)
}

// The documents once the rows at some paths fade, written, and their change, recorded. Until they are placed no document changes.
fn record_faded<H: Held, K: Records>(
    alloc: Global,
    rows: &CountedRows<H>,
    docs: &mut Docs,
    records: &mut K,
    paths: &[String],
    change: &Change,
) -> Result<Vec<Page>, CommitFault>
    requires whole { IsTrue (are_of Second change.now) }
    requires records { MayTake change.now (K.shows records.old) }
    requires docs { (d : Directory) → IsDirectory d → AreApartFrom d paths.now → kept_at (text_of_directory d) docs.old ≡ document d rows.now }
    ensures same { AreSame docs.old docs.new }
    ensures room { IfOk result (λ pages. HasRoom docs.new pages.items) }
    ensures pages { IfOk result (λ pages. WillBeOf docs.new pages.items rows.now) }
    ensures records { Leaves change.now (end_of result) (K.shows records.old) (K.shows records.new) }
{
    let drafts = drafts_of(alloc, rows, paths)?;
    let pages = prepared(alloc, docs, drafts)?;
    match records.commit(alloc, change) {
        Ok(()) => Ok(pages),
        Err(fault) => {
            docs.give_up(pages.as_slice());
            Err(fault)
        }
    }
}

/// Unlists the rows of a repository that are to fade at a moment, once that is recorded, and gives how many. Where that fails
/// nothing is changed.
pub fn unlist_rows<H: Held, K: Records>(
    alloc: Global,
    rows: &mut CountedRows<H>,
    docs: &mut Docs,
    records: &mut K,
    rule: &Rule,
    now: u64,
) -> Result<u64, CommitFault>
    requires docs { AreOf docs.old rows.old }
    requires change { IsChange (recorded (fade_all (hosted_of rule.now rows.old) now)) }
    requires records { MayTake (recorded (fade_all (hosted_of rule.now rows.old) now)) (K.shows records.old) }
    ensures count { IfOk result (λ n. n ≡ length (due_rows (shown_rule rule.now) now rows.old)) }
    ensures rows { OnOk result (rows.new ≡ rows_after_all (fade_all (hosted_of rule.now rows.old) now) rows.old) }
    ensures err { OnErr result (rows.new ≡ rows.old) }
    ensures docs { AreOf docs.new rows.new }
    ensures asked { result ≡ Err CommitFault.Failed → recorded (fade_all (hosted_of rule.now rows.old) now) ≢ [] }
    ensures records { Leaves (recorded (fade_all (hosted_of rule.now rows.old) now)) (end_of result) (K.shows records.old) (K.shows records.new) }
{
    let paths = due_paths(alloc, rows, rule, now)?;
    if paths.is_empty() {
        return Ok(0);
    }
    // Its contract says that each path stands once.
    let _len = rows.map().len();
    let change = fade_change(alloc, &rule.id, &paths, now)?;
    let moments = moments_of(alloc, rows.map(), &paths)?;
    fade_all(rows, &paths, now);
    match record_faded(alloc, rows, docs, records, &paths, &change) {
        Ok(pages) => {
            docs.place(pages);
            Ok(paths.len() as u64)
        }
        Err(fault) => {
            list_back(rows, &paths, &moments);
            Err(fault)
        }
    }
}

/// The first rows that are unlisted since before a moment, at most so many. Where none fades no row is looked at.
pub fn first_expired<H: Held>(
    alloc: Global,
    rows: &CountedRows<H>,
    limit: u64,
    most: u64,
) -> Result<Vec<Expired>, NoMemory>
    ensures { IfOk result (λ found. (repo : List ℕ) → map (shown_expired repo) found.items
        ≡ take most (map (λ row. expires repo row.path row.blob.number) (filter (λ row. is_before limit row.phase) rows.now))) }
{
    if rows.counts().1 == 0 {
        return Ok(Vec::new(alloc));
    }
    expired_rows(alloc, rows.map(), limit, most)
}

fn expired_rows<H: Held>(
    alloc: Global,
    rows: &BTreeMap<String, Row<H>>,
    limit: u64,
    most: u64,
) -> Result<Vec<Expired>, NoMemory>
    ensures { IfOk result (λ found. (repo : List ℕ) → map (shown_expired repo) found.items
        ≡ take most (map (λ row. expires repo row.path row.blob.number) (filter (λ row. is_before limit row.phase) (shown_rows rows.now.entries)))) }
{
    let mut found = Vec::new(alloc);
    for (path, row) in rows {
        if found.len() as u64 == most {
            return Ok(found);
        }
        if is_before(row.phase, limit) {
            let copy = String::from_str(alloc, path.as_str())?;
            found.push(Expired {
                path: copy,
                blob: row.parcel.blob,
            })?;
        }
    }
    Ok(found)
}

/// Adds the removals of rows to a change and their blobs to a list, and gives how many there are. When memory runs out
/// both are as before.
pub fn add_gone(
    alloc: Global,
    repo: &Text,
    gone: &[Expired],
    change: &mut Change,
    blobs: &mut Vec<u64>,
) -> Result<u64, NoMemory>
    requires { IsChange (change.old ++ recorded (map (shown_expired repo.now) gone.now)) }
    ensures count { IfOk result (λ n. n ≡ length gone.now) }
    ensures change { OnOk result (change.new ≡ change.old ++ recorded (map (shown_expired repo.now) gone.now)) }
    ensures blobs { OnOk result (blobs.new.items ≡ blobs.old.items ++ map (λ e. e.blob) gone.now) }
    ensures unchanged { OnErr result (change.new ≡ change.old) }
    ensures untaken { OnErr result (blobs.new.items ≡ blobs.old.items) }
{
    let items = removals(alloc, repo, gone)?;
    let mut numbers = blobs_of(alloc, gone)?;
    let before = blobs.len();
    blobs.append(&mut numbers)?;
    match change.append(items) {
        Ok(()) => Ok(gone.len() as u64),
        Err(error) => {
            blobs.truncate(before);
            Err(error)
        }
    }
}

// The blobs of rows.
fn blobs_of(alloc: Global, gone: &[Expired]) -> Result<Vec<u64>, NoMemory>
    ensures { IfOk result (λ blobs. blobs.items ≡ map (λ e. e.blob) gone.now) }
{
    gone.iter().map(|row| row.blob).collect(alloc)
}
