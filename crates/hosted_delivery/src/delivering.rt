//! Staged files that are deployed together: room first, then one commit, and the change last, as it is seen from outside.
ghost use Rattle.std.specs.Prelude.{◌≡◌, ℕ, ◌<◌, ◌≤◌, ◌++◌, ◌∷◌, [], List, None, length, take, IfOk, IsTrue, OnOk, OnErr};
ghost use Rattle.std.specs.List.{AllByRecursion, flat_map, list_all};
ghost use Rattle.std.specs.Option.{option_map, option_to_list};
ghost use Rattle.repo_model.specs.Data as plain;
ghost use Rattle.repo_model.specs.Deploy.{deliver_all, deliver_at};
ghost use Rattle.repo_model.specs.Effect.{recorded as items_by};
ghost use Rattle.repo_model.specs.History.{latest_moment};
ghost use Rattle.repo_model.specs.Purge.{most_rows};
ghost use Rattle.repo_model.specs.Shown.{shown_parcel};
ghost use Rattle.row_tables.specs.Leaving.{Leaves, MayTake, end_of};
ghost use Rattle.row_tables.specs.Items.{are_of, is_id, is_item, is_of, item_bytes};
ghost use Rattle.row_tables.specs.declared.version.Version.TheVariants.{Second};
ghost use Rattle.hosted_delivery.specs.Deliveries.{free_paths, is_recordable, left_by, rows_without, session_with, shown_files, with_file, with_files, with_listed, with_listed_by, without_put, without_puts};
ghost use Rattle.ordered_rows.specs.Recording.{IsShort};
ghost use Rattle.ordered_rows.specs.Rows.{rows_after_all, shown_at, shown_rows};

use ordered_rows::{CountedRows, Phase, Row, find, print_of, sizes};
use outside::{Held, NoMemory, Parcel};
use repo_model::Item;
use row_tables::{Change, CommitFault, Records};
use std::alloc::{AllocError, Global};
use std::collections::BTreeMap;
use texts::Text;

/// What is recorded of a file that is deployed, beside the row at its path.
fn item_of<H: Held>(
    alloc: Global,
    repo: &Text,
    path: &str,
    parcel: &Parcel<H>,
    row: Option<&Row<H>>,
    now: u64,
) -> Result<Option<Item>, NoMemory>
    requires moment { now ≤ latest_moment }
    requires repo { IsTrue (is_id repo.now) }
    requires file { IsTrue (is_recordable (record { path = path.now; blob = shown_parcel parcel.now })) }
    ensures items { IfOk result (λ item. (files : List plain.Staged) → option_to_list item ≡ items_by (deliver_at (session_with repo.now files) now
        (record { path = path.now; blob = shown_parcel parcel.now }) (option_map (λ row. shown_at path.now row.now) row.entry))) }
    ensures short { IfOk result (λ item. AllByRecursion IsShort (option_to_list item)) }
{
    sizes(parcel.digests);
    let repo = repo.copied(alloc)?;
    let path = Text::new(alloc, path)?;
    let Some(row) = row else {
        return Ok(Some(Item::HostedPut {
            repo,
            path,
            blob: parcel.blob,
            print: print_of(parcel).recorded(),
            accepted: now,
        }));
    };
    match row.phase {
        Phase::Listed => Ok(None),
        Phase::Fading(_) => Ok(Some(Item::Relisted {
            repo,
            path,
            accepted: now,
        })),
    }
}

fn add_item(items: &mut Vec<Item>, item: Option<Item>) -> Result<(), NoMemory>
    ensures { OnOk result (items.new.items ≡ items.old.items ++ option_to_list item) }
{
    if let Some(item) = item {
        items.push(item)?;
    }
    Ok(())
}

/// What is recorded of files that are deployed.
fn items_of<H: Held>(
    alloc: Global,
    repo: &Text,
    rows: &BTreeMap<String, Row<H>>,
    staged: &BTreeMap<String, Parcel<H>>,
    now: u64,
) -> Result<Vec<Item>, NoMemory>
    requires moment { now ≤ latest_moment }
    requires repo { IsTrue (is_id repo.now) }
    requires files { IsTrue (list_all is_recordable (shown_files staged.now.entries)) }
    ensures items { IfOk result (λ items. items.items ≡ items_by (deliver_all (session_with repo.now (shown_files staged.now.entries)) now (shown_rows rows.now.entries))) }
    ensures short { IfOk result (λ items. AllByRecursion IsShort items.items) }
    ensures few { IfOk result (λ items. length items.items ≤ length (shown_files staged.now.entries)) }
{
    let mut items = Vec::new(alloc);
    for (path, parcel) in staged {
        let path = path.as_str();
        let item = item_of(alloc, repo, path, parcel, find(rows, path), now)?;
        add_item(&mut items, item)?;
    }
    Ok(items)
}

/// Adds the blob of a file whose path has a row.
fn add_left<H: Held>(
    blobs: &mut Vec<u64>,
    parcel: &Parcel<H>,
    row: Option<&Row<H>>,
) -> Result<(), NoMemory>
    ensures { OnOk result ((s : plain.Session) (now : ℕ) (path : List ℕ) → blobs.new.items ≡ blobs.old.items ++ flat_map left_by
        (deliver_at s now (record { path = path; blob = shown_parcel parcel.now }) (option_map (λ row. shown_at path row.now) row.entry))) }
{
    if let Some(_) = row {
        blobs.push(parcel.blob)?;
    }
    Ok(())
}

/// The blobs of files whose paths have rows, in byte order of path.
fn left_of<H: Held>(
    alloc: Global,
    rows: &BTreeMap<String, Row<H>>,
    staged: &BTreeMap<String, Parcel<H>>,
) -> Result<Vec<u64>, NoMemory>
    ensures { IfOk result (λ blobs. (repo : List ℕ) (now : ℕ)
        → blobs.items ≡ flat_map left_by (deliver_all (session_with repo (shown_files staged.now.entries)) now (shown_rows rows.now.entries))) }
{
    let mut blobs = Vec::new(alloc);
    for (path, parcel) in staged {
        add_left(&mut blobs, parcel, find(rows, path.as_str()))?;
    }
    Ok(blobs)
}

/// The change of items and one more.
fn change_with(items: Vec<Item>, also: Item) -> Result<Change, NoMemory>
    requires items { AllByRecursion IsShort items.items }
    requires few { length items.items ≤ most_rows }
    requires also { IsTrue (is_item also) }
    requires whole { IsTrue (is_of Second also) }
    requires short { length (item_bytes also) < 65536 }
    ensures items { IfOk result (λ change. change ≡ items.items ++ also ∷ []) }
    ensures whole { IfOk result (λ change. IsTrue (are_of Second change)) }
{
    let mut items = items;
    items.push(also)?;
    Ok(Change::of(items))
}

/// The first items of a change.
fn front(change: &Change, count: usize) -> &[Item]
    requires { count ≤ length change.now }
    ensures { result.now ≡ take count change.now }
{
    &change.items()[..count]
}

/// Adds a visible row for a file whose path has none.
fn add_new<H: Held>(
    alloc: Global,
    rows: &mut CountedRows<H>,
    path: &str,
    parcel: &Parcel<H>,
    now: u64,
) -> Result<(), NoMemory>
    requires { now ≤ latest_moment }
    ensures ok { OnOk result (rows.new ≡ with_file now (record { path = path.now; blob = shown_parcel parcel.now }) rows.old) }
    ensures err { OnErr result (rows.new ≡ rows.old) }
{
    let None = find(rows.map(), path) else {
        return Ok(());
    };
    let row = Row {
        parcel: parcel.share()?,
        accepted: now,
        phase: Phase::Listed,
    };
    match rows.add(alloc, path, row) {
        Ok(()) => Ok(()),
        Err(_) => Err(AllocError),
    }
}

/// Adds a visible row for each file whose path has none. When memory runs out some of them are added.
fn add_all_new<H: Held>(
    alloc: Global,
    rows: &mut CountedRows<H>,
    staged: &BTreeMap<String, Parcel<H>>,
    now: u64,
) -> Result<(), NoMemory>
    requires { now ≤ latest_moment }
    ensures ok { OnOk result (rows.new ≡ with_files now (shown_files staged.now.entries) rows.old) }
    ensures back { let free = free_paths rows.old (shown_files staged.now.entries) in
        rows_without free rows.new ≡ rows_without free rows.old }
{
    for (path, parcel) in staged {
        add_new(alloc, rows, path.as_str(), parcel, now)?;
    }
    Ok(())
}

/// Takes the row away at the path at which an item puts one.
fn undo<H: Held>(rows: &mut CountedRows<H>, item: &Item)
    ensures { rows.new ≡ without_put item.now rows.old }
{
    if let Item::HostedPut { path, .. } = item {
        rows.remove(path.as_str());
    }
}

/// Takes the rows away at the paths at which items put rows.
fn undo_all<H: Held>(rows: &mut CountedRows<H>, items: &[Item])
    ensures { rows.new ≡ without_puts items.now rows.old }
{
    for item in items {
        undo(rows, item);
    }
}

/// Lists the row again that an item lists.
fn list_by<H: Held>(rows: &mut CountedRows<H>, item: &Item, now: u64)
    requires { now ≤ latest_moment }
    ensures { rows.new ≡ with_listed_by now item.now rows.old }
{
    if let Item::Relisted { path, .. } = item {
        rows.list_again(path.as_str(), now);
    }
}

/// Lists the rows again that items list.
fn list_all_by<H: Held>(rows: &mut CountedRows<H>, items: &[Item], now: u64)
    requires { now ≤ latest_moment }
    ensures { rows.new ≡ with_listed now items.now rows.old }
{
    for item in items {
        list_by(rows, item, now);
    }
}

/// Adds the new rows of files that are deployed, and commits their change. Where that fails some of the rows are added.
fn add_and_commit<H: Held, K: Records>(
    alloc: Global,
    rows: &mut CountedRows<H>,
    records: &mut K,
    staged: &BTreeMap<String, Parcel<H>>,
    change: &Change,
    now: u64,
) -> Result<(), CommitFault>
    requires moment { now ≤ latest_moment }
    requires whole { IsTrue (are_of Second change.now) }
    requires records { MayTake change.now (K.shows records.old) }
    ensures ok { OnOk result (rows.new ≡ with_files now (shown_files staged.now.entries) rows.old) }
    ensures back { let free = free_paths rows.old (shown_files staged.now.entries) in
        rows_without free rows.new ≡ rows_without free rows.old }
    ensures records { Leaves change.now (end_of result) (K.shows records.old) (K.shows records.new) }
{
    add_all_new(alloc, rows, staged, now)?;
    records.commit(alloc, change)?;
    Ok(())
}

/// Lists rows again once items are recorded; where they are not, the rows go that they put.
fn finish<H: Held>(
    rows: &mut CountedRows<H>,
    items: &[Item],
    now: u64,
    recorded: Result<(), CommitFault>,
) -> Result<(), CommitFault>
    requires { now ≤ latest_moment }
    ensures same { result ≡ recorded }
    ensures ok { OnOk recorded (rows.new ≡ with_listed now items.now rows.old) }
    ensures err { OnErr recorded (rows.new ≡ without_puts items.now rows.old) }
{
    match recorded {
        Ok(()) => list_all_by(rows, items, now),
        Err(_) => undo_all(rows, items),
    }
    recorded
}

/// Deploys staged files against which nothing stands, once that is recorded, with one more item, and gives the blobs that no
/// row took. Where that fails nothing is changed.
pub fn deliver<H: Held, K: Records>(
    alloc: Global,
    rows: &mut CountedRows<H>,
    records: &mut K,
    repo: &Text,
    staged: &BTreeMap<String, Parcel<H>>,
    also: Item,
    now: u64,
) -> Result<Vec<u64>, CommitFault>
    requires moment { now ≤ latest_moment }
    requires repo { IsTrue (is_id repo.now) }
    requires files { IsTrue (list_all is_recordable (shown_files staged.now.entries)) }
    requires few { length (shown_files staged.now.entries) ≤ most_rows }
    requires also { IsTrue (is_item also) }
    requires whole { IsTrue (is_of Second also) }
    requires short { length (item_bytes also) < 65536 }
    requires records { MayTake (items_by (deliver_all (session_with repo.now (shown_files staged.now.entries)) now rows.old) ++ also ∷ []) (K.shows records.old) }
    ensures blobs { IfOk result (λ blobs. blobs.items ≡ flat_map left_by (deliver_all (session_with repo.now (shown_files staged.now.entries)) now rows.old)) }
    ensures rows { OnOk result (rows.new
        ≡ rows_after_all (deliver_all (session_with repo.now (shown_files staged.now.entries)) now rows.old) rows.old) }
    ensures err { OnErr result (rows.new ≡ rows.old) }
    ensures records { Leaves (items_by (deliver_all (session_with repo.now (shown_files staged.now.entries)) now rows.old) ++ also ∷ []) (end_of result) (K.shows records.old) (K.shows records.new) }
{
    // Its contract says that each path stands once.
    let _len = staged.len();
    let before = rows.map();
    let blobs = left_of(alloc, before, staged)?;
    let items = items_of(alloc, repo, before, staged, now)?;
    let count = items.len();
    let change = change_with(items, also)?;
    let result = add_and_commit(alloc, rows, records, staged, &change, now);
    finish(rows, front(&change, count), now, result)?;
    Ok(blobs)
}
