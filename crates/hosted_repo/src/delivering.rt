//! Staged files that are deployed together, and the documents that they make: these first, then one commit, and the change last.
ghost use Rattle.std.specs.Prelude.{◌≡◌, ℕ, ◌<◌, ◌≤◌, ◌++◌, ◌∷◌, [], length, List, IfOk, IsTrue, OnOk, OnErr};
ghost use Rattle.std.specs.List.{flat_map, list_all};
ghost use Rattle.std.specs.Option.{option_map};
ghost use Rattle.mvn_coords.specs.Layout.{Directory, text_of_directory};
ghost use Rattle.mvn_coords.specs.Path.{IsDirectory};
ghost use Rattle.repo_model.specs.Data.{Blob};
ghost use Rattle.repo_model.specs.Deploy.{deliver_all};
ghost use Rattle.repo_model.specs.Effect.{recorded as items_by};
ghost use Rattle.repo_model.specs.History.{latest_moment};
ghost use Rattle.repo_model.specs.Purge.{most_rows};
ghost use Rattle.row_tables.specs.Leaving.{Leaves, MayTake, end_of};
ghost use Rattle.row_tables.specs.Items.{is_id, is_item, is_of, item_bytes};
ghost use Rattle.row_tables.specs.declared.version.Version.TheVariants.{Second};
ghost use Rattle.ordered_rows.specs.Rows.{rows_after_all, shown_at, shown_rows};
ghost use Rattle.hosted_delivery.specs.Deliveries.{is_recordable, left_by, session_with, shown_files};
ghost use Rattle.kept_docs.specs.Kept.{AreOf, AreSame};
ghost use Rattle.kept_docs.specs.Drafted.{AreDrafted, drafted};
ghost use Rattle.kept_docs.specs.Placed.{HasRoom, WillBeOf};
ghost use Rattle.hosted_repo.specs.Delivered.{with_delivered};

use hosted_delivery::deliver;
use kept_docs::{Docs, Drafts, Page, prepared};
use ordered_rows::{CountedRows, Phase, Row, find};
use outside::{Held, NoMemory, Parcel};
use repo_model::Item;
use row_tables::{CommitFault, Records};
use std::alloc::Global;
use std::collections::BTreeMap;
use texts::Text;

// Adds a file that is deployed to the documents of its directories, beside the row at its path: a visible row stays as it is.
fn add_file<H: Held>(
    alloc: Global,
    docs: &Docs,
    drafts: &mut Drafts,
    path: &str,
    row: Option<&Row<H>>,
    now: u64,
) -> Result<(), NoMemory>
    requires { now ≤ latest_moment }
    ensures { OnOk result ((d : Directory) (blob : Blob) → IsDirectory d → drafted (text_of_directory d) docs.now drafts.new
        ≡ with_delivered d path.now now blob (option_map (λ row. shown_at path.now row.now) row.entry) (drafted (text_of_directory d) docs.now drafts.old)) }
{
    let Some(row) = row else {
        return drafts.add(alloc, docs, path, now);
    };
    match row.phase {
        Phase::Listed => Ok(()),
        Phase::Fading(_) => drafts.add(alloc, docs, path, now),
    }
}

// The documents that staged files make, each directory's once.
fn drafts_of<H: Held>(
    alloc: Global,
    docs: &Docs,
    rows: &BTreeMap<String, Row<H>>,
    staged: &BTreeMap<String, Parcel<H>>,
    now: u64,
) -> Result<Drafts, NoMemory>
    requires moment { now ≤ latest_moment }
    requires docs { AreOf docs.now (shown_rows rows.now.entries) }
    ensures { IfOk result (λ drafts. (repo : List ℕ) → AreDrafted docs.now drafts (rows_after_all
        (deliver_all (session_with repo (shown_files staged.now.entries)) now (shown_rows rows.now.entries)) (shown_rows rows.now.entries))) }
{
    // Their contracts say that each path stands once.
    let _rows = rows.len();
    let _files = staged.len();
    let mut drafts = Drafts::new(alloc);
    for (path, _parcel) in staged {
        let text = path.as_str();
        add_file(alloc, docs, &mut drafts, text, find(rows, text), now)?;
    }
    Ok(drafts)
}

// The same, written, with the room that they need.
fn pages_of<H: Held>(
    alloc: Global,
    docs: &mut Docs,
    rows: &BTreeMap<String, Row<H>>,
    staged: &BTreeMap<String, Parcel<H>>,
    now: u64,
) -> Result<Vec<Page>, NoMemory>
    requires moment { now ≤ latest_moment }
    requires docs { AreOf docs.old (shown_rows rows.now.entries) }
    ensures same { AreSame docs.old docs.new }
    ensures room { IfOk result (λ pages. HasRoom docs.new pages.items) }
    ensures pages { IfOk result (λ pages. (repo : List ℕ) → WillBeOf docs.new pages.items (rows_after_all
        (deliver_all (session_with repo (shown_files staged.now.entries)) now (shown_rows rows.now.entries)) (shown_rows rows.now.entries))) }
{
    let drafts = drafts_of(alloc, docs, rows, staged, now)?;
    prepared(alloc, docs, drafts)
}

/// Deploys staged files against which nothing stands, once that is recorded, with one more item, and gives the blobs that no row took.
/// Where that fails nothing is changed.
pub fn deliver_all<H: Held, K: Records>(
    alloc: Global,
    rows: &mut CountedRows<H>,
    docs: &mut Docs,
    records: &mut K,
    repo: &Text,
    staged: &BTreeMap<String, Parcel<H>>,
    also: Item,
    now: u64,
) -> Result<Vec<u64>, CommitFault>
    requires docs { AreOf docs.old rows.old }
    requires moment { now ≤ latest_moment }
    requires repo { IsTrue (is_id repo.now) }
    requires files { IsTrue (list_all is_recordable (shown_files staged.now.entries)) }
    requires few { length (shown_files staged.now.entries) ≤ most_rows }
    requires also { IsTrue (is_item also) }
    requires whole { IsTrue (is_of Second also) }
    requires short { length (item_bytes also) < 65536 }
    requires records { MayTake (items_by (deliver_all (session_with repo.now (shown_files staged.now.entries)) now rows.old) ++ also ∷ []) (K.shows records.old) }
    ensures blobs { IfOk result (λ blobs. blobs.items ≡ flat_map left_by (deliver_all (session_with repo.now (shown_files staged.now.entries)) now rows.old)) }
    ensures rows { OnOk result (rows.new ≡ rows_after_all (deliver_all (session_with repo.now (shown_files staged.now.entries)) now rows.old) rows.old) }
    ensures err { OnErr result (rows.new ≡ rows.old) }
    ensures docs { AreOf docs.new rows.new }
    ensures records { Leaves (items_by (deliver_all (session_with repo.now (shown_files staged.now.entries)) now rows.old) ++ also ∷ []) (end_of result) (K.shows records.old) (K.shows records.new) }
{
    let pages = pages_of(alloc, docs, rows.map(), staged, now)?;
    match deliver(alloc, rows, records, repo, staged, also, now) {
        Ok(blobs) => {
            docs.place(pages);
            Ok(blobs)
        }
        Err(fault) => {
            docs.give_up(pages.as_slice());
            Err(fault)
        }
    }
}
