//! Rows that are recorded and stored: the documents, and a new row, change before the commit, and are as before where it fails. That
//! takes no memory, and is not seen from outside.
ghost use Rattle.std.specs.Prelude.{◌≡◌, ◌≤◌, None, OnOk, OnErr};
ghost use Rattle.repo_model.specs.Effect.{list_again, new_row, with_row};
ghost use Rattle.repo_model.specs.History.{latest_moment};
ghost use Rattle.repo_model.specs.Shown.{shown_parcel};
ghost use Rattle.repo_model.specs.State.{change_where, is_row, row_at};
ghost use Rattle.row_tables.specs.Leaving.{Leaves, MayTake, end_of};
ghost use Rattle.row_tables.specs.Items.{IsChange};
ghost use Rattle.kept_docs.specs.Kept.{AreOf};
ghost use Rattle.hosted_repo.specs.Puts.{puts_row, lists_row};
ghost use Rattle.hosted_repo.specs.Releases.{FadesAt};

use crate::changes::{put_change, relist_change};
use kept_docs::{Docs, add_row, undo_row};
use ordered_rows::{CountedRows, Phase, Row, print_of};
use outside::{Held, Parcel};
use row_tables::{CommitFault, Records};
use std::alloc::Global;
use texts::Text;

/// Adds a visible row at a path that has none, once it is recorded. Where that fails nothing is changed.
pub fn create<H: Held, K: Records>(
    alloc: Global,
    rows: &mut CountedRows<H>,
    docs: &mut Docs,
    records: &mut K,
    repo: &Text,
    path: &str,
    parcel: &Parcel<H>,
    accepted: u64,
) -> Result<(), CommitFault>
    requires docs { AreOf docs.old rows.old }
    requires free { row_at path.now rows.old ≡ None }
    requires moment { accepted ≤ latest_moment }
    requires change { IsChange (puts_row repo.now path.now (shown_parcel parcel.now) accepted) }
    requires records { MayTake (puts_row repo.now path.now (shown_parcel parcel.now) accepted) (K.shows records.old) }
    ensures ok { OnOk result (rows.new ≡ with_row (new_row path.now (shown_parcel parcel.now) accepted) rows.old) }
    ensures err { OnErr result (rows.new ≡ rows.old) }
    ensures docs { AreOf docs.new rows.new }
    ensures records { Leaves (puts_row repo.now path.now (shown_parcel parcel.now) accepted) (end_of result) (K.shows records.old) (K.shows records.new) }
{
    let change = put_change(alloc, repo, path, parcel.blob, print_of(parcel), accepted)?;
    let row = Row {
        parcel: parcel.share()?,
        accepted,
        phase: Phase::Listed,
    };
    let described = add_row(alloc, docs, path, accepted)?;
    // The row makes its own room, and goes again where it is not recorded.
    let Ok(()) = rows.add(alloc, path, row) else {
        undo_row(docs, described);
        return Err(CommitFault::NoMemory);
    };
    if let Err(fault) = records.commit(alloc, &change) {
        rows.remove(path);
        undo_row(docs, described);
        return Err(fault);
    }
    drop(described);
    Ok(())
}

/// Lists the row at a path again, accepted at a moment, once that is recorded. Where that fails nothing is changed.
pub fn relist<H: Held, K: Records>(
    alloc: Global,
    rows: &mut CountedRows<H>,
    docs: &mut Docs,
    records: &mut K,
    repo: &Text,
    path: &str,
    accepted: u64,
) -> Result<(), CommitFault>
    requires docs { AreOf docs.old rows.old }
    requires faded { FadesAt path.now rows.old }
    requires moment { accepted ≤ latest_moment }
    requires change { IsChange (lists_row repo.now path.now accepted) }
    requires records { MayTake (lists_row repo.now path.now accepted) (K.shows records.old) }
    ensures ok { OnOk result (rows.new ≡ change_where (is_row path.now) (list_again accepted) rows.old) }
    ensures err { OnErr result (rows.new ≡ rows.old) }
    ensures docs { AreOf docs.new rows.new }
    ensures records { Leaves (lists_row repo.now path.now accepted) (end_of result) (K.shows records.old) (K.shows records.new) }
{
    // Its contract says that each path stands once.
    let _len = rows.map().len();
    let change = relist_change(alloc, repo, path, accepted)?;
    let described = add_row(alloc, docs, path, accepted)?;
    if let Err(fault) = records.commit(alloc, &change) {
        undo_row(docs, described);
        return Err(fault);
    }
    rows.list_again(path, accepted);
    drop(described);
    Ok(())
}
