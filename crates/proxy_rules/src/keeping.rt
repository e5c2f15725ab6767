//! What is recorded and then kept: room first, then the commit, and the change last, as it is seen from outside.
ghost use Rattle.std.specs.Prelude.{◌≡◌, ◌≤◌, ◌∷◌, [], None, OnOk, OnErr};
ghost use Rattle.repo_model.specs.declared.item.Item.TheVariants.{CachedFile, CachedDoc};
ghost use Rattle.repo_model.specs.Effect.{new_row, with_kept, with_row};
ghost use Rattle.repo_model.specs.History.{latest_moment};
ghost use Rattle.repo_model.specs.Prints.{recorded_print};
ghost use Rattle.repo_model.specs.Shown.{shown_parcel, shown_print};
ghost use Rattle.repo_model.specs.State.{row_at};
ghost use Rattle.row_tables.specs.Leaving.{Leaves, MayTake, end_of};
ghost use Rattle.row_tables.specs.Items.{IsChange};
ghost use Rattle.proxy_entries.specs.Stored.{shown_documents, shown_kept};

use crate::changes::{document_change, file_change};
use ordered_rows::{CountedRows, Phase, Row, print_of};
use outside::{Held, Parcel};
use proxy_entries::{Kept, replace};
use row_tables::{CommitFault, Records};
use std::alloc::Global;
use std::collections::BTreeMap;
use texts::Text;

/// Keeps a file at a path that has none, once it is recorded. Where that fails nothing is changed.
pub fn keep_file<H: Held, K: Records>(
    alloc: Global,
    files: &mut CountedRows<H>,
    records: &mut K,
    proxy: &Text,
    path: &str,
    parcel: Parcel<H>,
    accepted: u64,
) -> Result<(), CommitFault>
    requires free { row_at path.now files.old ≡ None }
    requires moment { accepted ≤ latest_moment }
    requires change { IsChange (CachedFile proxy.now path.now parcel.blob (recorded_print (shown_print parcel)) accepted ∷ []) }
    requires records { MayTake (CachedFile proxy.now path.now parcel.blob (recorded_print (shown_print parcel)) accepted ∷ []) (K.shows records.old) }
    ensures ok { OnOk result (files.new ≡ with_row (new_row path.now (shown_parcel parcel) accepted) files.old) }
    ensures err { OnErr result (files.new ≡ files.old) }
    ensures records { Leaves (CachedFile proxy.now path.now parcel.blob (recorded_print (shown_print parcel)) accepted ∷ []) (end_of result) (K.shows records.old) (K.shows records.new) }
{
    let change = file_change(alloc, proxy, path, parcel.blob, print_of(&parcel), accepted)?;
    let row = Row {
        parcel,
        accepted,
        phase: Phase::Listed,
    };
    // The row makes its own room, and goes again where it is not recorded.
    let Ok(()) = files.add(alloc, path, row) else {
        return Err(CommitFault::NoMemory);
    };
    if let Err(fault) = records.commit(alloc, &change) {
        files.remove(path);
        return Err(fault);
    }
    Ok(())
}

/// Keeps a document at a path, in the place of the one that is there, once it is recorded. Where that fails nothing is changed.
pub fn keep_document<K: Records>(
    alloc: Global,
    documents: &mut BTreeMap<String, Kept>,
    records: &mut K,
    proxy: &Text,
    path: &str,
    kept: Kept,
) -> Result<(), CommitFault>
    requires ready { (K.shows records.old).IsReady }
    requires change { IsChange (CachedDoc proxy.now path.now kept.checked kept.doc ∷ []) }
    ensures ok { OnOk result (shown_documents documents.new.entries ≡ with_kept (shown_kept path.now kept) (shown_documents documents.old.entries)) }
    ensures err { OnErr result (shown_documents documents.new.entries ≡ shown_documents documents.old.entries) }
    ensures records { Leaves (CachedDoc proxy.now path.now kept.checked kept.doc ∷ []) (end_of result) (K.shows records.old) (K.shows records.new) }
{
    let change = document_change(alloc, proxy, path, kept.checked, &kept.doc)?;
    let key = String::from_str(alloc, path)?;
    if documents.contains_key(path) {
        records.commit(alloc, &change)?;
        replace(documents, key, kept);
        return Ok(());
    }
    let Ok(_) = documents.insert(key, kept) else {
        return Err(CommitFault::NoMemory);
    };
    if let Err(fault) = records.commit(alloc, &change) {
        documents.remove(path);
        return Err(fault);
    }
    Ok(())
}
