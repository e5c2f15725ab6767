//! A start's first step: rows without further digests are given them.
ghost use Rattle.std.specs.Prelude.{◌≡◌, ◌↔◌, true, None, Ok, IfOk, IfSome, OnOk, OnErr};
ghost use Rattle.std.specs.Option.{option_map};
ghost use Rattle.blob_audit.specs.Order.{all_files, all_rows};
ghost use Rattle.repo_model.specs.Tables.{AreComplete};
ghost use Rattle.blob_audit.specs.Damages.{IsFirstDamaged};
ghost use Rattle.row_completion.specs.Completion.{IsComplete, IsDigested, IsDigestedWhereTold};
ghost use Rattle.row_completion.specs.Faults.{HasCompletionCause, HasFindCause, OnDamage};
ghost use Rattle.row_completion.specs.Gathering.{AreItemsOf};
ghost use Rattle.row_tables.specs.Recorded.{IsBuiltUp};
ghost use Rattle.row_tables.specs.Stored.{shown_rows};

use crate::faults::CompletionFault;
use crate::gathering::items_of_files;
use crate::recording::commit_all;
use blob_audit::{all_files, sizes};
use outside::Blobs;
use repo_model::Item;
use row_tables::{CommitFault, FileRow, Place, Records, Tables};
use std::alloc::Global;
use std::collections::BTreeMap;
use table_laws::built_tables_are_right;

// Whether each of these rows has its SHA-256 and SHA-512.
fn are_complete(rows: &BTreeMap<Place, FileRow>) -> bool
    ensures { result ≡ true ↔ AreComplete (shown_rows rows.now.entries) }
{
    let mut complete = true;
    for (_, row) in rows {
        sizes(row.print);
        complete = complete & row.print.digests.further.is_some();
    }
    complete
}

// Whether all rows have them.
fn is_complete(tables: &Tables) -> bool
    ensures { result ≡ true ↔ IsComplete tables.now }
{
    are_complete(tables.hosted()) && are_complete(tables.cached())
}

// What is to be recorded of the tables' files.
fn items_of_tables<B: Blobs>(
    alloc: Global,
    blobs: &mut B,
    tables: &Tables,
) -> Result<Vec<Item>, CompletionFault>
    ensures items { IfOk result (λ items. AreItemsOf (B.shelf blobs.old) (all_files tables.now) items.items) }
    ensures damaged { OnDamage result (IsFirstDamaged (B.shelf blobs.old) (all_rows tables.now)) }
    ensures cause { HasFindCause (B.faults blobs.old) (B.faults blobs.new) result }
    ensures kept { B.shelf blobs.new ≡ B.shelf blobs.old }
{
    let files = all_files(alloc, tables)?;
    items_of_files(alloc, blobs, &files)
}

/// Completes what was recorded without SHA-256 and SHA-512. Where all rows have them nothing is done. Else each recorded file is
/// looked at, of hosted repositories and of proxies, in byte order of repository and then of path, a hosted file before a
/// proxy's: its blob is read once and compared with what was recorded, and at the first that differs, or is not there, the call
/// ends with `Damaged` and has changed nothing. Then, in the same order, the digests that were found are committed for all rows
/// that lack them, at most 1,000 in one change, and the tables have them too. Nothing but these digests is changed.
///
/// `Store` comes where the records or the store of blobs failed. At a fault the first of these rows may be completed, and the
/// tables are not to be used.
pub fn complete<K: Records, B: Blobs>(
    alloc: Global,
    records: &mut K,
    blobs: &mut B,
    tables: &mut Tables,
) -> Result<(), CompletionFault>
    requires ready { (K.shows records.old).IsReady }
    requires told { IfSome (K.shows records.old).tables (λ told. tables.old ≡ told) }
    requires built { IsBuiltUp tables.old }
    ensures digested { OnOk result (IsDigested (B.shelf blobs.old) tables.old tables.new) }
    ensures complete { OnOk result (IsComplete tables.new) }
    ensures built { OnOk result (IsBuiltUp tables.new) }
    ensures recorded { OnOk result ((K.shows records.new).tables ≡ option_map (λ _. tables.new) (K.shows records.old).tables) }
    ensures front { OnErr result (IsDigestedWhereTold (B.shelf blobs.old) (K.shows records.old).tables (K.shows records.new).tables) }
    ensures damaged { OnDamage result (λ damage.
        IsFirstDamaged (B.shelf blobs.old) (all_rows tables.old) damage × ((K.shows records.new).tables ≡ (K.shows records.old).tables)) }
    ensures still { IsComplete tables.old → (result ≡ Ok tt) × (records.new ≡ records.old) × (blobs.new ≡ blobs.old) × (tables.new ≡ tables.old) }
    ensures cause { HasCompletionCause (K.shows records.old).faults (K.shows records.new).faults (B.faults blobs.old) (B.faults blobs.new) result }
    ensures settled { (K.shows records.old).unsettled.pending ≡ None → OnOk result ((K.shows records.new).unsettled.pending ≡ None) }
    ensures ready { (K.shows records.new).IsReady }
    ensures kept { B.shelf blobs.new ≡ B.shelf blobs.old }
{
    // The rows rise, and stand at files' paths.
    built_tables_are_right();
    if is_complete(tables) {
        return Ok(());
    }
    let items = items_of_tables(alloc, blobs, tables)?;
    match commit_all(alloc, records, tables, items) {
        Ok(()) => Ok(()),
        Err(CommitFault::Failed) => Err(CompletionFault::Store),
        Err(CommitFault::NoMemory) => Err(CompletionFault::NoMemory),
    }
}
