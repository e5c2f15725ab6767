//! How a change is committed.
ghost use Rattle.std.specs.Prelude.{◌≡◌, ◌⊎◌, ◌<◌, ◌+◌, ◌^◌, [], None, Some, Ok, length, IfOk, IsTrue, IsOk, IsErrOf, OnOk, OnErr};
ghost use Rattle.std.specs.Option.{ForSome, option_map};
ghost use Rattle.record_disk.specs.Disk.{Told};
ghost use Rattle.repo_model.specs.Tables.{applied};
ghost use Rattle.row_tables.specs.Applying.{with_items};
ghost use Rattle.row_tables.specs.Items.{IsChange, are_of, change_bytes};
ghost use Rattle.row_tables.specs.declared.version.Version.TheVariants.{Second};
ghost use Rattle.row_tables.specs.Leaving.{HasCause, end_of};
ghost use Rattle.row_tables.specs.declared.faults.CommitFault.TheVariants.{Failed as failed, NoMemory as no_memory};
ghost use Rattle.record_journal.specs.Journal.{tables_of, Adds, AddsNothing, IsReady, Commits};

use crate::undoing::take_back;
use record_disk::Disk;
use record_log::{Log, LogFault};
use repo_rows::put;
use row_tables::{Change, CommitFault};
use std::alloc::{AllocError, Global};

// The bytes of a change.
fn payload_of(alloc: Global, change: &Change) -> Result<Vec<u8>, AllocError>
    requires { IsTrue (are_of Second change.now) }
    ensures bytes { IfOk result (λ bytes. bytes.items ≡ change_bytes change.now) }
    ensures fits { IfOk result (λ bytes. length bytes.items < 2 ^ 32) }
    ensures form { OnOk result (IsChange change.now) }
{
    let mut payload = Vec::new(alloc);
    put(alloc, change, &mut payload)?;
    let _ = change.items();
    Ok(payload)
}

// Adds a change after the others.
fn append_change<D: Disk>(
    alloc: Global,
    log: &mut Log<D>,
    change: &Change,
) -> Result<(), CommitFault>
    requires ready { IsReady log.old }
    requires whole { IsTrue (are_of Second change.now) }
    requires undone { log.old.pending ≡ None }
    requires fits { ForSome (tables_of log.old) (λ t. applied t change.now ≡ Ok (with_items t change.now)) }
    ensures cause { HasCause (end_of result) log.old.faults log.new.faults }
    ensures ready { IsReady log.new }
    ensures ok { OnOk result (tables_of log.new ≡ option_map (λ t. with_items t change.now) (tables_of log.old)) }
    ensures err { OnErr result (tables_of log.new ≡ tables_of log.old) }
    ensures crash { Told log.old.trace log.new.trace (Adds (tables_of log.old) change.now) }
    ensures undone { OnOk result (log.new.pending ≡ None) }
    ensures pending { OnErr result ((log.new.pending ≡ None) ⊎ (log.new.pending ≡ Some (change_bytes change.now))) }
    ensures nothing { OnErr result ((log.new.pending ≡ Some (change_bytes change.now)) ⊎ (log.new ≡ log.old)) }
    ensures wanting { IsErrOf result no_memory → log.new.pending ≡ None }
    ensures gate { OnOk result (log.new.gate ≡ log.old.gate + 5 + length (change_bytes change.now)) }
    ensures stays { OnErr result (log.new.gate ≡ log.old.gate) }
{
    let payload = match payload_of(alloc, change) {
        Ok(payload) => payload,
        Err(_) => return Err(CommitFault::NoMemory),
    };
    match log.append(alloc, payload) {
        Ok(()) => Ok(()),
        Err(LogFault::Failed) => Err(CommitFault::Failed),
        Err(LogFault::NoMemory) => Err(CommitFault::NoMemory),
    }
}

/// Undoes the frame that failed, if there is one, and adds a change. An empty one has no frame.
pub fn commit_change<D: Disk>(
    alloc: Global,
    log: &mut Log<D>,
    change: &Change,
) -> Result<(), CommitFault>
    requires ready { IsReady log.old }
    requires whole { IsTrue (are_of Second change.now) }
    requires fits { ForSome (tables_of log.old) (λ t. applied t change.now ≡ Ok (with_items t change.now)) }
    ensures cause { HasCause (end_of result) log.old.faults log.new.faults }
    ensures ready { IsReady log.new }
    ensures ok { OnOk result (tables_of log.new ≡ option_map (λ t. with_items t change.now) (tables_of log.old)) }
    ensures err { OnErr result (tables_of log.new ≡ tables_of log.old) }
    ensures crash { Told log.old.trace log.new.trace (Commits (tables_of log.old) log.old.pending change.now) }
    ensures undone { OnOk result (log.new.pending ≡ None) }
    ensures pending { OnErr result ((log.new.pending ≡ None) ⊎ (log.new.pending ≡ log.old.pending) ⊎ (log.new.pending ≡ Some (change_bytes change.now))) }
    ensures wanting { IsErrOf result no_memory → log.new.pending ≡ None }
    ensures nothing { OnErr result ((log.new.pending ≡ Some (change_bytes change.now)) ⊎ Told log.old.trace log.new.trace (AddsNothing (tables_of log.old) log.old.pending)) }
    ensures empty { change.now ≡ [] → log.old.pending ≡ None → IsOk result × (log.new ≡ log.old) }
    ensures unframed { change.now ≡ [] → (log.new.gate ≡ log.old.gate) × OnErr result (IsErrOf result failed × (log.new.pending ≡ log.old.pending)) }
    ensures framed { OnOk result ((change.now ≡ []) ⊎ (log.new.gate ≡ log.old.gate + 5 + length (change_bytes change.now))) }
    ensures stays { OnErr result (log.new.gate ≡ log.old.gate) }
{
    match take_back(log) {
        Ok(()) => {}
        Err(_) => return Err(CommitFault::Failed),
    }
    if change.is_empty() {
        return Ok(());
    }
    append_change(alloc, log, change)
}
