//! How a journal is loaded.
ghost use Rattle.std.specs.Prelude.{◌≡◌, None, IfOk, IfSome, OnOk};
ghost use Rattle.record_disk.specs.Disk.{After, Sync, content, Told, IsDurable};
ghost use Rattle.record_log.specs.Frames.{frames, end_of};
ghost use Rattle.record_log.specs.Log.{HasLogCause, MaySync};
ghost use Rattle.row_tables.specs.Recorded.{IsBuiltUp};
ghost use Rattle.row_tables.specs.Records.{HasLoadCause, IsRefusal, LoadsUnlessFailed};
ghost use Rattle.record_journal.specs.Journal.{acknowledged, expected_of, tables_of, IsReady, IsSteady, KeepsTables, Recovers, IsStill};
ghost use Rattle.row_tables.specs.Loading.{loading};

use crate::loading::tables_in;
use crate::undoing::take_back;
use record_disk::Disk;
use record_log::{Log, LogFault};
use row_tables::{LoadFault, Tables};
use std::alloc::Global;

// Undoes the frame that failed, if there is one, syncs the file and gives its bytes.
fn synced_bytes<D: Disk>(alloc: Global, log: &mut Log<D>) -> Result<Vec<u8>, LogFault>
    requires { IsSteady log.old }
    ensures cause { HasLogCause log.old.faults log.new.faults result }
    ensures crash { Told log.old.trace log.new.trace (KeepsTables (tables_of log.old) log.old.pending log.new.pending) }
    ensures first { log.old.pending ≡ None → Told log.old.trace log.new.trace Recovers }
    ensures moments { log.old.pending ≡ None → Told log.old.trace log.new.trace MaySync }
    ensures synced { OnOk result (log.old.pending ≡ None → Told log.old.trace log.new.trace (λ s t. t ≡ After Sync (content s) s)) }
    ensures steady { IsSteady log.new }
    ensures same { tables_of log.new ≡ tables_of log.old }
    ensures undone { OnOk result (log.new.pending ≡ None) }
    ensures bytes { IfOk result (λ bytes. IfSome log.old.trace (λ s. loading (acknowledged log.old.gate log.old.pending (content s)) ≡ loading bytes.items)) }
    ensures durable { IfOk result (λ bytes. IfSome log.new.trace (λ t. IsDurable bytes.items t)) }
{
    take_back(log)?;
    log.load(alloc)
}

/// Loads the tables of a file, and makes its end ready for changes. A refusal leaves the file as it is.
pub fn load_log<D: Disk>(alloc: Global, log: &mut Log<D>) -> Result<Tables, LoadFault>
    requires { IsSteady log.old }
    ensures cause { HasLoadCause log.old.faults log.new.faults result }
    ensures crash { Told log.old.trace log.new.trace (KeepsTables (tables_of log.old) log.old.pending log.new.pending) }
    ensures first { log.old.pending ≡ None → Told log.old.trace log.new.trace Recovers }
    ensures gate { OnOk result (log.old.pending ≡ None → IfSome log.old.trace (λ s. log.new.gate ≡ end_of (frames (content s)))) }
    ensures still { log.old.pending ≡ None → Told log.old.trace log.new.trace IsStill }
    ensures loads { IfSome (expected_of log.old) (λ expected. LoadsUnlessFailed expected result) }
    ensures left { IsRefusal result → Told log.old.trace log.new.trace (λ s t. t ≡ After Sync (content s) s) }
    ensures built { IfOk result IsBuiltUp }
    ensures ready { OnOk result (IsReady log.new) }
    ensures undone { OnOk result (log.new.pending ≡ None) }
    ensures steady { IsSteady log.new }
    ensures same { tables_of log.new ≡ tables_of log.old }
{
    let bytes = match synced_bytes(alloc, log) {
        Ok(bytes) => bytes,
        Err(LogFault::Failed) => return Err(LoadFault::Failed),
        Err(LogFault::NoMemory) => return Err(LoadFault::NoMemory),
    };
    let tables = tables_in(alloc, &bytes)?;
    match log.mend(&bytes) {
        Ok(()) => Ok(tables),
        Err(_) => Err(LoadFault::Failed),
    }
}
