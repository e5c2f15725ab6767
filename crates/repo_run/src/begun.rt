//! The repository of a run, opened over what is recorded and stored.
ghost use Rattle.std.specs.Prelude.{◌≡◌, IfErr, IfOk};
ghost use Rattle.run_desks.specs.Seen.{store_seen};
ghost use Rattle.repo_run.specs.Begun.{Begins, RefusesStart, StartFails};
ghost use Rattle.repo_run.specs.Surroundings.{output_seen, records_seen};

use outside::{Blobs, Clock, Sink, Tells};
use repo_config::Settings;
use repo_core::{Core, StartFault, start};
use row_tables::Records;
use std::alloc::Global;
use store_check::{AuditFault, refuse_damaged, refuse_store};

/// The repository of these settings, over what is recorded and stored. At an error the records and the clock come back.
pub fn begin<K: Records, B: Blobs, C: Clock>(
    alloc: Global,
    settings: &Settings,
    records: K,
    blobs: &mut B,
    clock: C,
) -> Result<Core<K, C, B::Held>, (StartFault, K, C)>
    ensures ok { IfOk result (λ core. Begins settings.now (records_seen ⟦<K as Records>⟧ records)
        (store_seen ⟦<B as Blobs>⟧ blobs.old) (store_seen ⟦<B as Blobs>⟧ blobs.new) (C.moments clock) core) }
    ensures err { IfErr result (λ error. StartFails (records_seen ⟦<K as Records>⟧ records) (records_seen ⟦<K as Records>⟧ error.1)
        (store_seen ⟦<B as Blobs>⟧ blobs.old) (store_seen ⟦<B as Blobs>⟧ blobs.new) error.0) }
    ensures clock { IfErr result (λ error. error.2 ≡ clock) }
{
    // Their ids differ, and have their form.
    settings.form();
    let own = match settings.copied(alloc) {
        Ok(own) => own,
        Err(_) => return Err((StartFault::NoMemory, records, clock)),
    };
    match start(alloc, own, records, blobs, clock) {
        Ok(core) => Ok(core),
        Err(error) => Err(error),
    }
}

/// Prints why a repository was not opened, as far as that can be printed, and gives the status that tells it.
pub fn refuse_start<O: Sink>(alloc: Global, out: &mut O, refusal: &StartFault) -> u8
    ensures { RefusesStart refusal.now (output_seen ⟦<O as Tells>⟧ out.old) (output_seen ⟦<O as Tells>⟧ out.new) result }
{
    match refusal {
        StartFault::NoMemory => refuse_store(alloc, out, AuditFault::NoMemory),
        StartFault::Store => refuse_store(alloc, out, AuditFault::Store),
        StartFault::NotOurs => refuse_store(alloc, out, AuditFault::NotOurs),
        StartFault::Row { frame, at } => refuse_store(
            alloc,
            out,
            AuditFault::Row {
                frame: *frame,
                at: *at,
            },
        ),
        StartFault::Damaged(damaged) => refuse_damaged(alloc, out, damaged),
    }
}
