//! The command `clean`: the settings are read, and one pass goes over the repositories.
ghost use Rattle.run_desks.specs.Seen.{store_seen};
ghost use Rattle.run_lines.specs.Reading.{File};
ghost use Rattle.repo_run.specs.Clean.{Cleans, CleansBy, TellsPass};
ghost use Rattle.repo_run.specs.Surroundings.{output_seen, source_seen, view_of};

use crate::begun::{begin, refuse_start};
use crate::ran::Ended;
use outside::{Blobs, Clock, Sink, Source, Tells};
use repo_config::Settings;
use repo_course::{CleanFault, Cleaned, cleaned_text};
use repo_server::clean_pass;
use row_tables::Records;
use run_lines::{DONE, NO_MEMORY, OUTPUT, fault, print, settings_of};
use std::alloc::Global;
use store_check::{AuditFault, refuse_store};

/// Prints what a pass has done.
fn tell_cleaned<O: Sink>(alloc: Global, out: &mut O, cleaned: &Cleaned) -> u8
    ensures { TellsPass (Ok cleaned.now) (output_seen ⟦<O as Tells>⟧ out.old) (output_seen ⟦<O as Tells>⟧ out.new) result }
{
    let Ok(text) = cleaned_text(alloc, cleaned.unlisted, cleaned.removed) else {
        return fault(out, b"mvnrepod: memory\n", NO_MEMORY);
    };
    if print(out, text.as_slice()) {
        DONE
    } else {
        OUTPUT
    }
}

/// Prints what a pass has done, or why it was not made to its end.
fn tell_pass<O: Sink>(alloc: Global, out: &mut O, pass: &Result<Cleaned, CleanFault>) -> u8
    ensures { TellsPass pass.now (output_seen ⟦<O as Tells>⟧ out.old) (output_seen ⟦<O as Tells>⟧ out.new) result }
{
    match pass {
        Ok(cleaned) => tell_cleaned(alloc, out, cleaned),
        Err(CleanFault::StoreFault) => refuse_store(alloc, out, AuditFault::Store),
        Err(CleanFault::BlobFault) => refuse_store(alloc, out, AuditFault::Store),
        Err(CleanFault::NoMemory) => refuse_store(alloc, out, AuditFault::NoMemory),
    }
}

/// Makes one pass over a repository of these settings, and prints what it has done.
fn clean_by<B: Blobs, K: Records, C: Clock, O: Sink>(
    alloc: Global,
    settings: &Settings,
    blobs: &mut B,
    records: K,
    clock: C,
    out: &mut O,
) -> Ended<K, C>
    ensures { (source source' : File) → Cleans settings.now
        (view_of ⟦<K as Records>⟧ ⟦<C as Clock>⟧ ⟦<O as Tells>⟧ source (store_seen ⟦<B as Blobs>⟧ blobs.old) records clock out.old)
        (view_of ⟦<K as Records>⟧ ⟦<C as Clock>⟧ ⟦<O as Tells>⟧ source' (store_seen ⟦<B as Blobs>⟧ blobs.new) result.records result.clock out.new)
        result.status }
{
    let mut core = match begin(alloc, settings, records, blobs, clock) {
        Ok(core) => core,
        Err((refusal, records, clock)) => {
            let status = refuse_start(alloc, out, &refusal);
            return Ended {
                status,
                records,
                clock,
            };
        }
    };
    let pass = clean_pass(settings, &mut core, blobs);
    let status = tell_pass(alloc, out, &pass);
    let (records, clock) = core.end();
    Ended {
        status,
        records,
        clock,
    }
}

/// Reads the settings, and cleans by them.
pub(crate) fn clean<B: Blobs, S: Source, K: Records, C: Clock, O: Sink>(
    alloc: Global,
    settings: &mut S,
    blobs: &mut B,
    records: K,
    clock: C,
    out: &mut O,
) -> Ended<K, C>
    ensures { CleansBy
        (view_of ⟦<K as Records>⟧ ⟦<C as Clock>⟧ ⟦<O as Tells>⟧ (source_seen ⟦<S as Tells>⟧ settings.old) (store_seen ⟦<B as Blobs>⟧ blobs.old) records clock out.old)
        (view_of ⟦<K as Records>⟧ ⟦<C as Clock>⟧ ⟦<O as Tells>⟧ (source_seen ⟦<S as Tells>⟧ settings.new) (store_seen ⟦<B as Blobs>⟧ blobs.new) result.records result.clock out.new)
        result.status }
{
    match settings_of(alloc, settings, out) {
        Ok(settings) => clean_by(alloc, &settings, blobs, records, clock, out),
        Err(status) => Ended {
            status,
            records,
            clock,
        },
    }
}
