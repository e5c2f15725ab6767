//! A check, its lines and its status.
ghost use Rattle.std.specs.Prelude.{◌≡◌};
ghost use Rattle.blob_audit.specs.Faults.{HasAuditCause};
ghost use Rattle.run_lines.specs.Printing.{output};
ghost use Rattle.store_check.specs.Checking.{Checks, RefusesDamaged, RefusesStore, Reports, records_told};

use crate::lines::{report_text, row_line, stopped_line};
use blob_audit::{Audit, AuditFault, Damaged, audit};
use outside::{Blobs, Sink};
use row_tables::Records;
use run_lines::{DAMAGED, DONE, NAMED, NO_MEMORY, OUTPUT, STORE, fault, print};
use std::alloc::Global;

/// Prints what a look at all recorded files has found, and gives the status that tells it.
fn report<O: Sink>(alloc: Global, out: &mut O, found: &Audit) -> u8
    ensures { Reports found.now.damaged.items found.now.looked (output (O.taken out.old) (O.write_faults out.old)) (output (O.taken out.new) (O.write_faults out.new)) result }
{
    let Ok(text) = report_text(alloc, found) else {
        return fault(out, b"mvnrepod: memory\n", NO_MEMORY);
    };
    if !print(out, text.as_slice()) {
        return OUTPUT;
    }
    if found.damaged.is_empty() {
        DONE
    } else {
        NAMED
    }
}

/// Prints the place at which the records cannot be read.
fn refuse_row<O: Sink>(alloc: Global, out: &mut O, frame: u64, at: u64) -> u8
    ensures { RefusesStore (AuditFault.Row frame at) (output (O.taken out.old) (O.write_faults out.old)) (output (O.taken out.new) (O.write_faults out.new)) result }
{
    match row_line(alloc, frame, at) {
        Ok(line) => fault(out, line.as_slice(), STORE),
        Err(_) => fault(out, b"mvnrepod: memory\n", NO_MEMORY),
    }
}

/// Prints which file is damaged, where that keeps a repository from being opened. Its status is 5, or 8 when
/// memory runs out for the line.
pub fn refuse_damaged<O: Sink>(alloc: Global, out: &mut O, damaged: &Damaged) -> u8
    ensures { RefusesDamaged damaged.now (output (O.taken out.old) (O.write_faults out.old)) (output (O.taken out.new) (O.write_faults out.new)) result }
{
    match stopped_line(alloc, damaged) {
        Ok(line) => fault(out, line.as_slice(), DAMAGED),
        Err(_) => fault(out, b"mvnrepod: memory\n", NO_MEMORY),
    }
}

/// Prints why the recorded files could not be looked at, as far as that can be printed. Its status is 4, or 8 when
/// memory ran out, or is for the line.
pub fn refuse_store<O: Sink>(alloc: Global, out: &mut O, refusal: AuditFault) -> u8
    ensures { RefusesStore refusal (output (O.taken out.old) (O.write_faults out.old)) (output (O.taken out.new) (O.write_faults out.new)) result }
{
    match refusal {
        AuditFault::NoMemory => fault(out, b"mvnrepod: memory\n", NO_MEMORY),
        AuditFault::Store => fault(out, b"mvnrepod: store\n", STORE),
        AuditFault::NotOurs => fault(out, b"mvnrepod: not-ours\n", STORE),
        AuditFault::Row { frame, at } => refuse_row(alloc, out, frame, at),
    }
}

/// Looks at every recorded file, and prints a line for each whose blob is not what was recorded, and then how many there are.
/// The lines are made whole before the first of them is printed. Neither the records nor the blobs are changed.
///
/// | status | where | line |
/// |---|---|---|
/// | 0 | all are as they were recorded | `checked N` |
/// | 4 | the records or the store failed | `mvnrepod: store` |
/// | 4 | the records are another's | `mvnrepod: not-ours` |
/// | 4 | the change of this number, counted from 0, cannot be read or does not fit at this place of its bytes | `mvnrepod: row FRAME AT` |
/// | 7 | `out` failed at the lines of status 0 or 9 | a front of these |
/// | 8 | memory ran out | `mvnrepod: memory` |
/// | 9 | some are not | `damaged REPO/PATH recorded L S M found L S M` or `.. found none` for each, then `checked N` |
///
/// Files stand in byte order of repository and then of path, one of a hosted repository before a proxy's. Compared are a file's
/// length and each digest that is recorded of it, SHA-1 and MD5 and, unless an old record lacks them, SHA-256 and SHA-512. L is
/// a length in bytes, S and M are the SHA-1 and the MD5 digest. Each failure is one that its object counted.
pub fn check_store<K: Records, B: Blobs, O: Sink>(
    alloc: Global,
    records: &mut K,
    blobs: &mut B,
    out: &mut O,
) -> u8
    ensures checks { Checks (records_told (K.shows records.old).tables (K.loading records.old) (K.shows records.old).faults (K.shows records.old).unsettled) (K.shows records.new).faults
        (B.shelf blobs.old) (B.faults blobs.old) (B.faults blobs.new)
        (output (O.taken out.old) (O.write_faults out.old)) (output (O.taken out.new) (O.write_faults out.new)) result }
    ensures tables { (K.shows records.new).tables ≡ (K.shows records.old).tables }
    ensures kept { B.shelf blobs.new ≡ B.shelf blobs.old }
{
    match audit(alloc, records, blobs) {
        Ok(found) => report(alloc, out, &found),
        Err(refusal) => refuse_store(alloc, out, refusal),
    }
}
