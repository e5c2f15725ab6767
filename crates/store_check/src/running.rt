//! The command `check`.
ghost use Rattle.std.specs.Prelude.{◌≡◌};
ghost use Rattle.run_lines.specs.Printing.{output};
ghost use Rattle.run_lines.specs.Reading.{file};
ghost use Rattle.store_check.specs.Checking.{ChecksBy, records_told};

use crate::checking::check_store;
use outside::{Blobs, Sink, Source};
use row_tables::Records;
use run_lines::settings_of;
use std::alloc::Global;

/// Reads the settings, and looks at every recorded file as `check_store` does. Its statuses are those of `check_store`, and
/// 3 and 6 with their lines where the settings are refused or their source fails; then nothing is looked at.
pub fn check<K: Records, B: Blobs, S: Source, O: Sink>(
    alloc: Global,
    settings: &mut S,
    records: &mut K,
    blobs: &mut B,
    out: &mut O,
) -> u8
    ensures checks { ChecksBy (file (S.left settings.old) (S.read_faults settings.old)) (file (S.left settings.new) (S.read_faults settings.new))
        (records_told (K.shows records.old).tables (K.loading records.old) (K.shows records.old).faults (K.shows records.old).unsettled) (K.shows records.new).faults
        (B.shelf blobs.old) (B.faults blobs.old) (B.faults blobs.new)
        (output (O.taken out.old) (O.write_faults out.old)) (output (O.taken out.new) (O.write_faults out.new)) result }
    ensures tables { (K.shows records.new).tables ≡ (K.shows records.old).tables }
    ensures kept { B.shelf blobs.new ≡ B.shelf blobs.old }
{
    match settings_of(alloc, settings, out) {
        Ok(_read) => check_store(alloc, records, blobs, out),
        Err(status) => status,
    }
}
