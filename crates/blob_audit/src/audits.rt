//! A look at all recorded files.
ghost use Rattle.std.specs.Prelude.{◌≡◌, IfOk, IfSome, Ok, OnOk, None, length};
ghost use Rattle.repo_model.specs.Tables.{Tables};
ghost use Rattle.row_tables.specs.Recorded.{IsBuiltUp};
ghost use Rattle.blob_audit.specs.Damages.{AreDamaged};
ghost use Rattle.blob_audit.specs.Faults.{HasAuditCause, IsUnread, RefusesAs};
ghost use Rattle.blob_audit.specs.Order.{all_rows};

use crate::damages::{Audit, damages};
use crate::faults::AuditFault;
use crate::order::all_files;
use outside::Blobs;
use row_tables::Records;
use std::alloc::Global;

/// Loads the records and looks at every recorded file, of hosted repositories and of proxies: each blob is read once and compared
/// with what was recorded of it. It changes neither the records nor the blobs.
///
/// It fails where the records or the store fail, where the records are another's or cannot be read, and when
/// memory runs out.
pub fn audit<K: Records, B: Blobs>(
    alloc: Global,
    records: &mut K,
    blobs: &mut B,
) -> Result<Audit, AuditFault>
    ensures audit { IfOk result (λ found. (t : Tables) × IsBuiltUp t × IfSome (K.shows records.old).tables (λ told. t ≡ told)
        × IfSome (K.loading records.old) (λ told. told ≡ Ok t)
        × (found.looked ≡ length (all_rows t)) × AreDamaged (B.shelf blobs.old) (all_rows t) found.damaged.items) }
    ensures loading { IfSome (K.loading records.old) (λ told. RefusesAs told result) }
    ensures unread { IsUnread result → (K.shows records.old).tables ≡ None }
    ensures cause { HasAuditCause (K.shows records.old).faults (K.shows records.new).faults (B.faults blobs.old) (B.faults blobs.new) result }
    ensures ready { OnOk result (K.shows records.new).IsReady }
    ensures tables { (K.shows records.new).tables ≡ (K.shows records.old).tables }
    ensures kept { B.shelf blobs.new ≡ B.shelf blobs.old }
{
    let tables = records.load(alloc)?;
    let files = all_files(alloc, &tables)?;
    let damaged = damages(alloc, blobs, &files)?;
    Ok(Audit {
        looked: files.len() as u64,
        damaged,
    })
}
