//! What is recorded, with all digests.
ghost use Rattle.std.specs.Prelude.{◌≡◌, IfErr, IfOk, IfSome, None, OnErr, OnOk};
ghost use Rattle.std.specs.Option.{option_map};
ghost use Rattle.blob_audit.specs.Order.{all_rows};
ghost use Rattle.repo_model.specs.Tables.{Tables as Plain};
ghost use Rattle.blob_audit.specs.Damages.{IsFirstDamaged};
ghost use Rattle.row_completion.specs.Completion.{IsDigestedWhereTold};
ghost use Rattle.row_tables.specs.Recorded.{IsBuiltUp};
ghost use Rattle.repo_core.specs.Start.{AreCompleted, AreLoaded};
ghost use Rattle.repo_core.specs.StartFaults.{HasStartCause, IsUnread, OnDamage, RefusesAs};

use crate::faults::StartFault;
use outside::Blobs;
use row_completion::complete;
use row_tables::{Records, Tables};
use std::alloc::Global;

/// Loads the records, and completes the rows that lack SHA-256 and SHA-512.
pub fn load<K: Records, B: Blobs>(
    alloc: Global,
    records: &mut K,
    blobs: &mut B,
) -> Result<Tables, StartFault>
    ensures tables { IfOk result (AreCompleted (K.shows records.old).tables (K.loading records.old) (B.shelf blobs.old)) }
    ensures built { IfOk result IsBuiltUp }
    ensures told { IfOk result (λ t. (K.shows records.new).tables ≡ option_map (λ _. t) (K.shows records.old).tables) }
    ensures settled { OnOk result ((K.shows records.new).unsettled.pending ≡ None) }
    ensures ready { OnOk result (K.shows records.new).IsReady }
    ensures same { OnOk result ((K.shows records.new).faults ≡ (K.shows records.old).faults) }
    ensures still { OnOk result (B.faults blobs.new ≡ B.faults blobs.old) }
    ensures refused { IfErr result (λ fault. IfSome (K.loading records.old) (λ expected. RefusesAs expected fault)) }
    ensures unread { IfErr result (λ fault. IsUnread fault → (K.shows records.old).tables ≡ None) }
    ensures damaged { IfErr result (λ fault. OnDamage fault (λ damage. (t : Plain) × AreLoaded (K.shows records.old).tables (K.loading records.old) t
        × IsFirstDamaged (B.shelf blobs.old) (all_rows t) damage)) }
    ensures front { OnErr result (IsDigestedWhereTold (B.shelf blobs.old) (K.shows records.old).tables (K.shows records.new).tables) }
    ensures cause { IfErr result (λ fault.
        HasStartCause (K.shows records.old).faults (K.shows records.new).faults (B.faults blobs.old) (B.faults blobs.new) fault) }
    ensures kept { B.shelf blobs.new ≡ B.shelf blobs.old }
{
    let mut tables = records.load(alloc)?;
    complete(alloc, records, blobs, &mut tables)?;
    Ok(tables)
}
