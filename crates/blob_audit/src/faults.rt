ghost use Rattle.std.specs.Prelude.{◌≡◌};
ghost use Rattle.blob_audit.specs.declared.faults.AuditFault.TheVariants.{NoMemory as no_memory};

use outside::BlobFault;
use row_tables::LoadFault;
use std::alloc::AllocError;

/// Why not all recorded files could be looked at.
#[derive(Clone, Copy, Debug, PartialEq, Eq)]
pub enum AuditFault {
    /// There was no memory left for the call.
    NoMemory,
    /// The records or the store of blobs failed.
    Store,
    /// The records are another's.
    NotOurs,
    /// In the frame of this number, counted from 0, the field or item that begins at this place of its payload is cut
    /// short, not of its form, or does not fit.
    Row { frame: u64, at: u64 },
}

impl From<AllocError> for AuditFault {
    ghost from_gives = { λ _ fault. fault ≡ no_memory };

    fn from(_error: AllocError) -> AuditFault {
        AuditFault::NoMemory
    }
}

impl From<LoadFault> for AuditFault {
    ghost use Rattle.blob_audit.specs.Faults.{load_fault};

    ghost from_gives = { λ load fault. fault ≡ load_fault load };

    fn from(fault: LoadFault) -> AuditFault {
        match fault {
            LoadFault::Failed => AuditFault::Store,
            LoadFault::NoMemory => AuditFault::NoMemory,
            LoadFault::NotOurs => AuditFault::NotOurs,
            LoadFault::Row { frame, at } => AuditFault::Row { frame, at },
        }
    }
}

impl From<BlobFault> for AuditFault {
    ghost use Rattle.blob_audit.specs.Faults.{blob_fault};

    ghost from_gives = { λ blob fault. fault ≡ blob_fault blob };

    fn from(fault: BlobFault) -> AuditFault {
        match fault {
            BlobFault::Failed => AuditFault::Store,
            BlobFault::NoMemory => AuditFault::NoMemory,
        }
    }
}
