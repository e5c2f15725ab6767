ghost use Rattle.std.specs.Prelude.{◌≡◌};
ghost use Rattle.repo_restart.specs.declared.faults.RestoreFault.TheVariants.{NoMemory as no_memory};

use blob_audit::Damaged;
use outside::BlobFault;
use std::alloc::AllocError;

/// Why recorded files did not become repositories again.
#[derive(Drop)]
pub enum RestoreFault {
    /// There was no memory left for the call.
    NoMemory,
    /// The store of blobs failed. Its count of faults rose in that call, or stands at 2^64 - 1.
    Store,
    /// A file's blob is not what was recorded: of all such files the first, in byte order of repository and then of path, a
    /// hosted file before a proxy's.
    Damaged(Damaged),
}

impl From<AllocError> for RestoreFault {
    ghost from_gives = { λ _ fault. fault ≡ no_memory };

    fn from(_error: AllocError) -> RestoreFault {
        RestoreFault::NoMemory
    }
}

impl From<BlobFault> for RestoreFault {
    ghost use Rattle.repo_restart.specs.Faults.{restore_fault};

    ghost from_gives = { λ blob fault. fault ≡ restore_fault blob };

    fn from(fault: BlobFault) -> RestoreFault {
        match fault {
            BlobFault::Failed => RestoreFault::Store,
            BlobFault::NoMemory => RestoreFault::NoMemory,
        }
    }
}
