ghost use Rattle.std.specs.Prelude.{◌≡◌};
ghost use Rattle.row_completion.specs.declared.faults.CompletionFault.TheVariants.{NoMemory as no_memory};

use blob_audit::Damaged;
use outside::BlobFault;
use row_tables::CommitFault;
use std::alloc::AllocError;

/// Why recorded files were not completed.
#[derive(Drop)]
pub enum CompletionFault {
    /// There was no memory left for the call.
    NoMemory,
    /// The records or the store of blobs failed. The count of faults of one of them rose in that call, or stands at 2^64 - 1.
    Store,
    /// A file's blob is not what was recorded: of all such files the first, in byte order of repository and then of path, a
    /// hosted file before a proxy's.
    Damaged(Damaged),
}

impl From<AllocError> for CompletionFault {
    ghost from_gives = { λ _ fault. fault ≡ no_memory };

    fn from(_error: AllocError) -> CompletionFault {
        CompletionFault::NoMemory
    }
}

impl From<BlobFault> for CompletionFault {
    ghost use Rattle.row_completion.specs.Faults.{blob_fault};

    ghost from_gives = { λ blob fault. fault ≡ blob_fault blob };

    fn from(fault: BlobFault) -> CompletionFault {
        match fault {
            BlobFault::Failed => CompletionFault::Store,
            BlobFault::NoMemory => CompletionFault::NoMemory,
        }
    }
}
