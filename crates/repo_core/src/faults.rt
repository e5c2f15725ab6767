ghost use Rattle.std.specs.Prelude.{◌≡◌};
ghost use Rattle.repo_core.specs.declared.faults.StartFault.TheVariants.{NoMemory as no_memory};

use blob_audit::Damaged;
use outside::NoMemory;
use repo_restart::RestoreFault;
use row_completion::CompletionFault;
use row_tables::LoadFault;

/// Why a repository did not start.
#[derive(Drop)]
pub enum StartFault {
    /// There was no memory left for the call.
    NoMemory,
    /// The records or the store of blobs failed. The count of faults of one of them rose in that call, or stands at 2^64 - 1.
    Store,
    /// The records are another's.
    NotOurs,
    /// In the frame of this number, counted from 0, the field or item that begins at this place of its payload is cut
    /// short, not of its form, or does not fit.
    Row { frame: u64, at: u64 },
    /// A file's blob is not what was recorded: of all such files the first, in byte order of repository and then of path, a
    /// hosted file before a proxy's.
    Damaged(Damaged),
}

impl From<NoMemory> for StartFault {
    ghost from_gives = { λ _ fault. fault ≡ no_memory };

    fn from(_error: NoMemory) -> StartFault {
        StartFault::NoMemory
    }
}

impl From<LoadFault> for StartFault {
    ghost use Rattle.repo_core.specs.StartFaults.{load_fault};

    ghost from_gives = { λ load fault. fault ≡ load_fault load };

    fn from(fault: LoadFault) -> StartFault {
        match fault {
            LoadFault::Failed => StartFault::Store,
            LoadFault::NoMemory => StartFault::NoMemory,
            LoadFault::NotOurs => StartFault::NotOurs,
            LoadFault::Row { frame, at } => StartFault::Row { frame, at },
        }
    }
}

impl From<CompletionFault> for StartFault {
    ghost use Rattle.repo_core.specs.StartFaults.{completion_fault};

    ghost from_gives = { λ completion fault. fault ≡ completion_fault completion };

    fn from(fault: CompletionFault) -> StartFault {
        match fault {
            CompletionFault::NoMemory => StartFault::NoMemory,
            CompletionFault::Store => StartFault::Store,
            CompletionFault::Damaged(damaged) => StartFault::Damaged(damaged),
        }
    }
}

impl From<RestoreFault> for StartFault {
    ghost use Rattle.repo_core.specs.StartFaults.{restore_fault};

    ghost from_gives = { λ restore fault. fault ≡ restore_fault restore };

    fn from(fault: RestoreFault) -> StartFault {
        match fault {
            RestoreFault::NoMemory => StartFault::NoMemory,
            RestoreFault::Store => StartFault::Store,
            RestoreFault::Damaged(damaged) => StartFault::Damaged(damaged),
        }
    }
}
