ghost use Rattle.std.specs.Prelude.{◌≡◌};
ghost use Rattle.row_tables.specs.declared.faults.ApplyFault.TheVariants.{NoMemory as no_memory};
ghost use Rattle.row_tables.specs.declared.faults.CommitFault.TheVariants.{NoMemory as commit_no_memory};
ghost use Rattle.row_tables.specs.declared.faults.LoadFault.TheVariants.{NoMemory as load_no_memory};

use std::alloc::AllocError;

/// Why a change was not applied.
#[derive(Clone, Copy, Debug, PartialEq, Eq)]
pub enum ApplyFault {
    /// There was no memory left for the call.
    NoMemory,
    /// The item at this place, counted from 0, does not fit the tables.
    Misfit { item: u64 },
}

impl From<AllocError> for ApplyFault {
    ghost from_gives = { λ _ fault. fault ≡ no_memory };

    fn from(_error: AllocError) -> ApplyFault {
        ApplyFault::NoMemory
    }
}

/// Why the records could not be loaded.
#[derive(Clone, Copy, Debug, PartialEq, Eq)]
pub enum LoadFault {
    /// The records failed. Their count of faults rose in that call, or stands at 2^64 - 1.
    Failed,
    /// There was no memory left for the call.
    NoMemory,
    /// They are another's.
    NotOurs,
    /// In the frame of this number, counted from 0, the field or item that begins at this place of its payload is cut
    /// short, not of its form, or does not fit.
    Row { frame: u64, at: u64 },
}

impl From<AllocError> for LoadFault {
    ghost from_gives = { λ _ fault. fault ≡ load_no_memory };

    fn from(_error: AllocError) -> LoadFault {
        LoadFault::NoMemory
    }
}

/// Why a change could not be committed.
#[derive(Clone, Copy, Debug, PartialEq, Eq)]
pub enum CommitFault {
    /// The records failed. Their count of faults rose in that call, or stands at 2^64 - 1.
    Failed,
    /// There was no memory left for the call.
    NoMemory,
}

impl From<AllocError> for CommitFault {
    ghost from_gives = { λ _ fault. fault ≡ commit_no_memory };

    fn from(_error: AllocError) -> CommitFault {
        CommitFault::NoMemory
    }
}
