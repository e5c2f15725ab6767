ghost use Rattle.std.specs.Prelude.{◌≡◌};
ghost use Rattle.repo_rows.specs.declared.faults.ReadFault.TheVariants.{NoMemory as no_memory};
ghost use Rattle.repo_rows.specs.declared.faults.RowFault.TheVariants.{NoMemory as row_no_memory};

use std::alloc::{AllocError, AllocFailed};

/// Why a field was not read.
#[derive(Clone, Copy, Debug, PartialEq, Eq)]
pub enum ReadFault {
    /// There was no memory left for it.
    NoMemory,
    /// A field is faulty; so many bytes were left where it begins.
    Refused(usize),
}

impl From<AllocError> for ReadFault {
    ghost from_gives = { λ _ fault. fault ≡ no_memory };

    fn from(_error: AllocError) -> ReadFault {
        ReadFault::NoMemory
    }
}

impl<T: Drop> From<AllocFailed<T>> for ReadFault {
    ghost from_gives = { λ _ fault. fault ≡ no_memory };

    fn from(_error: AllocFailed<T>) -> ReadFault {
        ReadFault::NoMemory
    }
}

/// Why a change was not read.
#[derive(Clone, Copy, Debug, PartialEq, Eq)]
pub enum RowFault {
    /// There was no memory left for the call.
    NoMemory,
    /// The first faulty field begins at this byte, counted from 0: it is not there whole, it is a tag or a version that
    /// nobody knows, or its value is out of its form.
    BadField { at: u64 },
}

impl From<AllocError> for RowFault {
    ghost from_gives = { λ _ fault. fault ≡ row_no_memory };

    fn from(_error: AllocError) -> RowFault {
        RowFault::NoMemory
    }
}
