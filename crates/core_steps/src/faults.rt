use outside::{BlobFault, NoMemory};
use std::fmt;

/// Why a step can't be taken.
#[derive(Clone, Copy, Debug, PartialEq, Eq)]
pub enum WorldFault {
    NoMemory,
    Blobs,
    Settings,
    NoCore,
    /// A core runs already.
    Runs,
    /// The words are no step.
    NoStep,
}

impl fmt::Display for WorldFault {
    fn fmt<W: fmt::Write>(&self, f: &mut fmt::Formatter<W>) -> fmt::Result {
        match self {
            WorldFault::NoMemory => write!(f, "no memory"),
            WorldFault::Blobs => write!(f, "the blobs failed"),
            WorldFault::Settings => write!(f, "no settings"),
            WorldFault::NoCore => write!(f, "no core runs"),
            WorldFault::Runs => write!(f, "a core runs"),
            WorldFault::NoStep => write!(f, "no step"),
        }
    }
}

impl From<NoMemory> for WorldFault {
    fn from(_error: NoMemory) -> WorldFault {
        WorldFault::NoMemory
    }
}

impl From<BlobFault> for WorldFault {
    fn from(_fault: BlobFault) -> WorldFault {
        WorldFault::Blobs
    }
}
