ghost use Rattle.std.specs.Prelude.{◌≡◌};
ghost use Rattle.proxy_rules.specs.Landings.{failed_by};

use row_tables::CommitFault;

/// What came of landing a fetch.
#[derive(Clone, Copy, Debug, PartialEq, Eq)]
pub enum Landed {
    /// The file is kept, and its draft is its row's blob.
    Kept,
    /// No file became one that is kept.
    NotKept,
    /// The records failed, and nothing is changed.
    StoreFault,
    /// Memory was wanting, and nothing is changed.
    NoMemory,
}

impl Landed {
    // What is answered where a commit failed.
    pub(crate) fn failed(fault: CommitFault) -> Landed
        ensures { result ≡ failed_by fault }
    {
        match fault {
            CommitFault::Failed => Landed::StoreFault,
            CommitFault::NoMemory => Landed::NoMemory,
        }
    }
}
