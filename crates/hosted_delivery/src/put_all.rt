//! What deploying staged files all at once comes to.
use repo_model::{Numbers, Print};
use texts::Text;

/// What deploying staged files all at once did. Where it is not `Done`, nothing is changed.
#[derive(Drop)]
pub enum PutAll {
    /// The row at this path has another content than the staged file: the first such path in byte order.
    Offends {
        path: Text,
        kept: Print,
        sent: Print,
    },
    /// A staged file's release directory has no pom, neither staged nor visible: the first such directory in byte order.
    MissingPom {
        dir: Text,
    },
    /// The records failed. Their count of faults rose in that call, or stands at 2^64 - 1.
    StoreFault,
    /// There was no memory left.
    NoMemory,
    /// So many files are deployed. The blobs are those that no row took, in byte order of path.
    Done {
        count: u64,
        blobs: Numbers,
    },
}
