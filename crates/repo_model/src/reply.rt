//! What the repository replies.
use crate::blobs::Numbers;
use crate::print::Print;
use crate::question::Finding;
use crate::session::SessionResult;
use fetch_plan::Plan;
use mvn_digest::{Digest, Digests, SideText};
use outside::{Held, Parcel};
use shared_bytes::SharedBytes;
use texts::Text;

/// What the repository answers.
#[derive(Drop)]
pub enum Reply<H: Held> {
    /// The file, its blob borrowed under the lease.
    File {
        lease: u64,
        parcel: Parcel<H>,
    },
    /// The text of the side file.
    Text(SideText),
    /// A share of the document of the directory as it is written, and its digests.
    Doc {
        text: SharedBytes,
        digests: Digests,
    },
    /// There is nothing at the path.
    Missed,
    /// The lease is given back, or there was none of that number.
    Done,
    /// The repository does not take files of the path's kind.
    KindRefused,
    /// The number of a blob to store.
    Draft(u64),
    /// The number is no draft.
    NoDraft,
    /// The path has a file of another content. The draft is given up.
    Taken {
        kept: Print,
        sent: Print,
    },
    /// The path has a file of the same content. The draft is given up.
    Same,
    /// The file of the same content is listed again. The draft is given up.
    Relisted,
    /// The blob is the file at the path.
    Created,
    /// The side file's file is not there.
    NotThere,
    /// The side file says another digest than that of its file.
    Differs {
        said: Digest,
        kept: Digest,
    },
    /// The side file says the digest of its file, or is that of a document.
    Agreed,
    /// The document was heard of.
    Noted,
    /// No deployment session is open under the number.
    NoSession,
    /// 64 deployment sessions are open.
    TooMany,
    /// A deployment session is open under this number.
    Opened(u64),
    /// The session has 1,000 files, and none at the path. A draft that was named is given up.
    SessionFull,
    /// The blob is the session's file at the path.
    Staged,
    /// The first path of a session that has a file of another content. Nothing is deployed, and the session stays open.
    Offends {
        path: Text,
        kept: Print,
        sent: Print,
    },
    /// The first directory of a release that would have files of the session, and no pom. Nothing is deployed, and the
    /// session stays open.
    MissingPom {
        dir: Text,
    },
    /// The session has ended so, now or before.
    Ended(SessionResult),
    /// The draft is given up, or there was none of that number.
    Dropped,
    /// So many files are unlisted.
    Unlisted(u64),
    /// So many files are gone; and the first garbage that nobody has borrowed, at most 100 blobs, of which the repository
    /// knows nothing any more.
    Collected {
        expired: u64,
        blobs: Numbers,
    },
    /// What is told to a question.
    Found(Finding),
    /// The next number to draw is 2^63.
    Spent,
    /// There was no memory left for the turn.
    NoMemory,
    /// The records failed: nothing is recorded, and nothing is changed.
    StoreFault,
    /// This is to be fetched, and then landed.
    Fetch(Plan),
    /// The proxy's patterns do not let the path through.
    Blocked,
    /// The proxy's remote had nothing there a short time ago.
    Negative,
    /// The proxy never asks its remote.
    Never,
    /// What came of a fetch has landed.
    Landed,
}
