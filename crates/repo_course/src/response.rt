use crate::fetched::FetchFault;
use mvn_digest::{Digests, SideText};
use repo_model::{Finding, Print, SessionResult};
use repo_routes::Refusal;
use shared_bytes::SharedBytes;
use texts::Text;

/// What an answer says, whatever its bytes: the outcome of a request, or the cause of its refusal.
#[derive(Drop)]
pub enum Response {
    /// A whole head that is no request head.
    BadHead,
    /// A head that is too long, or has too many field lines.
    HeadTooLong,
    /// The request is refused by its head.
    Refused(Refusal),
    /// The text of a side file.
    Text(SideText),
    /// The document of a directory.
    Doc {
        text: SharedBytes,
        digests: Digests,
    },
    /// There is nothing at the path, or nothing at that of the side file's file.
    NotThere,
    /// The repository does not take files of the path's kind.
    KindRefused,
    /// The body is the file at the path.
    Created,
    /// The path has a file of the same content.
    Same,
    /// The file of the same content is listed again.
    Relisted,
    /// The path has a file of another content.
    Taken {
        kept: Print,
        sent: Print,
    },
    /// The body of a side file says no digest of its side.
    NoDigest,
    /// The side file says the digest of its file, or is that of a document.
    Agreed,
    /// The side file says another digest than its file has; the digests as text.
    Differs {
        said: SideText,
        kept: SideText,
    },
    /// The body is no document; the first fault is at this byte.
    NoDocument {
        at: usize,
    },
    /// The document was heard of.
    Noted,
    /// What is found to a question.
    Found(Finding),
    /// So many files were unlisted, and so many blobs removed.
    Cleaned {
        unlisted: u64,
        removed: u64,
    },
    /// No deployment session is open under the number; none was opened, where a commit or an abort is answered so.
    NoSession,
    /// 64 sessions are open.
    TooMany,
    /// A session is open under this number.
    Opened(u64),
    /// The session has 1,000 files, and none at the path.
    SessionFull,
    /// The body is the session's file at the path.
    Staged,
    /// The first path of a session that has a file of another content.
    Offends {
        path: Text,
        kept: Print,
        sent: Print,
    },
    /// The first directory of a release that would have files of the session, and no pom.
    MissingPom {
        dir: Text,
    },
    /// The session has ended so.
    Ended(SessionResult),
    /// The number that the body was stored under is no draft.
    NoDraft,
    /// The next number to draw is 2^63.
    Spent,
    /// The records failed.
    StoreFault,
    /// The blobs failed.
    BlobFault,
    /// The blob has another content than the one that was recorded of it.
    BlobDiffers {
        recorded: Print,
        found: Print,
    },
    /// There was no memory left.
    NoMemory,
    /// The proxy's patterns do not let the path through.
    Blocked,
    /// The proxy's remote had nothing there a short time ago.
    Negative,
    /// The proxy never asks its remote.
    NeverAsked,
    /// The proxy's remote has nothing there.
    RemoteGone,
    /// Nothing is there, and what was fetched first of what the remotes could not say that of came to this.
    NotFetched(FetchFault),
}
