//! What may be asked of the repository.
use crate::blobs::Numbers;
use crate::fetched::Got;
use crate::question::Question;
use fetch_plan::{Outcome, Plan};
use ids::Id;
use mvn_digest::Digest;
use outside::{Held, Parcel};
use texts::Text;

/// Where a file is put: the hosted repository of an id, or the open deployment session of a number.
#[derive(Drop)]
pub enum Place {
    Repository(Text),
    Session(u64),
}

/// What a caller may ask of the repository in one turn. `repo` is the id of a hosted repository, `path` a path
/// below it (Maven 2 repository layout).
#[derive(Drop)]
pub enum Command<H: Held> {
    /// What is at a path: a file, with a lease on its blob; the text of a side file; or the document of a directory.
    Look {
        repo: Text,
        path: Text,
        tried: Numbers,
    },
    /// Gives a lease back.
    Done {
        lease: u64,
    },
    /// A draft, the number of a blob to store, for a file at a path.
    MayPut {
        place: Place,
        path: Text,
    },
    /// Makes the blob stored under a draft the file at a path.
    Put {
        repo: Text,
        path: Text,
        draft: u64,
        parcel: Parcel<H>,
    },
    /// Compares the digest that a side file says with that of its file.
    PutSide {
        place: Place,
        path: Text,
        said: Digest,
    },
    /// A document was sent, which is not kept, since what is served is computed.
    PutDoc {
        place: Place,
        path: Text,
    },
    /// Gives a draft up.
    Drop {
        draft: u64,
    },
    /// Opens a deployment session for a repository.
    Open {
        repo: Text,
    },
    /// Makes the blob stored under a draft a file of a session, at a path.
    Stage {
        session: u64,
        path: Text,
        draft: u64,
        parcel: Parcel<H>,
    },
    /// Deploys all files of a session at once, and ends it.
    Commit {
        session: u64,
    },
    /// Gives a session up with all its files, and ends it.
    Abort {
        session: u64,
    },
    /// Unlists the files of a repository that belong to builds which it no longer keeps, at most 1,000,000.
    Unlist {
        repo: Id,
    },
    /// Takes the files away that have been unlisted for longer than the grace period, at most 1,000,000, and asks for garbage
    /// to remove.
    Collect,
    /// A question.
    Ask(Question),
    /// What came of a fetch, of which a proxy keeps what it may.
    Land {
        plan: Plan,
        outcome: Outcome<Got<H>>,
    },
}
