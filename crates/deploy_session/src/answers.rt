//! What the calls of deployment sessions answer.
ghost use Rattle.std.specs.Prelude.{◌≡◌, [], false};
ghost use Rattle.repo_model.specs.Reply.{ended};
ghost use Rattle.deploy_session.specs.Recording.{failed_by};
ghost use Rattle.hosted_delivery.specs.Deliveries.{is_done, shown_put_all};
ghost use Rattle.deploy_session.specs.Shown.{shown_begin, shown_abort, shown_commit, blobs_left, blobs_over};

use hosted_repo::PutAll;
use repo_model::{Numbers, Print, SessionResult};
use row_tables::CommitFault;
use std::alloc::Global;
use texts::Text;

/// What opening a session came to.
#[derive(Clone, Copy, Debug, PartialEq, Eq)]
pub enum Begin {
    /// 64 sessions are open.
    TooMany,
    /// The next number is 2^63.
    Spent,
    /// The records failed. Their count of faults rose in that call, or stands at 2^64 - 1. Nothing is changed.
    StoreFault,
    /// There was no memory left. Nothing is changed.
    NoMemory,
    /// It is open under this number.
    Opened(u64),
}

impl Begin {
    /// Nothing was recorded.
    pub fn failed(fault: CommitFault) -> Begin
        ensures { shown_begin result ≡ failed_by fault }
    {
        match fault {
            CommitFault::Failed => Begin::StoreFault,
            CommitFault::NoMemory => Begin::NoMemory,
        }
    }
}

/// What staging a stored blob at a path came to. Where it is not `Staged`, the blob is in use by nobody.
#[derive(Clone, Copy, Debug, PartialEq, Eq)]
pub enum Stage {
    /// No session is open under the number.
    NoSession,
    /// The session has 1,000 files, and none at the path.
    SessionFull,
    /// The session has a file of another content at the path.
    Taken { kept: Print, sent: Print },
    /// The session has a file of the same content at the path.
    Same,
    /// It is the session's file at the path.
    Staged,
    /// There was no memory left.
    NoMemory,
}

/// What giving a session up came to.
#[derive(Drop)]
pub enum Abort {
    /// No session was opened under the number.
    NoSession,
    /// It has ended: so many files were deployed.
    Done(u64),
    /// The records failed. Their count of faults rose in that call, or stands at 2^64 - 1. Nothing is changed.
    StoreFault,
    /// There was no memory left. Nothing is changed.
    NoMemory,
    /// It is given up, and these blobs are in use by nobody; or it was given up before, and there are none.
    Aborted { blobs: Numbers },
}

impl Abort {
    /// Nothing was recorded.
    pub fn failed(fault: CommitFault) -> Abort
        ensures reply { shown_abort result ≡ failed_by fault }
        ensures blobs { blobs_left result ≡ [] }
    {
        match fault {
            CommitFault::Failed => Abort::StoreFault,
            CommitFault::NoMemory => Abort::NoMemory,
        }
    }

    /// It has ended so.
    pub fn kept(alloc: Global, how: SessionResult) -> Abort
        ensures reply { shown_abort result ≡ ended how }
        ensures blobs { blobs_left result ≡ [] }
    {
        match how {
            SessionResult::Aborted => Abort::Aborted {
                blobs: Numbers::from_vec(Vec::new(alloc)),
            },
            SessionResult::Done(count) => Abort::Done(count),
        }
    }
}

/// What deploying a session's files came to. Where they are not deployed it stays open, and nothing is changed.
#[derive(Drop)]
pub enum Commit {
    /// No session was opened under the number.
    NoSession,
    /// The repository has a file of another content at this path, the first such path in byte order.
    Offends {
        path: Text,
        kept: Print,
        sent: Print,
    },
    /// A staged file's release directory has no pom, neither staged nor visible: the first such directory in byte order.
    MissingPom {
        dir: Text,
    },
    /// The records failed. Their count of faults rose in that call, or stands at 2^64 - 1.
    StoreFault,
    /// There was no memory left.
    NoMemory,
    /// So many files are deployed, and these blobs are in use by nobody; or they were deployed before, and there are none.
    Done {
        count: u64,
        blobs: Numbers,
    },
    /// It was given up before.
    Aborted,
}

impl Commit {
    /// It has ended so.
    pub fn kept(alloc: Global, how: SessionResult) -> Commit
        ensures reply { shown_commit result ≡ ended how }
        ensures blobs { blobs_over result ≡ [] }
    {
        match how {
            SessionResult::Aborted => Commit::Aborted,
            SessionResult::Done(count) => Commit::Done {
                count,
                blobs: Numbers::from_vec(Vec::new(alloc)),
            },
        }
    }

    /// Its files are not deployed.
    pub fn refused(answer: PutAll) -> Commit
        requires { is_done answer ≡ false }
        ensures reply { shown_commit result ≡ shown_put_all answer }
        ensures blobs { blobs_over result ≡ [] }
    {
        match answer {
            PutAll::Offends { path, kept, sent } => Commit::Offends { path, kept, sent },
            PutAll::MissingPom { dir } => Commit::MissingPom { dir },
            PutAll::StoreFault => Commit::StoreFault,
            PutAll::NoMemory => Commit::NoMemory,
            PutAll::Done { .. } => unreachable!(),
        }
    }
}

/// What stands at a path of a session, beside a content.
#[derive(Clone, Copy, Debug)]
pub enum Standing {
    /// No file.
    Free,
    /// A file of another content, of this fingerprint.
    Other(Print),
    /// A file of the same content.
    Same,
}
