use mvn_coords::Side;
use repo_model::{Place, Question};
use texts::{Text, Texts};

/// Of which sort a repository is that is read.
#[derive(Clone, Copy, Debug, PartialEq, Eq)]
pub enum Sort {
    Hosted,
    Proxy,
    /// A group of so many members.
    Group(usize),
}

/// What a request asks for. A path has no escapes, and names something of its kind; a length is that of the body, in
/// bytes, and no longer than may be put there.
#[derive(Drop)]
pub enum Intent {
    /// GET or HEAD of a file, a document or a side file, at a repository of any sort.
    Read {
        repo: Text,
        path: Text,
        sort: Sort,
    },
    /// PUT of a file, in a repository or in an open deployment session.
    PutFile {
        place: Place,
        path: Text,
        length: u64,
    },
    /// PUT of a side file.
    PutSide {
        place: Place,
        path: Text,
        side: Side,
        length: u64,
    },
    /// PUT of a document.
    PutDocument {
        place: Place,
        path: Text,
        length: u64,
    },
    /// GET or HEAD of what the repository finds to a question.
    Ask(Question),
    /// POST of a cleaning: the ids of the hosted repositories, as written.
    Clean(Texts),
    /// POST that opens a deployment session for a hosted repository.
    Open(Text),
    /// POST that deploys all files of the session of a number, from 1 to 2^63 - 1.
    Commit(u64),
    /// POST that gives the session of a number up, from 1 to 2^63 - 1.
    Abort(u64),
}
