use mvn_coords::PathFault;

/// The methods of a route (RFC 9110, section 10.2.1).
#[derive(Clone, Copy, Debug, PartialEq, Eq)]
pub enum Allow {
    /// GET and HEAD.
    Read,
    /// GET, HEAD and PUT.
    ReadAndPut,
    /// POST.
    Post,
}

/// Why a request is refused: the first step of judging that refuses it.
#[derive(Clone, Copy, Debug, PartialEq, Eq)]
pub enum Refusal {
    /// The target begins neither with `/` nor with `http://`.
    BadTarget,
    /// The head is of HTTP/1.1 and has no Host field, or more than one.
    BadHost,
    /// The body is framed by Transfer-Encoding, or a PUT has no Content-Length.
    NoLength,
    /// A Content-Length is not 1 to 18 digits, or two say different numbers.
    BadLength,
    /// The server has no such path.
    NoRoute,
    /// The settings have no repository of this id, or no hosted one, for which a session could be opened.
    NoRepository,
    /// The path has these methods, and the request another.
    Method(Allow),
    /// A method other than PUT has a body.
    UnexpectedBody,
    /// No session has this number: it is not that of one, from 1 to 2^63 - 1 without a leading zero.
    NoSession,
    /// The files of a session are not read.
    Unread,
    /// What is to be put names nothing that a repository holds.
    BadPath(PathFault),
    /// What is asked for names nothing that a repository holds.
    NoPath(PathFault),
    /// The body is longer than this many bytes, the most that may be put there.
    TooLarge(u64),
}
