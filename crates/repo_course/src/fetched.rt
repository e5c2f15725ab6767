//! What comes of fetches.
ghost use Rattle.std.specs.Prelude.{◌≡◌};
ghost use Rattle.repo_course.specs.Course.{fetch_fault, response_missed, with_fault};

use crate::response::Response;
use fetch_plan::Outcome;
use mvn_digest::Digest;

/// Why a fetch gave nothing, though the remote did not say that nothing is there.
#[derive(Clone, Copy, Debug, PartialEq, Eq)]
pub enum FetchFault {
    /// The remote answered with this status.
    Refused(u16),
    /// The remote has no side file, or the one it has says no digest.
    NoChecksum,
    /// The side file says another digest than the bytes have.
    Differs { said: Digest, found: Digest },
    /// The answer, its body or the document is too long.
    TooLarge,
    /// The answer does not read, at this byte.
    BadAnswer { at: u64 },
    /// The document does not read, at this byte.
    BadDocument { at: u64 },
    /// The exchange failed.
    Fault,
}

/// What the fetches of a request have come to.
#[derive(Clone, Copy, Debug, PartialEq, Eq)]
pub enum Verdict {
    /// None was made, for a group or for a repository that is none.
    Unasked { of_group: bool },
    /// None failed.
    Gone { of_group: bool },
    /// This is the first that failed.
    First(FetchFault),
}

/// Why nothing came of a fetch; none where the remote has nothing there, or gave it.
pub(crate) fn fetch_fault<G>(outcome: &Outcome<G>) -> Option<FetchFault>
    ensures { result ≡ fetch_fault outcome.now }
{
    match outcome {
        Outcome::Got(_) | Outcome::Gone => None,
        Outcome::Refused(status) => Some(FetchFault::Refused(*status)),
        Outcome::NoChecksum => Some(FetchFault::NoChecksum),
        Outcome::Differs { said, found } => Some(FetchFault::Differs {
            said: *said,
            found: *found,
        }),
        Outcome::TooLarge => Some(FetchFault::TooLarge),
        Outcome::BadAnswer { at } => Some(FetchFault::BadAnswer { at: *at }),
        Outcome::BadDocument { at } => Some(FetchFault::BadDocument { at: *at }),
        Outcome::Fault => Some(FetchFault::Fault),
    }
}

/// What the fetches come to with one more: the first fault stays.
pub(crate) fn with_fault(so_far: Verdict, why: Option<FetchFault>) -> Verdict
    ensures { result ≡ with_fault so_far why }
{
    match so_far {
        Verdict::First(first) => Verdict::First(first),
        Verdict::Unasked { of_group } | Verdict::Gone { of_group } => match why {
            Some(why) => Verdict::First(why),
            None => Verdict::Gone { of_group },
        },
    }
}

/// What is said where nothing is there.
pub(crate) fn response_missed(so_far: Verdict) -> Response
    ensures { result ≡ response_missed so_far }
{
    match so_far {
        Verdict::Unasked { .. } | Verdict::Gone { of_group: true } => Response::NotThere,
        Verdict::Gone { of_group: false } => Response::RemoteGone,
        Verdict::First(why) => Response::NotFetched(why),
    }
}
