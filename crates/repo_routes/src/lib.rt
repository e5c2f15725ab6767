//! What a request head asks for, or why it is refused (RFC 9110, RFC 9112).
//!
//! [`judge`] takes the settings, the [`Routes`] and a head, and gives the request or the refusal of the first step that
//! refuses: the target, the host, the length of the body, the route, its repository, its methods, a body that no method
//! but PUT has, the session's number, the path and the limit of what is put there. It is what `specs/Judge.antt` says, and touches nothing
//! outside.
#![tactic(auto)]

mod fault;
mod framing;
mod intent;
mod judging;
pub mod laws;
mod numbers;
mod paths;
mod refusal;
mod routes;
mod target;

pub use framing::is_head;
pub use intent::{Intent, Sort};
pub use judging::{Judged, Refused, hosted_ids, judge};
pub use paths::{LONGEST_DOCUMENT, LONGEST_SIDE};
pub use refusal::{Allow, Refusal};
pub use routes::Routes;
