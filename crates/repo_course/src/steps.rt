//! A course's next act, by what the last one gave.
ghost use Rattle.std.specs.Prelude.{◌≡◌, ◌<◌, ◌+◌, ◌*◌};
ghost use Rattle.mvn_digest.specs.Hex.{hex_text};
ghost use Rattle.mvn_digest.specs.Sides.{bytes_in};
ghost use Rattle.repo_model.specs.Command.{done, drop_draft};
ghost use Rattle.repo_model.specs.Shown.{shown_place, shown_reply};
ghost use Rattle.repo_course.specs.declared.mode.ResponseMode.{ResponseMode as AnyMode};
ghost use Rattle.repo_course.specs.Acts.{after_reply, left_of, left_of_body, left_of_plan, left_uninvited, looks_next, rank_after, rank_of, rounds_left};
ghost use Rattle.repo_course.specs.Course.{after_land, after_look, after_may_put, after_put, answers, asks, closes, gives_any_up, invites, leaves_draft, of_pass, of_sent, response_of, says, tells, without_memory};

use crate::act::{Act, After, Again, Coming, FileBody, Next};
use crate::fetched::{Verdict, response_missed};
use crate::mode::ResponseMode;
use crate::outcomes::{CleanFault, Cleaned, End, Sent, Took};
use crate::response::Response;
use fetch_plan::Plan;
use mvn_coords::Side;
use mvn_digest::{
    Digest, Digests, MD5_BYTES, SHA1_BYTES, SHA256_BYTES, SHA512_BYTES, SideText, side_text,
};
use outside::{Held, Parcel};
use repo_model::{Command, Place, Reply};
use texts::Text;

/// An answer in a mode.
pub(crate) fn say<H: Held>(said: Response, mode: ResponseMode) -> Act<H>
    ensures left { (any : AnyMode) → left_of any result ≡ says said mode }
    ensures rank { rank_of result ≡ 0 }
{
    Act::Say { said, mode }
}

/// The answer where memory ran out.
pub(crate) fn no_memory<H: Held>(mode: ResponseMode) -> Act<H>
    ensures left { (any : AnyMode) → left_of any result ≡ without_memory mode }
    ensures rank { rank_of result ≡ 0 }
{
    Act::Say {
        said: Response::NoMemory,
        mode: ResponseMode::at_end(mode.head_only),
    }
}

/// An answer; where memory ran out it ends the connection.
pub(crate) fn answer<H: Held>(said: Response, mode: ResponseMode) -> Act<H>
    ensures left { (any : AnyMode) → left_of any result ≡ answers mode said }
    ensures rank { rank_of result ≡ 0 }
{
    match said {
        Response::NoMemory => no_memory(mode),
        said => say(said, mode),
    }
}

/// A body that is read, and before it `100 Continue` where the client waits for it.
pub(crate) fn invite<H: Held>(expects: bool, coming: Coming) -> Act<H>
    ensures left { (any : AnyMode) → left_of any result ≡ invites expects (left_uninvited coming) (left_of_body any coming) }
    ensures rank { rank_of result < 7 }
{
    if expects {
        return Act::Continue(coming);
    }
    match coming {
        Coming::File(body) => Act::Take(body),
        Coming::Small(body) => Act::Read(body),
    }
}

/// A draft is given up, and then this follows.
pub(crate) fn give_up<H: Held>(draft: u64, then: After) -> Act<H>
    ensures left { (any : AnyMode) → left_of any result ≡ asks (drop_draft draft) (after_reply any then) }
    ensures rank { rank_of result ≡ rank_after then + 1 }
{
    Act::Ask(Command::Drop { draft }, then)
}

/// A draft is given up, where there is one, and then this is answered.
pub(crate) fn give_any_up<H: Held>(mode: ResponseMode, draft: Option<u64>, said: Response) -> Act<H>
    ensures left { left_of mode result ≡ gives_any_up draft (answers mode said) }
    ensures rank { rank_of result < 3 }
{
    match draft {
        Some(draft) => give_up(draft, After::Say(said)),
        None => answer(said, mode),
    }
}

/// A digest as text.
pub(crate) fn digest_text(digest: Digest) -> SideText
    ensures { result ≡ hex_text (bytes_in digest) }
{
    let none = Digests {
        sha1: [0; SHA1_BYTES],
        md5: [0; MD5_BYTES],
        sha256: [0; SHA256_BYTES],
        sha512: [0; SHA512_BYTES],
    };
    match digest {
        Digest::Sha1(sha1) => side_text(&Digests { sha1, ..none }, Side::Sha1),
        Digest::Md5(md5) => side_text(&Digests { md5, ..none }, Side::Md5),
        Digest::Sha256(sha256) => side_text(&Digests { sha256, ..none }, Side::Sha256),
        Digest::Sha512(sha512) => side_text(&Digests { sha512, ..none }, Side::Sha512),
    }
}

/// What is answered to a reply.
fn response_of<H: Held>(reply: Reply<H>) -> Response
    ensures { result ≡ response_of (shown_reply reply) }
{
    match reply {
        Reply::Text(text) => Response::Text(text),
        Reply::Doc { text, digests } => Response::Doc { text, digests },
        Reply::Missed => Response::NotThere,
        Reply::KindRefused => Response::KindRefused,
        Reply::NoDraft => Response::NoDraft,
        Reply::Taken { kept, sent } => Response::Taken { kept, sent },
        Reply::Same => Response::Same,
        Reply::Relisted => Response::Relisted,
        Reply::Created => Response::Created,
        Reply::NotThere => Response::NotThere,
        Reply::Differs { said, kept } => Response::Differs {
            said: digest_text(said),
            kept: digest_text(kept),
        },
        Reply::Agreed => Response::Agreed,
        Reply::Noted => Response::Noted,
        Reply::NoSession => Response::NoSession,
        Reply::TooMany => Response::TooMany,
        Reply::Opened(number) => Response::Opened(number),
        Reply::SessionFull => Response::SessionFull,
        Reply::Staged => Response::Staged,
        Reply::Offends { path, kept, sent } => Response::Offends { path, kept, sent },
        Reply::MissingPom { dir } => Response::MissingPom { dir },
        Reply::Ended(how) => Response::Ended(how),
        Reply::Found(finding) => Response::Found(finding),
        Reply::Spent => Response::Spent,
        Reply::StoreFault => Response::StoreFault,
        Reply::File { .. }
        | Reply::Done
        | Reply::Draft(_)
        | Reply::Dropped
        | Reply::Unlisted(_)
        | Reply::Collected { .. }
        | Reply::NoMemory => Response::NoMemory,
        Reply::Blocked => Response::Blocked,
        Reply::Negative => Response::Negative,
        Reply::Never => Response::NeverAsked,
        Reply::Fetch(_) | Reply::Landed => Response::NoMemory,
    }
}

/// Whether the draft of a stored blob is to be given up after a reply.
fn leaves_draft<H: Held>(reply: &Reply<H>) -> bool
    ensures { result ≡ leaves_draft (shown_reply reply.now) }
{
    match reply {
        Reply::Created
        | Reply::Same
        | Reply::Relisted
        | Reply::Taken { .. }
        | Reply::Staged
        | Reply::SessionFull
        | Reply::NoSession => false,
        Reply::File { .. }
        | Reply::Text(_)
        | Reply::Doc { .. }
        | Reply::Missed
        | Reply::Done
        | Reply::KindRefused
        | Reply::Draft(_)
        | Reply::NoDraft
        | Reply::NotThere
        | Reply::Differs { .. }
        | Reply::Agreed
        | Reply::Noted
        | Reply::TooMany
        | Reply::Opened(_)
        | Reply::Offends { .. }
        | Reply::MissingPom { .. }
        | Reply::Ended(_)
        | Reply::Dropped
        | Reply::Unlisted(_)
        | Reply::Collected { .. }
        | Reply::Found(_)
        | Reply::Spent
        | Reply::NoMemory
        | Reply::StoreFault => true,
        Reply::Fetch(_) | Reply::Blocked | Reply::Negative | Reply::Never | Reply::Landed => true,
    }
}

/// A reply is told.
fn tell<H: Held>(mode: ResponseMode, reply: Reply<H>) -> Act<H>
    ensures left { (any : AnyMode) → left_of any result ≡ tells mode (shown_reply reply) }
    ensures rank { rank_of result ≡ 0 }
{
    answer(response_of(reply), mode)
}

/// What follows a plan: it is fetched, where a fetch may come.
fn after_plan<H: Held>(
    mode: ResponseMode,
    so_far: Verdict,
    again: Option<Again>,
    plan: Plan,
) -> Act<H>
    ensures left { left_of mode result ≡ left_of_plan mode so_far again plan }
    ensures shorter { rank_of result < 4 * rounds_left again + 5 }
{
    match again {
        Some(again) => Act::Fetch {
            plan,
            so_far,
            again,
        },
        None => give_any_up(mode, plan.draft, Response::NoMemory),
    }
}

fn after_look<H: Held>(
    mode: ResponseMode,
    so_far: Verdict,
    again: Option<Again>,
    reply: Reply<H>,
) -> Act<H>
    ensures left { left_of mode result ≡ after_look mode so_far (left_of_plan mode so_far again) (shown_reply reply) }
    ensures shorter { rank_of result < 4 * rounds_left again + 5 }
{
    match reply {
        Reply::File { lease, parcel } => Act::Send { lease, parcel },
        Reply::Missed => answer(response_missed(so_far), mode),
        Reply::Fetch(plan) => after_plan(mode, so_far, again, plan),
        reply => tell(mode, reply),
    }
}

/// The next look.
fn look_again<H: Held>(next: Next) -> Act<H>
    ensures left { (mode : AnyMode) → left_of mode result ≡ looks_next mode next }
    ensures rank { rank_of result ≡ 4 * rounds_left next.again + 5 }
{
    let Next {
        repo,
        path,
        tried,
        so_far,
        again,
    } = next;
    Act::Ask(
        Command::Look { repo, path, tried },
        After::Look { so_far, again },
    )
}

fn after_land<H: Held>(
    mode: ResponseMode,
    draft: Option<u64>,
    next: Next,
    reply: Reply<H>,
) -> Act<H>
    ensures left { left_of mode result ≡ after_land mode draft (looks_next mode next) (shown_reply reply) }
    ensures shorter { rank_of result < 4 * rounds_left next.again + 6 }
{
    match reply {
        Reply::Landed => look_again(next),
        reply => give_any_up(mode, draft, response_of(reply)),
    }
}

fn after_done<H: Held>(mode: ResponseMode, sent: Sent) -> Act<H>
    ensures left { left_of mode result ≡ closes mode (of_sent mode sent) }
    ensures rank { rank_of result ≡ 0 }
{
    match sent {
        Sent::Whole => Act::Stop(mode.end()),
        Sent::BlobFault => say(Response::BlobFault, mode),
        Sent::BlobDiffers { recorded, found } => {
            say(Response::BlobDiffers { recorded, found }, mode)
        }
        Sent::CutFault | Sent::CutDiffers { .. } => Act::Stop(Some(End::Closed)),
        Sent::SinkFault => Act::Stop(Some(End::SinkFault)),
        Sent::NoMemory => no_memory(mode),
    }
}

fn after_may_put<H: Held>(
    mode: ResponseMode,
    place: Place,
    path: Text,
    length: u64,
    expects: bool,
    reply: Reply<H>,
) -> Act<H>
    ensures left { left_of mode result ≡ after_may_put (shown_place place) path length expects mode (shown_reply reply) }
    ensures shorter { rank_of result < 7 }
{
    match reply {
        Reply::Draft(draft) => {
            let body = FileBody {
                place,
                path,
                draft,
                length,
            };
            invite(expects, Coming::File(body))
        }
        reply => tell(mode.with_unread(length), reply),
    }
}

fn after_put<H: Held>(mode: ResponseMode, draft: u64, reply: Reply<H>) -> Act<H>
    ensures left { left_of mode result ≡ after_put draft mode (shown_reply reply) }
    ensures shorter { rank_of result < 3 }
{
    if leaves_draft(&reply) {
        return give_up(draft, After::Say(response_of(reply)));
    }
    tell(mode, reply)
}

/// What follows the reply that a course waited for.
pub fn after_reply<H: Held>(mode: ResponseMode, after: After, reply: Reply<H>) -> Act<H>
    ensures left { left_of mode result ≡ after_reply mode after (shown_reply reply) }
    ensures shorter { rank_of result < rank_after after + 1 }
{
    match after {
        After::Look { so_far, again } => after_look(mode, so_far, again, reply),
        After::Done(sent) => after_done(mode, sent),
        After::MayPut {
            place,
            path,
            length,
            expects,
        } => after_may_put(mode, place, path, length, expects, reply),
        After::Put { draft } => after_put(mode, draft, reply),
        After::Tell => tell(mode, reply),
        After::Say(said) => answer(said, mode),
        After::SayUnread { said, length } => answer(said, mode.with_unread(length)),
        After::Stop(end) => Act::Stop(Some(end)),
        After::Land { draft, next } => after_land(mode, draft, next, reply),
    }
}

/// What follows the sending of a file: its lease is given back, whatever came of it.
pub fn after_send<H: Held>(mode: ResponseMode, lease: u64, sent: Sent) -> Act<H>
    ensures left { left_of mode result ≡ asks (done lease) (λ reply. closes mode (of_sent mode sent)) }
    ensures shorter { rank_of result < 3 }
{
    Act::Ask(Command::Done { lease }, After::Done(sent))
}

/// What follows a pass over the repositories: the answer that says what it has done, or why it ended.
pub fn after_clean<H: Held>(mode: ResponseMode, pass: Result<Cleaned, CleanFault>) -> Act<H>
    ensures left { left_of mode result ≡ closes mode (of_pass pass) }
    ensures shorter { rank_of result < 1 }
{
    match pass {
        Ok(Cleaned { unlisted, removed }) => say(Response::Cleaned { unlisted, removed }, mode),
        Err(CleanFault::StoreFault) => say(Response::StoreFault, mode),
        Err(CleanFault::BlobFault) => say(Response::BlobFault, mode),
        Err(CleanFault::NoMemory) => no_memory(mode),
    }
}
