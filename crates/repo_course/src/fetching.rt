//! What follows a fetch, and the store of a file that was fetched.
ghost use Rattle.std.specs.Prelude.{◌≡◌, ◌<◌, ◌+◌, ◌*◌, ◌++◌, ◌∷◌, [], IfOk};
ghost use Rattle.repo_model.specs.Command.{look};
ghost use Rattle.repo_model.specs.Shown.{outcome_map, shown_got};
ghost use Rattle.repo_course.specs.declared.fetched.Verdict.{Verdict as AnyVerdict};
ghost use Rattle.repo_course.specs.declared.mode.ResponseMode.{ResponseMode as AnyMode};
ghost use Rattle.repo_course.specs.Acts.{IsAfterFetch, left_of, left_of_plan, looks_again, looks_next, rank_of, rounds_left, shown_kept};
ghost use Rattle.repo_course.specs.Course.{after_look, after_store, asks, fetched, lands, looks};

use crate::act::{Act, After, Again, Next};
use crate::fetched::{FetchFault, Verdict, fetch_fault, with_fault};
use crate::mode::ResponseMode;
use crate::response::Response;
use crate::steps::{give_any_up, no_memory};
use fetch_plan::{Outcome, Plan};
use outside::{BlobFault, Held, Parcel};
use remote_fetch::Content;
use repo_model::{Command, Got, Numbers};
use std::alloc::{AllocError, Global};
use texts::Text;

/// What is looked at again, where so many fetches may come.
pub(crate) fn again_of(
    alloc: Global,
    repo: &Text,
    path: &Text,
    tried: &[u64],
    rounds: usize,
) -> Result<Option<Again>, AllocError>
    ensures looks { IfOk result (λ again. (mode : AnyMode) (so_far : AnyVerdict) →
        asks (look repo.now path.now tried.now) (after_look mode so_far (left_of_plan mode so_far again)) ≡ looks mode rounds repo.now path.now tried.now so_far) }
    ensures rounds { IfOk result (λ again. rounds_left again ≡ rounds) }
{
    if rounds == 0 {
        return Ok(None);
    }
    let repo = repo.copied(alloc)?;
    let path = path.copied(alloc)?;
    let tried = Numbers::from_vec(Vec::from_slice(alloc, tried)?);
    let again = Again {
        repo,
        path,
        tried,
        more: rounds - 1,
    };
    Ok(Some(again))
}

/// The look after a fetch of a member, by the fault that it adds, if any.
fn next_of(
    alloc: Global,
    again: Again,
    member: u64,
    so_far: Verdict,
    why: Option<FetchFault>,
) -> Result<Next, AllocError>
    ensures left { IfOk result (λ next. (mode : AnyMode) → looks_next mode next ≡ looks_again mode so_far again member why) }
    ensures rounds { IfOk result (λ next. rounds_left next.again ≡ again.more) }
{
    let Again {
        repo,
        path,
        tried,
        more,
    } = again;
    let mut tried = tried.into_vec();
    tried.push(member)?;
    let again = again_of(alloc, &repo, &path, tried.as_slice(), more)?;
    Ok(Next {
        repo,
        path,
        tried: Numbers::from_vec(tried),
        so_far: with_fault(so_far, why),
        again,
    })
}

/// What came of a fetch lands, and then its path is looked at again.
fn land<H: Held>(plan: Plan, outcome: Outcome<Got<H>>, next: Next) -> Act<H>
    ensures left { (mode : AnyMode) → left_of mode result ≡ lands mode plan (looks_next mode next) (outcome_map shown_got outcome) }
    ensures rank { rank_of result ≡ 4 * rounds_left next.again + 6 }
{
    let draft = plan.draft;
    Act::Ask(Command::Land { plan, outcome }, After::Land { draft, next })
}

/// A file is stored before it lands, and all else lands as it is.
fn store_or_land<H: Held>(
    mode: ResponseMode,
    plan: Plan,
    outcome: Outcome<Content>,
    next: Next,
) -> Act<H>
    ensures left { left_of mode result ≡ fetched mode plan (looks_next mode next) outcome }
    ensures shorter { rank_of result < 4 * rounds_left next.again + 8 }
{
    match outcome {
        Outcome::Got(Content::File(checked)) => match plan.draft {
            Some(draft) => Act::Store {
                draft,
                plan,
                checked,
                next,
            },
            None => no_memory(mode),
        },
        Outcome::Got(Content::Doc(document)) => land(plan, Outcome::Got(Got::Doc(document)), next),
        Outcome::Gone => land(plan, Outcome::Gone, next),
        Outcome::Refused(status) => land(plan, Outcome::Refused(status), next),
        Outcome::NoChecksum => land(plan, Outcome::NoChecksum, next),
        Outcome::Differs { said, found } => land(plan, Outcome::Differs { said, found }, next),
        Outcome::TooLarge => land(plan, Outcome::TooLarge, next),
        Outcome::BadAnswer { at } => land(plan, Outcome::BadAnswer { at }, next),
        Outcome::BadDocument { at } => land(plan, Outcome::BadDocument { at }, next),
        Outcome::Fault => land(plan, Outcome::Fault, next),
    }
}

/// What follows a fetch, of which nothing came where memory ran out for it: a file is stored, and all else lands. Where memory is
/// wanted, for the fetch or for the look after it, the draft of the plan is given up.
pub fn after_fetch<H: Held>(
    alloc: Global,
    mode: ResponseMode,
    plan: Plan,
    so_far: Verdict,
    again: Again,
    came: Option<Outcome<Content>>,
) -> Act<H>
    ensures left { IsAfterFetch mode so_far again plan came (left_of mode result) }
    ensures shorter { rank_of result < 4 * again.more + 8 }
{
    let outcome = match came {
        Some(outcome) => outcome,
        None => return give_any_up(mode, plan.draft, Response::NoMemory),
    };
    let why = fetch_fault(&outcome);
    match next_of(alloc, again, plan.member, so_far, why) {
        Ok(next) => store_or_land(mode, plan, outcome, next),
        Err(_) => give_any_up(mode, plan.draft, Response::NoMemory),
    }
}

/// What follows the store of a file that was fetched: it lands, or the draft of its plan is given up.
pub fn after_store<H: Held>(
    mode: ResponseMode,
    plan: Plan,
    next: Next,
    stored: Result<Parcel<H>, BlobFault>,
) -> Act<H>
    ensures left { left_of mode result ≡ after_store mode plan (looks_next mode next) (shown_kept stored) }
    ensures shorter { rank_of result < 4 * rounds_left next.again + 7 }
{
    match stored {
        Ok(parcel) => land(plan, Outcome::Got(Got::File(parcel)), next),
        Err(BlobFault::Failed) => give_any_up(mode, plan.draft, Response::BlobFault),
        Err(BlobFault::NoMemory) => give_any_up(mode, plan.draft, Response::NoMemory),
    }
}
