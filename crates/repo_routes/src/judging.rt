//! A request head judged: the request that it makes, or its refusal.
ghost use Rattle.std.specs.Prelude.{◌≡◌, ℕ, IfOk, map};
ghost use Rattle.repo_model.specs.Settings.{Rule};
ghost use Rattle.repo_routes.specs.Routes.{shown_route};
ghost use Rattle.repo_routes.specs.Intent as asked;
ghost use Rattle.repo_routes.specs.Judge as spec;
ghost use Rattle.repo_routes.specs.Shown.{shown_intent, shown_judged, shown_request};
ghost use Rattle.repo_routes.specs.Steps.{Gives};

use crate::fault::Fault;
use crate::framing::{
    check_host, ends_connection, expects_continue, has_body, is_head, is_put, length_of,
};
use crate::intent::Intent;
use crate::numbers::session_of;
use crate::paths::{put_to, read_from};
use crate::refusal::Refusal;
use crate::routes::{Route, Routes, check_method, check_repository};
use crate::target::target_path;
use http_wire::Request;
use repo_config::{HostedRule, Settings};
use repo_model::Place;
use std::alloc::{AllocError, Global};
use texts::{Text, Texts};

/// A request that is not refused.
#[derive(Drop)]
pub struct Judged {
    pub intent: Intent,
    /// The method is HEAD: the answer has no body (RFC 9110, section 9.3.2).
    pub head_only: bool,
    /// The connection ends after the answer, by the request's `Connection: close` or since it is of HTTP/1.0.
    pub close: bool,
    /// The client waits for `100 Continue` before it sends the body.
    pub expects: bool,
}

/// A request that is refused.
#[derive(Clone, Copy, Debug, PartialEq, Eq)]
pub struct Refused {
    pub refusal: Refusal,
    /// The method is HEAD: the answer has no body.
    pub head_only: bool,
    /// The connection ends after the answer: it is not known where the next request begins, the body stays unread, or
    /// the request itself says so.
    pub close: bool,
}

/// A body comes with a PUT alone.
#[tactic(auto, unfolding(crate::specs::Judge::check_body))]
fn check_body(head: &Request, length: u64) -> Result<(), Refusal>
    ensures { result ≡ spec.check_body head.now length }
{
    if is_put(head) || length == 0 {
        Ok(())
    } else {
        Err(Refusal::UnexpectedBody)
    }
}

/// The ids of some repositories.
fn ids_of(alloc: Global, rules: &[HostedRule]) -> Result<Texts, AllocError>
    ensures { IfOk result (λ repos. repos ≡ map (λ (rule : Rule). rule.id) rules.now) }
{
    let mut repos = Vec::new(alloc);
    for rule in rules {
        repos.push(Text::new(alloc, rule.id())?)?;
    }
    Ok(Texts::from_vec(repos))
}

/// The ids of the hosted repositories, as written. The only error is out of memory.
pub fn hosted_ids(alloc: Global, settings: &Settings) -> Result<Texts, AllocError>
    ensures { IfOk result (λ repos. repos ≡ spec.hosted_ids settings.now) }
{
    ids_of(alloc, settings.hosted())
}

/// What a head asks for at a path of a repository.
#[tactic(auto, unfolding(crate::specs::Judge::in_repo))]
fn in_repo(
    alloc: Global,
    settings: &Settings,
    head: &Request,
    length: u64,
    repo: &str,
    written: &str,
) -> Result<Intent, Fault>
    ensures { Gives shown_intent (spec.in_repo settings.now head.now length repo.now written.now) result }
{
    if !is_put(head) {
        return read_from(alloc, settings, head, repo, written);
    }
    let place = Place::Repository(Text::new(alloc, repo)?);
    put_to(alloc, settings, head, length, place, written)
}

/// What a head puts into a session. Nothing is read there.
#[tactic(auto, unfolding(crate::specs::Judge::into_session))]
fn into_session(
    alloc: Global,
    settings: &Settings,
    head: &Request,
    length: u64,
    number: &str,
    written: &str,
) -> Result<Intent, Fault>
    ensures { Gives shown_intent (spec.into_session settings.now head.now length number.now written.now) result }
{
    let place = Place::Session(session_of(number)?);
    if !is_put(head) {
        return Err(Fault::Refused(Refusal::Unread));
    }
    put_to(alloc, settings, head, length, place, written)
}

/// What a head asks for of its route.
#[tactic(auto, unfolding(crate::specs::Judge::of_session))]
fn intent_on(
    alloc: Global,
    settings: &Settings,
    head: &Request,
    length: u64,
    route: Route<'_>,
) -> Result<Intent, Fault>
    ensures { Gives shown_intent (spec.intent_on settings.now head.now length (shown_route route.entry)) result }
{
    match route {
        Route::InRepository { repo, written } => {
            in_repo(alloc, settings, head, length, repo, written)
        }
        Route::Sessions { repo } => Ok(Intent::Open(Text::new(alloc, repo)?)),
        Route::InSession { number, written } => {
            into_session(alloc, settings, head, length, number, written)
        }
        Route::Commit { number } => Ok(Intent::Commit(session_of(number)?)),
        Route::Abort { number } => Ok(Intent::Abort(session_of(number)?)),
        Route::Clean => Ok(Intent::Clean(hosted_ids(alloc, settings)?)),
        Route::Question(question) => Ok(Intent::Ask(question)),
    }
}

/// What a head asks for, or the refusal of the first step that refuses.
#[tactic(auto, unfolding(crate::specs::Judge::intent_of))]
fn intent_of(
    alloc: Global,
    settings: &Settings,
    routes: &Routes,
    head: &Request,
) -> Result<Intent, Fault>
    ensures { Gives shown_intent (spec.intent_of settings.now head.now) result }
{
    let path = target_path(head.target())?;
    check_host(head)?;
    let length = length_of(head)?;
    let route = routes.route_of(path)?;
    check_repository(settings, route)?;
    check_method(settings, route, head)?;
    check_body(head, length)?;
    intent_on(alloc, settings, head, length, route)
}

fn request_of(head: &Request, intent: Intent) -> Judged
    ensures { shown_request result ≡ spec.request_of head.now (shown_intent intent) }
{
    Judged {
        intent,
        head_only: is_head(head),
        close: ends_connection(head),
        expects: expects_continue(head),
    }
}

/// Whether it is not known after such a refusal where the next request begins.
fn loses_place(refusal: Refusal) -> bool
    ensures { result ≡ spec.loses_place refusal }
{
    matches!(
        refusal,
        Refusal::BadTarget | Refusal::BadHost | Refusal::NoLength | Refusal::BadLength
    )
}

fn refusal_of(request: &Request, refusal: Refusal) -> Refused
    ensures { result ≡ spec.refusal_of request.now refusal }
{
    Refused {
        refusal,
        head_only: is_head(request),
        close: loses_place(refusal) || ends_connection(request) || has_body(request),
    }
}

/// The request that a head makes, or its refusal, which is that of the first step that refuses. The only error is
/// out of memory.
///
/// The steps are: the target (RFC 9112, section 3.2), the host, the length of the body (section 6.3), the route, its
/// repository, the method, a body that does not belong to the method, the number of a session, the path after its escapes,
/// and the limit of what is put there.
#[tactic(auto, unfolding(crate::specs::Judge::judge))]
pub fn judge(
    alloc: Global,
    settings: &Settings,
    routes: &Routes,
    head: &Request,
) -> Result<Result<Judged, Refused>, AllocError>
    ensures judged { IfOk result (λ r. shown_judged r ≡ spec.judge settings.now head.now) }
    ensures kept { IfOk result (λ r. IfOk (shown_judged r) (spec.IsJudged settings.now)) }
{
    match intent_of(alloc, settings, routes, head) {
        Ok(intent) => Ok(Ok(request_of(head, intent))),
        Err(Fault::Refused(refusal)) => Ok(Err(refusal_of(head, refusal))),
        Err(Fault::NoMemory) => Err(AllocError),
    }
}
