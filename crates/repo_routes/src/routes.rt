//! The routes of the server.
ghost use Rattle.std.specs.Prelude.{◌≡◌, OnOk, List, ℕ, [], bytes_eq};
ghost use Rattle.std.specs.List.{list_any};
ghost use Rattle.std.specs.Option.{option_map};
ghost use Rattle.matchit.specs.Seek.{first};
ghost use Rattle.repo_model.specs.Command.{group_rule_of, is_known, is_there, proxy_rule_of};
ghost use Rattle.repo_routes.specs.Routes as spec;
ghost use Rattle.repo_routes.specs.Steps.{result_shown};

use crate::framing::{is_post, is_put, is_read};
use crate::intent::Sort;
use crate::refusal::{Allow, Refusal};
use byte_cuts::text::{behind, is};
use http_wire::Request;
use matchit::{InsertError, Router};
use repo_config::{GroupRule, HostedRule, ProxyRule, Settings};
use repo_model::Question;
use std::alloc::{AllocError, Global};
use std::marker::Model;

/// The pattern of a route.
#[derive(Clone, Copy)]
pub(crate) enum Pattern {
    /// `/repository/{id}/{*path}`
    Repository,
    /// `/api/repositories/{id}/sessions`
    Sessions,
    /// `/api/sessions/{n}/files/{*path}`
    SessionFile,
    /// `/api/sessions/{n}/commit`
    Commit,
    /// `/api/sessions/{n}/abort`
    Abort,
    /// `/api/clean`
    Clean,
    /// `/api/{name}`, the name being that of a question
    Question(Question),
}

/// The route of a path, with its parts as written: the id of a repository or the number of a session, and what stands
/// after it.
#[derive(Clone, Copy)]
pub(crate) enum Route<'a> {
    InRepository { repo: &'a str, written: &'a str },
    Sessions { repo: &'a str },
    InSession { number: &'a str, written: &'a str },
    Commit { number: &'a str },
    Abort { number: &'a str },
    Clean,
    Question(Question),
}

/// The routes of the server, found by their patterns, but for the questions, which are found by their names: each value of the type finds the routes of `specs/Routes.antt`, and
/// no others. They are made once, and finding a route takes no memory.
#[derive(Drop)]
pub struct Routes {
    router: Router<Pattern>,
}

impl Model for Routes {
    ghost use Rattle.std.specs.Prelude.{◌≡◌, ℕ, List};
    ghost use Rattle.std.specs.Option.{option_map};
    ghost use Rattle.matchit.specs.Seek.{first};
    ghost use Rattle.repo_routes.specs.Routes.{named_route, pattern_of};

    ghost Value = { Unit {0} };

    ghost view = { λ _. tt };

    ghost invariant = { λ r. (path : List ℕ) → option_map (λ e. e.value) (first r.router path) ≡ option_map pattern_of (named_route path) };
}

impl Routes {
    /// The routes. The only error is out of memory.
    pub fn new(alloc: Global) -> Result<Routes, AllocError> {
        let mut router = Router::new(alloc);
        match add_routes(&mut router) {
            Ok(()) => Ok(Routes { router }),
            Err(_) => Err(AllocError),
        }
    }

    /// The pattern that a path is of.
    #[tactic(auto, unfolding(crate::specs::Routes::route_at))]
    fn pattern(&self, path: &str) -> Option<Pattern>
        ensures { result ≡ option_map spec.pattern_of (spec.route_at path.now) }
    {
        if let Some(question) = question_at(path) {
            return Some(Pattern::Question(question));
        }
        match self.router.at(path) {
            Ok(found) => Some(*found.value),
            Err(_) => None,
        }
    }

    /// The route of a path.
    pub(crate) fn route_of<'a>(&self, path: &'a str) -> Result<Route<'a>, Refusal>
        ensures { result_shown spec.shown_route result ≡ spec.route_of path.now }
    {
        let Some(pattern) = self.pattern(path) else {
            return Err(Refusal::NoRoute);
        };
        match route_by(pattern, path) {
            Some(route) => Ok(route),
            None => Err(Refusal::NoRoute),
        }
    }
}

/// The question that a path names.
fn question_at(path: &str) -> Option<Question>
    ensures { result ≡ spec.question_at path.now }
{
    Question::named(behind("/api/", path)?)
}

/// The route of a path that is of a pattern.
fn route_by(pattern: Pattern, path: &str) -> Option<Route<'_>>
    ensures { option_map spec.shown_route result ≡ spec.route_by pattern path.now }
{
    match pattern {
        Pattern::Repository => repository_route(behind("/repository/", path)?),
        Pattern::Sessions => sessions_route(behind("/api/repositories/", path)?),
        Pattern::SessionFile | Pattern::Commit | Pattern::Abort => {
            session_route(behind("/api/sessions/", path)?)
        }
        Pattern::Clean => Some(Route::Clean),
        Pattern::Question(question) => Some(Route::Question(question)),
    }
}

/// The id of a repository and what stands after it. Neither is empty.
#[tactic(auto, unfolding(crate::specs::Routes::repository_route))]
fn repository_route(text: &str) -> Option<Route<'_>>
    ensures { option_map spec.shown_route result ≡ spec.repository_route text.now }
{
    let (repo, written) = text.split_once('/')?;
    if repo.is_empty() || written.is_empty() {
        return None;
    }
    Some(Route::InRepository { repo, written })
}

/// The id of a repository, after which stands `sessions` alone.
#[tactic(auto, unfolding(crate::specs::Routes::sessions_route))]
fn sessions_route(text: &str) -> Option<Route<'_>>
    ensures { option_map spec.shown_route result ≡ spec.sessions_route text.now }
{
    let (repo, rest) = text.split_once('/')?;
    if repo.is_empty() || !is(rest, "sessions") {
        return None;
    }
    Some(Route::Sessions { repo })
}

/// The number of a session, and what is asked of it.
#[tactic(auto, unfolding(crate::specs::Routes::session_route, crate::specs::Routes::number_route))]
fn session_route(text: &str) -> Option<Route<'_>>
    ensures { option_map spec.shown_route result ≡ spec.session_route text.now }
{
    let (number, rest) = text.split_once('/')?;
    if number.is_empty() {
        return None;
    }
    number_route(number, rest)
}

/// What is asked of the session of a number.
#[tactic(auto, unfolding(crate::specs::Routes::number_route))]
fn number_route<'a>(number: &'a str, rest: &'a str) -> Option<Route<'a>>
    ensures { option_map spec.shown_route result ≡ spec.number_route number.now rest.now }
{
    if is(rest, "abort") {
        return Some(Route::Abort { number });
    }
    if is(rest, "commit") {
        return Some(Route::Commit { number });
    }
    let written = behind("files/", rest)?;
    if written.is_empty() {
        return None;
    }
    Some(Route::InSession { number, written })
}

/// Whether one of these repositories has the id.
fn is_listed(rules: &[HostedRule], repo: &str) -> bool
    ensures { result ≡ list_any (λ rule. bytes_eq rule.id repo.now) rules.now }
{
    rules.iter().any(|rule| is(rule.id(), repo))
}

/// Whether the settings have a hosted repository of this id.
fn is_there(settings: &Settings, repo: &str) -> bool
    ensures { result ≡ is_there repo.now settings.now }
{
    is_listed(settings.hosted(), repo)
}

/// The proxy of this id.
fn proxy_of<'a>(settings: &'a Settings, repo: &str) -> Option<&'a ProxyRule>
    ensures { option_map (λ rule. rule.now) result ≡ proxy_rule_of repo.now settings.now }
{
    settings.proxies().iter().find(|rule| rule.id() == repo)
}

/// The group of this id.
fn group_of<'a>(settings: &'a Settings, repo: &str) -> Option<&'a GroupRule>
    ensures { option_map (λ rule. rule.now) result ≡ group_rule_of repo.now settings.now }
{
    settings.groups().iter().find(|rule| rule.id() == repo)
}

/// Whether the settings have a repository of any sort of this id.
fn is_known(settings: &Settings, repo: &str) -> bool
    ensures { result ≡ is_known repo.now settings.now }
{
    is_there(settings, repo)
        || proxy_of(settings, repo).is_some()
        || group_of(settings, repo).is_some()
}

/// Of which sort the repository of this id is, where there is one.
#[tactic(auto, unfolding(crate::specs::Routes::sort_of))]
pub(crate) fn sort_of(settings: &Settings, repo: &str) -> Sort
    ensures { result ≡ spec.sort_of repo.now settings.now }
{
    if is_there(settings, repo) {
        return Sort::Hosted;
    }
    match group_of(settings, repo) {
        Some(group) => Sort::Group(group.members().len()),
        None => Sort::Proxy,
    }
}

/// The repository that a route names has to be there, and has to be hosted where a session is opened for it.
#[tactic(auto, unfolding(crate::specs::Routes::check_repository))]
pub(crate) fn check_repository(settings: &Settings, route: Route<'_>) -> Result<(), Refusal>
    ensures { result ≡ spec.check_repository settings.now (spec.shown_route route.entry) }
{
    match route {
        Route::InRepository { repo, .. } if !is_known(settings, repo) => Err(Refusal::NoRepository),
        Route::Sessions { repo } if !is_there(settings, repo) => Err(Refusal::NoRepository),
        _ => Ok(()),
    }
}

/// The methods of a route. Nothing is put to a proxy or a group.
fn allowed(settings: &Settings, route: Route<'_>) -> Allow
    ensures { result ≡ spec.allowed settings.now (spec.shown_route route.entry) }
{
    match route {
        Route::InRepository { repo, .. } if !is_there(settings, repo) => Allow::Read,
        Route::InRepository { .. } | Route::InSession { .. } => Allow::ReadAndPut,
        Route::Sessions { .. } | Route::Commit { .. } | Route::Abort { .. } | Route::Clean => {
            Allow::Post
        }
        Route::Question(_) => Allow::Read,
    }
}

fn allows(allow: Allow, head: &Request) -> bool
    ensures { result ≡ spec.allows allow head.now }
{
    match allow {
        Allow::Read => is_read(head),
        Allow::ReadAndPut => is_read(head) || is_put(head),
        Allow::Post => is_post(head),
    }
}

/// The request's method has to be one of the route's.
#[tactic(auto, unfolding(crate::specs::Routes::check_method))]
pub(crate) fn check_method(
    settings: &Settings,
    route: Route<'_>,
    head: &Request,
) -> Result<(), Refusal>
    ensures { result ≡ spec.check_method settings.now (spec.shown_route route.entry) head.now }
{
    let allow = allowed(settings, route);
    if allows(allow, head) {
        Ok(())
    } else {
        Err(Refusal::Method(allow))
    }
}

/// The router with the pattern of each route but a question's.
fn add_routes(router: &mut Router<Pattern>) -> Result<(), InsertError>
    requires { router.old ≡ [] }
    ensures { OnOk result ((path : List ℕ) → option_map (λ e. e.value) (first router.new path) ≡ option_map spec.pattern_of (spec.named_route path)) }
{
    router.insert("/repository/{id}/{*path}", Pattern::Repository)?;
    router.insert("/api/repositories/{id}/sessions", Pattern::Sessions)?;
    router.insert("/api/sessions/{n}/files/{*path}", Pattern::SessionFile)?;
    router.insert("/api/sessions/{n}/commit", Pattern::Commit)?;
    router.insert("/api/sessions/{n}/abort", Pattern::Abort)?;
    router.insert("/api/clean", Pattern::Clean)?;
    Ok(())
}
