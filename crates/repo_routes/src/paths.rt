//! What a path of a repository names, and how long a body may be put there.
ghost use Rattle.std.specs.Prelude.{◌≡◌};
ghost use Rattle.repo_routes.specs.Paths as spec;
ghost use Rattle.repo_model.specs.Shown.{shown_place};
ghost use Rattle.repo_routes.specs.Shown.{shown_intent};
ghost use Rattle.repo_routes.specs.Steps.{Gives, result_shown};

use crate::fault::Fault;
use crate::framing::is_put;
use crate::intent::Intent;
use crate::refusal::Refusal;
use crate::routes::sort_of;
use http_wire::Request;
use mvn_coords::{Kind, PathFault, Side, kind_of};
use percent_encoding::{DecodeError, percent_decode};
use repo_config::Settings;
use repo_model::Place;
use std::alloc::Global;
use texts::Text;

/// The longest body of a side file, in bytes.
pub const LONGEST_SIDE: u64 = 1024;

/// The longest body of a document, in bytes.
pub const LONGEST_DOCUMENT: u64 = 1_048_576;

/// What a path names, without its coordinates.
#[derive(Clone, Copy)]
pub(crate) enum Thing {
    File,
    Side(Side),
    Document,
}

/// The refusal of a path that names nothing.
#[tactic(auto, unfolding(crate::specs::Paths::path_refusal))]
fn path_refusal(head: &Request, fault: PathFault) -> Refusal
    ensures { result ≡ spec.path_refusal head.now fault }
{
    if is_put(head) {
        Refusal::BadPath(fault)
    } else {
        Refusal::NoPath(fault)
    }
}

/// The path without its escapes (RFC 3986, section 2.1).
fn decoded(alloc: Global, head: &Request, written: &str) -> Result<Text, Fault>
    ensures { Gives (λ path. path) (spec.decoded head.now written.now) result }
{
    match percent_decode(written.as_bytes()).decode_utf8(alloc) {
        Ok(path) => Ok(Text::from_string(path.into_owned(alloc)?)),
        Err(DecodeError::OutOfMemory) => Err(Fault::NoMemory),
        Err(DecodeError::Utf8(_)) => {
            let refusal = path_refusal(head, PathFault::BadSegment);
            Err(Fault::Refused(refusal))
        }
    }
}

/// What a path names, or its refusal.
#[tactic(auto, unfolding(crate::specs::Paths::thing_at))]
fn thing_at(head: &Request, path: &str) -> Result<Thing, Refusal>
    ensures { result ≡ spec.thing_at head.now path.now }
{
    match kind_of(path) {
        Ok(Kind::File(_)) => Ok(Thing::File),
        Ok(Kind::Doc(_)) => Ok(Thing::Document),
        Ok(Kind::FileSide(_, side) | Kind::DocSide(_, side)) => Ok(Thing::Side(side)),
        Err(fault) => Err(path_refusal(head, fault)),
    }
}

/// The longest body that may be put there, in bytes.
#[tactic(auto, unfolding(crate::specs::Paths::limit_of))]
fn limit_of(settings: &Settings, thing: Thing) -> u64
    ensures { result ≡ spec.limit_of settings.now thing }
{
    match thing {
        Thing::File => settings.max_file(),
        Thing::Document => LONGEST_DOCUMENT,
        Thing::Side(_) => LONGEST_SIDE,
    }
}

#[tactic(auto, unfolding(crate::specs::Paths::check_limit))]
fn check_limit(limit: u64, length: u64) -> Result<(), Refusal>
    ensures { result ≡ spec.check_limit limit length }
{
    if length <= limit {
        Ok(())
    } else {
        Err(Refusal::TooLarge(limit))
    }
}

fn put_of(place: Place, path: Text, length: u64, thing: Thing) -> Intent
    ensures { shown_intent result ≡ spec.put_of (shown_place place) path length thing }
{
    match thing {
        Thing::File => Intent::PutFile {
            place,
            path,
            length,
        },
        Thing::Document => Intent::PutDocument {
            place,
            path,
            length,
        },
        Thing::Side(side) => Intent::PutSide {
            place,
            path,
            side,
            length,
        },
    }
}

/// The PUT of a body that is not too long.
#[tactic(auto, unfolding(crate::specs::Paths::put_at))]
fn put_at(
    settings: &Settings,
    place: Place,
    path: Text,
    length: u64,
    thing: Thing,
) -> Result<Intent, Refusal>
    ensures { result_shown shown_intent result ≡ spec.put_at settings.now (shown_place place) path length thing }
{
    check_limit(limit_of(settings, thing), length)?;
    Ok(put_of(place, path, length, thing))
}

/// What is put at a path of a place, as written.
#[tactic(auto, unfolding(crate::specs::Paths::put_to))]
pub(crate) fn put_to(
    alloc: Global,
    settings: &Settings,
    head: &Request,
    length: u64,
    place: Place,
    written: &str,
) -> Result<Intent, Fault>
    ensures { Gives shown_intent (spec.put_to settings.now head.now length (shown_place place) written.now) result }
{
    let path = decoded(alloc, head, written)?;
    let thing = thing_at(head, path.as_str())?;
    let intent = put_at(settings, place, path, length, thing)?;
    Ok(intent)
}

/// What is read at a path of a repository, as written.
#[tactic(auto, unfolding(crate::specs::Paths::read_from))]
pub(crate) fn read_from(
    alloc: Global,
    settings: &Settings,
    head: &Request,
    repo: &str,
    written: &str,
) -> Result<Intent, Fault>
    ensures { Gives shown_intent (spec.read_from settings.now head.now repo.now written.now) result }
{
    let path = decoded(alloc, head, written)?;
    thing_at(head, path.as_str())?;
    let sort = sort_of(settings, repo);
    let repo = Text::new(alloc, repo)?;
    Ok(Intent::Read { repo, path, sort })
}
