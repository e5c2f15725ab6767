//! The conditions of commands: what their places and paths name.
ghost use Rattle.std.specs.Prelude.{◌≡◌, Ok, Some, None, bytes_eq, is_some, position, true};
ghost use Rattle.std.specs.Option.{option_map};
ghost use Rattle.mvn_coords.specs.Kind.{kind};
ghost use Rattle.mvn_coords.specs.Layout.{Coordinates, Directory};
ghost use Rattle.mvn_digest.specs.Sides.{bytes_in, digest_size};
ghost use Rattle.repo_model.specs.Command as spec;
ghost use Rattle.repo_model.specs.Paths as paths;
ghost use Rattle.repo_model.specs.Shown.{outcome_map, shown_command, shown_got, shown_place};
ghost use Rattle.repo_parts.specs.Looks.{document_kind, file_kind};

use doc_lengths::text_length;
use fetch_plan::Outcome;
use mvn_coords::{Kind, Side, kind_of};
use mvn_digest::{Digest, MD5_BYTES, SHA1_BYTES, SHA256_BYTES, SHA512_BYTES};
use outside::Held;
use repo_config::{GroupRule, HostedRule, ProxyRule, Settings};
use repo_model::{Command, Got, NUMBER_END, Place};

/// The longest written text of a document that lands, in bytes.
const LONGEST_LANDED: usize = 4_000_000;

/// Whether a command meets its condition under these settings.
pub fn fits<H: Held>(settings: &Settings, command: &Command<H>) -> bool
    ensures { result ≡ spec.meets settings.now (shown_command command.now) }
{
    match command {
        Command::Look {
            repo,
            path,
            tried: _,
        } => is_known(settings, repo.as_str()) && names_something(path.as_str()),
        Command::MayPut { place, path } => is_place(settings, place) && is_file_path(path.as_str()),
        Command::Put {
            repo,
            path,
            draft,
            parcel,
        } => {
            takes_at(settings, repo.as_str(), path.as_str())
                && parcel.blob == *draft
                && parcel.length < NUMBER_END
        }
        Command::PutSide { place, path, said } => {
            is_place(settings, place) && is_digest(path.as_str(), said)
        }
        Command::PutDoc { place, path } => {
            is_place(settings, place) && names_document(path.as_str())
        }
        Command::Stage {
            session: _,
            path,
            draft,
            parcel,
        } => { is_file_path(path.as_str()) && parcel.blob == *draft && parcel.length < NUMBER_END }
        Command::Open { repo } => is_there(settings, repo.as_str()),
        Command::Unlist { repo } => is_there(settings, repo.as_str()),
        Command::Land { plan, outcome } => {
            is_proxy(settings, plan.proxy.as_str())
                && is_landing(plan.path.as_str(), plan.draft, outcome)
        }
        Command::Commit { session: _ }
        | Command::Abort { session: _ }
        | Command::Done { lease: _ }
        | Command::Drop { draft: _ }
        | Command::Collect
        | Command::Ask(_) => true,
    }
}

// The rule of a hosted repository.
fn rule_of<'a>(settings: &'a Settings, id: &str) -> Option<&'a HostedRule>
    ensures { option_map (λ rule. rule.now) result ≡ spec.rule_of id.now settings.now }
{
    settings.hosted().iter().find(|rule| rule.id() == id)
}

// Whether a hosted repository has the id.
fn is_there(settings: &Settings, id: &str) -> bool
    ensures { result ≡ spec.is_there id.now settings.now }
{
    rule_of(settings, id).is_some()
}

// The rule of a proxy.
fn proxy_of<'a>(settings: &'a Settings, id: &str) -> Option<&'a ProxyRule>
    ensures { option_map (λ rule. rule.now) result ≡ spec.proxy_rule_of id.now settings.now }
{
    settings.proxies().iter().find(|rule| rule.id() == id)
}

// Whether a proxy has the id.
fn is_proxy(settings: &Settings, id: &str) -> bool
    ensures { result ≡ is_some (spec.proxy_rule_of id.now settings.now) }
{
    proxy_of(settings, id).is_some()
}

// The rule of a group.
fn group_of<'a>(settings: &'a Settings, id: &str) -> Option<&'a GroupRule>
    ensures { option_map (λ rule. rule.now) result ≡ spec.group_rule_of id.now settings.now }
{
    settings.groups().iter().find(|rule| rule.id() == id)
}

/// The place of a group among the groups.
pub fn group_place(settings: &Settings, id: &str) -> Option<usize>
    ensures { result ≡ position (λ rule. bytes_eq rule.id id.now) settings.now.groups }
{
    settings.groups().iter().position(|rule| rule.id() == id)
}

// Whether a repository of any kind has the id.
fn is_known(settings: &Settings, id: &str) -> bool
    ensures { result ≡ spec.is_known id.now settings.now }
{
    is_there(settings, id) || is_proxy(settings, id) || group_of(settings, id).is_some()
}

// Whether this may land of a fetch of a file under a draft or under none.
fn is_file_landing<H: Held>(draft: Option<u64>, outcome: &Outcome<Got<H>>) -> bool
    ensures { (c : Coordinates) → result ≡ spec.is_landing (Ok (file_kind c None)) draft (outcome_map shown_got outcome.now) }
{
    let Some(draft) = draft else {
        return false;
    };
    match outcome {
        Outcome::Got(Got::File(parcel)) => parcel.blob == draft && parcel.length < NUMBER_END,
        Outcome::Got(Got::Doc(_)) => false,
        _ => true,
    }
}

// Whether this may land of a fetch of a document under a draft or under none.
fn is_document_landing<H: Held>(draft: Option<u64>, outcome: &Outcome<Got<H>>) -> bool
    ensures { (d : Directory) → result ≡ spec.is_landing (Ok (document_kind d None)) draft (outcome_map shown_got outcome.now) }
{
    if draft.is_some() {
        return false;
    }
    match outcome {
        Outcome::Got(Got::File(_)) => false,
        Outcome::Got(Got::Doc(doc)) => text_length(doc) <= LONGEST_LANDED,
        _ => true,
    }
}

// Whether this may land of a fetch of a path under a draft or under none.
fn is_landing<H: Held>(path: &str, draft: Option<u64>, outcome: &Outcome<Got<H>>) -> bool
    ensures { result ≡ spec.is_landing (kind path.now) draft (outcome_map shown_got outcome.now) }
{
    match kind_of(path) {
        Ok(Kind::File(_)) => is_file_landing(draft, outcome),
        Ok(Kind::Doc(_)) => is_document_landing(draft, outcome),
        Ok(Kind::FileSide(_, _) | Kind::DocSide(_, _)) | Err(_) => false,
    }
}

// Whether a hosted repository has the id and takes the file of the path.
fn takes_at(settings: &Settings, id: &str, path: &str) -> bool
    ensures { result ≡ spec.is_fit (λ rule. paths.takes rule path.now) (spec.rule_of id.now settings.now) }
{
    match rule_of(settings, id) {
        Some(rule) => takes(rule, path),
        None => false,
    }
}

// Whether a rule takes the file of the path.
fn takes(rule: &HostedRule, path: &str) -> bool
    ensures { result ≡ paths.takes rule.now path.now }
{
    match kind_of(path) {
        Ok(Kind::File(c)) => {
            if c.is_snapshot() {
                rule.snapshots()
            } else {
                rule.releases()
            }
        }
        _ => false,
    }
}

// Whether a place is a repository that is there, or a session, of whatever number.
fn is_place(settings: &Settings, place: &Place) -> bool
    ensures { result ≡ spec.is_place (shown_place place.now) settings.now }
{
    match place {
        Place::Repository(id) => is_there(settings, id.as_str()),
        Place::Session(_) => true,
    }
}

// Whether a path names a file, a document, or a side file of either.
fn names_something(path: &str) -> bool
    ensures { result ≡ spec.names_something (kind path.now) }
{
    kind_of(path).is_ok()
}

// Whether a path names a file.
fn is_file_path(path: &str) -> bool
    ensures { result ≡ spec.is_file_path path.now }
{
    matches!(kind_of(path), Ok(Kind::File(_)))
}

// Whether a path names a document.
fn names_document(path: &str) -> bool
    ensures { result ≡ spec.names_document (kind path.now) }
{
    matches!(kind_of(path), Ok(Kind::Doc(_)))
}

// Whether a path names a side file, and a digest is of its side.
fn is_digest(path: &str, said: &Digest) -> bool
    ensures { result ≡ spec.is_digest (kind path.now) (bytes_in said.now) }
{
    match kind_of(path) {
        Ok(Kind::FileSide(_, side) | Kind::DocSide(_, side)) => {
            said.bytes().len() == size_of(side)
        }
        _ => false,
    }
}

// The length of a side's digests, in bytes.
fn size_of(side: Side) -> usize
    ensures { result ≡ digest_size side }
{
    match side {
        Side::Sha1 => SHA1_BYTES,
        Side::Md5 => MD5_BYTES,
        Side::Sha256 => SHA256_BYTES,
        Side::Sha512 => SHA512_BYTES,
    }
}
