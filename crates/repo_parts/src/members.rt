//! What a hosted repository or a proxy has at a path, alone or as a member of a group, and what it does about it.
ghost use Rattle.std.specs.Prelude.{◌≡◌, IfOk};
ghost use Rattle.mvn_coords.specs.Kind.{kind};
ghost use Rattle.mvn_coords.specs.Layout.{Coordinates, Directory};
ghost use Rattle.group_laws.specs.Seen.{stance_of};
ghost use Rattle.hosted_repo.specs.Seens.{is_of_document, shown_seen};
ghost use Rattle.repo_model.specs.Proxies.{kept_at, subject_of};
ghost use Rattle.repo_model.specs.State.{State, row_at};
ghost use Rattle.repo_model.specs.Turn.{document_shown, file_shown, is_of_file, member_document, member_seen, or_nothing, proxy_document, proxy_seen, seen_at, served_by};
ghost use Rattle.repo_parts.specs.Looks.{HasGoods, IsStance, document_kind, file_kind, shown_looked};

use crate::hosted::repo_at;
use crate::looked::{Asked, Goods, Looked};
use crate::proxies::proxy_at;
use group_view::Stance;
use hosted_repo::{DocText, Hosted, Seen};
use mvn_coords::{Dir, Kind, Side, kind_of};
use mvn_digest::side_text;
use mvn_metadata::Doc;
use outside::{Held, NoMemory};
use proxy_rules::{Proxy, subject_of};
use repo_model::Step;
use shared_bytes::SharedBytes;
use std::alloc::Global;
use written_docs::WrittenDoc;

// Whether a path names a file or a side file of one.
fn is_of_file(path: &str) -> bool
    ensures { result ≡ is_of_file (kind path.now) }
{
    matches!(kind_of(path), Ok(Kind::File(_) | Kind::FileSide(_, _)))
}

/// Whether a path names a document or a side file of one.
pub fn is_of_document(path: &str) -> bool
    ensures { result ≡ is_of_document (kind path.now) }
{
    matches!(kind_of(path), Ok(Kind::Doc(_) | Kind::DocSide(_, _)))
}

/// A document that is written, as it is asked for: a share of its text, or the text of a side file.
pub fn document_shown<'a, H: Held>(
    written: &WrittenDoc,
    side: Option<Side>,
) -> Result<Seen<'a, H>, NoMemory>
    ensures { (d : Directory) → IfOk result (λ seen. shown_seen (Some seen) ≡ document_shown (Ok (document_kind d side)) written.now.doc) }
{
    match side {
        Some(side) => Ok(Seen::Text(side_text(&written.digests, side))),
        None => Ok(Seen::Doc(DocText {
            text: written.text.share()?,
            digests: written.digests,
        })),
    }
}

// The file that a proxy keeps at a path, or the text of a side file of it.
fn served_file<'a, H: Held>(proxy: &'a Proxy<H>, subject: &str, side: Option<Side>) -> Looked<'a, H>
    ensures { (c : Coordinates) → shown_looked result ≡ or_nothing (file_shown (Ok (file_kind c side))) (row_at subject.now proxy.now.files) }
{
    match (proxy.file(subject), side) {
        (None, _) => Looked::Nothing,
        (Some(parcel), None) => Looked::Here(Seen::File(parcel)),
        (Some(parcel), Some(side)) => Looked::Here(Seen::Text(side_text(&parcel.digests, side))),
    }
}

// The document that a proxy keeps at a path, as it is written, or the text of a side file of it.
fn served_document<'a, H: Held>(
    alloc: Global,
    proxy: &'a Proxy<H>,
    subject: &str,
    side: Option<Side>,
) -> Result<Looked<'a, H>, NoMemory>
    ensures { (d : Directory) → IfOk result (λ l. shown_looked l
        ≡ or_nothing (λ kept. document_shown (Ok (document_kind d side)) kept.document) (kept_at subject.now proxy.now.documents)) }
{
    let Some((text, digests)) = proxy.text(subject) else {
        return Ok(Looked::Nothing);
    };
    if let Some(side) = side {
        return Ok(Looked::Here(Seen::Text(side_text(&digests, side))));
    }
    Ok(Looked::Here(Seen::Doc(DocText {
        text: SharedBytes::new(alloc, text)?,
        digests,
    })))
}

// What a proxy serves of a path that names a file or a document, or a side file of one.
fn served_by<'a, H: Held>(
    alloc: Global,
    proxy: &'a Proxy<H>,
    subject: &str,
    path: &str,
) -> Result<Looked<'a, H>, NoMemory>
    ensures { IfOk result (λ l. shown_looked l ≡ served_by proxy.now subject.now (kind path.now)) }
{
    match kind_of(path) {
        Ok(Kind::File(_)) => Ok(served_file(proxy, subject, None)),
        Ok(Kind::FileSide(_, side)) => Ok(served_file(proxy, subject, Some(side))),
        Ok(Kind::DocSide(_, side)) => served_document(alloc, proxy, subject, Some(side)),
        Ok(Kind::Doc(_)) => served_document(alloc, proxy, subject, None),
        Err(_) => served_document(alloc, proxy, subject, None),
    }
}

/// What a proxy has at a path. It stands at this place of a group, or is asked itself.
pub fn seen_by_proxy<'a, H: Held>(
    alloc: Global,
    proxy: &'a Proxy<H>,
    member: u64,
    asked: &Asked<'a>,
) -> Result<Looked<'a, H>, NoMemory>
    ensures { IfOk result (λ l. shown_looked l
        ≡ proxy_seen member proxy.now asked.now.moment asked.now.tried.now asked.now.path.now (kind asked.now.path.now)) }
{
    let path = subject_of(asked.path);
    Ok(
        match proxy.decide(asked.path, asked.moment, asked.has_tried(member)) {
            Step::Serve => served_by(alloc, proxy, path, asked.path)?,
            Step::Fetch => Looked::Fetch {
                member,
                rule: proxy.rule(),
                path,
                of_file: is_of_file(asked.path),
            },
            Step::Missed => Looked::Nothing,
            Step::Blocked => Looked::Blocked,
            Step::Negative => Looked::Negative,
            Step::Never => Looked::Never,
        },
    )
}

/// What a hosted repository has at a path. Only of a document, of which a share is taken, may memory be wanting.
pub fn seen_by_repo<'a, H: Held>(repo: &'a Hosted<H>, path: &str) -> Result<Looked<'a, H>, NoMemory>
    ensures { IfOk result (λ l. shown_looked l ≡ seen_at repo.now.rows path.now (kind path.now)) }
{
    Ok(match repo.look(path)? {
        Some(seen) => Looked::Here(seen),
        None => Looked::Nothing,
    })
}

/// What the repository of an id has at a path, a hosted one or a proxy at this place of a group or alone.
pub fn seen_by_member<'a, H: Held>(
    alloc: Global,
    goods: &Goods<'a, H>,
    member: u64,
    id: &str,
    asked: &Asked<'a>,
) -> Result<Looked<'a, H>, NoMemory>
    ensures { (s : State) → HasGoods s goods.now.repos.now goods.now.proxies.now → IfOk result (λ l. shown_looked l
        ≡ member_seen s asked.now.moment asked.now.tried.now asked.now.path.now (kind asked.now.path.now) member id.now) }
{
    if let Some(repo) = repo_at(goods.repos, id) {
        return seen_by_repo(repo, asked.path);
    }
    match proxy_at(goods.proxies, id) {
        Some(proxy) => seen_by_proxy(alloc, proxy, member, asked),
        None => Ok(Looked::Nothing),
    }
}

// What a proxy does about a path, at this place of a group.
fn stance_of_proxy<H: Held>(proxy: &Proxy<H>, member: u64, asked: &Asked<'_>) -> Stance
    ensures { result ≡ stance_of (proxy_seen member proxy.now asked.now.moment asked.now.tried.now asked.now.path.now (kind asked.now.path.now)) }
{
    match proxy.decide(asked.path, asked.moment, asked.has_tried(member)) {
        Step::Serve => Stance::Serve,
        Step::Fetch => Stance::Fetch,
        Step::Missed | Step::Blocked | Step::Negative | Step::Never => Stance::Pass,
    }
}

// What a hosted repository does about a path: it serves a file that it has, and never asks a remote. Whether it has a document is
// not looked for.
fn stance_of_repo<H: Held>(repo: &Hosted<H>, path: &str) -> Stance
    ensures { IsStance (is_of_document (kind path.now)) (seen_at repo.now.rows path.now (kind path.now)) result }
{
    if is_of_document(path) {
        return Stance::Pass;
    }
    match repo.look(path) {
        Ok(Some(_)) => Stance::Serve,
        Ok(None) => Stance::Pass,
        Err(_) => unreachable!(),
    }
}

/// What the member of a group at this place, which has this id, does about a path. Of a document only whether it asks its remote
/// counts. It takes no memory.
pub fn stance_of_member<H: Held>(
    goods: &Goods<'_, H>,
    member: u64,
    id: &str,
    asked: &Asked<'_>,
) -> Stance
    ensures { (s : State) → HasGoods s goods.now.repos.now goods.now.proxies.now → IsStance (is_of_document (kind asked.now.path.now))
        (member_seen s asked.now.moment asked.now.tried.now asked.now.path.now (kind asked.now.path.now) member id.now) result }
{
    if let Some(repo) = repo_at(goods.repos, id) {
        return stance_of_repo(repo, asked.path);
    }
    match proxy_at(goods.proxies, id) {
        Some(proxy) => stance_of_proxy(proxy, member, asked),
        None => Stance::Pass,
    }
}

// The document that a proxy serves of a path, which may be its side file's, copied, where its remote was tried already or not.
fn document_of_proxy<H: Held>(
    alloc: Global,
    proxy: &Proxy<H>,
    path: &str,
    moment: u64,
    tried: bool,
) -> Result<Option<Doc>, NoMemory>
    ensures { IfOk result (λ doc. doc ≡ proxy_document proxy.now moment tried (subject_of path.now (kind path.now))) }
{
    if proxy.decide(path, moment, tried) != Step::Serve {
        return Ok(None);
    }
    let Some(doc) = proxy.document(subject_of(path)) else {
        return Ok(None);
    };
    Ok(Some(doc.copied(alloc)?))
}

/// The document of a directory that the member of a group at this place serves, which has this id.
pub fn document_of_member<H: Held>(
    alloc: Global,
    goods: &Goods<'_, H>,
    member: u64,
    id: &str,
    asked: &Asked<'_>,
    dir: &Dir<'_>,
) -> Result<Option<Doc>, NoMemory>
    ensures { (s : State) → HasGoods s goods.now.repos.now goods.now.proxies.now → IfOk result (λ doc. doc
        ≡ member_document s asked.now.moment asked.now.tried.now (subject_of asked.now.path.now (kind asked.now.path.now)) dir.now member id.now) }
{
    if let Some(repo) = repo_at(goods.repos, id) {
        return repo.document(dir);
    }
    match proxy_at(goods.proxies, id) {
        Some(proxy) => document_of_proxy(
            alloc,
            proxy,
            asked.path,
            asked.moment,
            asked.has_tried(member),
        ),
        None => Ok(None),
    }
}
