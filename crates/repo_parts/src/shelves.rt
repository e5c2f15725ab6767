//! The shelves of groups: one for each group of the settings, on which the documents of its members are kept as one, until one of
//! them changes.
ghost use Rattle.std.specs.Prelude.{◌≡◌, List, IfOk};
ghost use Rattle.mvn_coords.specs.Segment.{levels};
ghost use Rattle.repo_model.specs.Data.{Hosted, Proxy};
ghost use Rattle.repo_model.specs.Shown.{outcome_map, shown_got};
ghost use Rattle.proxy_rules.specs.Landings.{has_failed};
ghost use Rattle.hosted_repo.specs.Puts.{shown_put};
ghost use Rattle.deploy_session.specs.Shown.{shown_commit};
ghost use Rattle.repo_parts.specs.Shelves.{AreShelved, HasForgotten, HaveForgotten, is_above, is_above_file, is_gone};
ghost use Rattle.repo_parts.specs.Changes.{gone_by_commit, gone_by_landing, gone_by_put, gone_by_unlist, is_of_document};

use deploy_session::Commit;
use fetch_plan::Outcome;
use group_view::GroupShelf;
use hosted_repo::Put;
use outside::{Held, NoMemory};
use proxy_rules::Landed;
use repo_config::GroupRule;
use repo_model::Got;
use row_tables::CommitFault;
use std::alloc::Global;

/// Which directories may have other documents than before.
#[derive(Drop)]
pub enum Changed<'a> {
    /// None.
    Nothing,
    /// Those in which the file at this path stands.
    File(&'a str),
    /// That of the document at this path.
    Document(&'a str),
    /// Any.
    All,
}

/// A shelf for each group, with nothing on it.
pub fn empty_shelves(alloc: Global, groups: &[GroupRule]) -> Result<Vec<GroupShelf>, NoMemory>
    ensures { (hosted : List Hosted) (proxies : List Proxy) → IfOk result (λ shelves. AreShelved groups.now hosted proxies shelves.items) }
{
    let mut shelves = Vec::new(alloc);
    for group in groups {
        let _ = group;
        shelves.push(GroupShelf::new(alloc))?;
    }
    Ok(shelves)
}

// Forgets the documents of the directories above a file's path: up to its last slash, and up to the one before.
fn forget_file(shelf: &mut GroupShelf, path: &str)
    ensures { HasForgotten (is_above_file (levels path.now)) shelf.old shelf.new }
{
    let Some((version, _)) = path.rsplit_once('/') else {
        return;
    };
    let Some((artifact, _)) = version.rsplit_once('/') else {
        return;
    };
    shelf.forget(version);
    shelf.forget(artifact);
}

// Forgets the document of the directory above a document's path.
fn forget_document(shelf: &mut GroupShelf, path: &str)
    ensures { HasForgotten (is_above (levels path.now)) shelf.old shelf.new }
{
    if let Some((directory, _)) = path.rsplit_once('/') {
        shelf.forget(directory);
    }
}

// Forgets on one shelf what may have changed.
fn forget_on(shelf: &mut GroupShelf, changed: &Changed<'_>)
    ensures { HasForgotten (is_gone changed.now) shelf.old shelf.new }
{
    match changed {
        Changed::Nothing => {}
        Changed::File(path) => forget_file(shelf, path),
        Changed::Document(path) => forget_document(shelf, path),
        Changed::All => shelf.forget_all(),
    }
}

/// Forgets on each shelf what may have changed. It takes no memory.
pub fn forget(shelves: &mut Vec<GroupShelf>, changed: &Changed<'_>)
    ensures { HaveForgotten (is_gone changed.now) shelves.old.items shelves.new.items }
{
    for place in 0..shelves.len() {
        forget_on(&mut shelves[place], changed);
    }
}

/// What a put of a file at a path changes: a new row, or one that is visible again.
pub fn changed_by_put<'a, H: Held>(path: &'a str, did: &Put<H>) -> Changed<'a>
    ensures { is_gone result ≡ gone_by_put path.now (shown_put did.now) }
{
    match did {
        Put::Created | Put::Relisted(_) => Changed::File(path),
        Put::Same(_) | Put::Taken { .. } | Put::StoreFault(_) | Put::NoMemory(_) => {
            Changed::Nothing
        }
    }
}

/// Whether a document came of a fetch.
pub fn is_of_document<H: Held>(outcome: &Outcome<Got<H>>) -> bool
    ensures { result ≡ is_of_document (outcome_map shown_got outcome.now) }
{
    matches!(outcome, Outcome::Got(Got::Doc(_)))
}

/// What a fetch that lands at a path changes: the document there, where one came of it.
pub fn changed_by_landing(path: &str, of_document: bool, did: Landed) -> Changed<'_>
    ensures { is_gone result ≡ gone_by_landing path.now of_document (has_failed did) }
{
    match (of_document, did) {
        (true, Landed::Kept | Landed::NotKept) => Changed::Document(path),
        _ => Changed::Nothing,
    }
}

/// What a purge changes that unlisted so many rows. They may stand in many directories.
pub fn changed_by_unlist<'a>(did: Result<u64, CommitFault>) -> Changed<'a>
    ensures { is_gone result ≡ gone_by_unlist did }
{
    match did {
        Ok(0) | Err(_) => Changed::Nothing,
        Ok(_) => Changed::All,
    }
}

/// What the end of a session changes: its files may stand in many directories.
pub fn changed_by_commit<'a>(did: &Commit) -> Changed<'a>
    ensures { is_gone result ≡ gone_by_commit (shown_commit did.now) }
{
    match did {
        Commit::Done { .. } => Changed::All,
        Commit::NoSession
        | Commit::Offends { .. }
        | Commit::MissingPom { .. }
        | Commit::StoreFault
        | Commit::NoMemory
        | Commit::Aborted => Changed::Nothing,
    }
}
