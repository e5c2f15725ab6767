//! Deployment sessions at the repository: where a file may be staged, and what the calls of sessions leave and reply.
ghost use Rattle.std.specs.Prelude.{◌≡◌, ◌≢◌, ◌≤◌, ◌⊎◌, if◌then◌else◌, false, find, [], Some, IsTrue, ◌==◌};
ghost use Rattle.std.specs.List.{flat_map, list_any};
ghost use Rattle.std.specs.Option.{option_map};
ghost use Rattle.mvn_coords.specs.Kind.{kind};
ghost use Rattle.mvn_digest.specs.Sides.{bytes_in};
ghost use Rattle.deploy_session.specs.Known.{garbage_by, known_after};
ghost use Rattle.deploy_session.specs.Shown.{blobs_left, blobs_over, shown_abort, shown_begin, shown_commit, shown_stage};
ghost use Rattle.repo_model.specs.Data as plain;
ghost use Rattle.repo_model.specs.Effect.{recorded};
ghost use Rattle.repo_model.specs.History.{latest_moment};
ghost use Rattle.repo_model.specs.Reply.{is_free};
ghost use Rattle.repo_model.specs.Shown.{shown_reply};
ghost use Rattle.repo_model.specs.State.{State, is_among, is_open_at, is_repository, number_end};
ghost use Rattle.repo_model.specs.Turn.{judged, may_put_in, staged_at, with_open};
ghost use Rattle.row_tables.specs.Leaving.{Leaves, MayTake, end_by};
ghost use Rattle.repo_parts.specs.Purge.{AreKeptOnce, condemned_by, kept_without};
ghost use Rattle.repo_parts.specs.Deploys.{Draws, commit_in, drawn_unless, hosted_after_all, kept_staged, yard_opened, yard_staged};

use crate::hosted::{repo_mut, takes};
use crate::purges::condemn_all;
use blob_yard::{DrawFault, Yard};
use deploy_session::{Abort, Begin, Commit, Sessions, Stage, has_room, staged_file};
use hosted_repo::Hosted;
use mvn_coords::{Kind, kind_of};
use mvn_digest::Digest;
use outside::Held;
use repo_model::{Reply, SessionResult};
use row_tables::Records;

/// Draws a draft.
pub fn drawn<H: Held>(yard: &mut Yard) -> Reply<H>
    ensures drawn { Draws (shown_reply result) yard.old.yard yard.new.yard }
    ensures kept { yard.new.kept ≡ yard.old.kept }
{
    match yard.draft() {
        Ok(draft) => Reply::Draft(draft),
        Err(DrawFault::Spent) => Reply::Spent,
        Err(DrawFault::NoMemory) => Reply::NoMemory,
    }
}

/// Why no file may be staged at a path of the session of a number; none where one may.
pub fn refusal_at<H: Held>(
    sessions: &Sessions<H>,
    repos: &[Hosted<H>],
    session: u64,
    path: &str,
) -> Option<Reply<H>>
    ensures { (s : State) → s.hosted ≡ repos.now
        → may_put_in s path.now (find (is_open_at session) sessions.now.sessions) ≡ drawn_unless (option_map shown_reply result) s.yard.next_draft }
{
    let Some((repo, files)) = sessions.opened(session) else {
        return Some(Reply::NoSession);
    };
    if !takes(repos, repo, path) {
        return Some(Reply::KindRefused);
    }
    if !has_room(files, path) {
        return Some(Reply::SessionFull);
    }
    None
}

/// Compares the digest that a side file says with that of its file in the session of a number. That of a document is always
/// agreed to, since documents are computed.
pub fn compare_staged<H: Held>(
    sessions: &Sessions<H>,
    session: u64,
    path: &str,
    said: Digest,
) -> Reply<H>
    ensures { shown_reply result ≡ (with_open (find (is_open_at session) sessions.now.sessions)
        (λ found. judged (kind path.now) (bytes_in said) (λ at. staged_at at found.staged))).reply }
{
    let Some((_, files)) = sessions.opened(session) else {
        return Reply::NoSession;
    };
    let Ok(Kind::FileSide(c, side)) = kind_of(path) else {
        return Reply::Agreed;
    };
    let Some(parcel) = staged_file(files, c.path()) else {
        return Reply::NotThere;
    };
    let kept = parcel.digests.of(side);
    if said.bytes() == kept.bytes() {
        Reply::Agreed
    } else {
        Reply::Differs { said, kept }
    }
}

/// A session was asked for: its number is drawn.
pub fn settle_begun(yard: &mut Yard, begun: Begin)
    requires { (n : _) → begun ≡ Begin.Opened n → (n ≡ yard.old.yard.next_session) × ((yard.old.yard.next_session == number_end) ≡ false) }
    ensures { yard.new ≡ record yard.old { yard = yard_opened (shown_begin begun) yard.old.yard } }
{
    if let Begin::Opened(_) = begun {
        yard.draw_session();
    }
}

/// Staging is over: what becomes of its draft.
pub fn settle_staged(yard: &mut Yard, draft: u64, did: Stage)
    requires { IsTrue (is_among draft yard.old.yard.drafts) }
    ensures yard { yard.new.yard ≡ yard_staged draft (shown_stage did) yard.old.yard }
    ensures kept { yard.new.kept ≡ kept_staged draft (shown_stage did) yard.old.kept }
{
    match did {
        Stage::Staged => {
            yard.keep(draft);
        }
        Stage::NoMemory => {}
        Stage::NoSession | Stage::SessionFull | Stage::Taken { .. } | Stage::Same => {
            yard.drop_draft(draft);
        }
    }
}

/// A session was given up: its blobs are in use no longer.
pub fn condemn_left(yard: &mut Yard, did: &Abort)
    requires { AreKeptOnce (blobs_left did.now) yard.old.kept }
    ensures { yard.new ≡ record { yard = condemned_by (blobs_left did.now) yard.old.yard; kept = kept_without (blobs_left did.now) yard.old.kept } }
{
    if let Abort::Aborted { blobs } = did {
        condemn_all(yard, blobs.as_slice());
    }
}

/// A session was deployed: the blobs that no row took are in use no longer.
pub fn condemn_over(yard: &mut Yard, did: &Commit)
    requires { AreKeptOnce (blobs_over did.now) yard.old.kept }
    ensures { yard.new ≡ record { yard = condemned_by (blobs_over did.now) yard.old.yard; kept = kept_without (blobs_over did.now) yard.old.kept } }
{
    if let Commit::Done { count: _, blobs } = did {
        condemn_all(yard, blobs.as_slice());
    }
}

/// What opening a session replies.
pub fn reply_of_begin<H: Held>(begun: Begin) -> Reply<H>
    ensures { shown_reply result ≡ shown_begin begun }
{
    match begun {
        Begin::TooMany => Reply::TooMany,
        Begin::Spent => Reply::Spent,
        Begin::StoreFault => Reply::StoreFault,
        Begin::NoMemory => Reply::NoMemory,
        Begin::Opened(number) => Reply::Opened(number),
    }
}

/// What staging a blob replies.
pub fn reply_of_stage<H: Held>(did: Stage) -> Reply<H>
    ensures { shown_reply result ≡ shown_stage did }
{
    match did {
        Stage::NoSession => Reply::NoSession,
        Stage::SessionFull => Reply::SessionFull,
        Stage::Taken { kept, sent } => Reply::Taken { kept, sent },
        Stage::Same => Reply::Same,
        Stage::Staged => Reply::Staged,
        Stage::NoMemory => Reply::NoMemory,
    }
}

/// What giving a session up replies.
pub fn reply_of_abort<H: Held>(did: Abort) -> Reply<H>
    ensures { shown_reply result ≡ shown_abort did }
{
    match did {
        Abort::NoSession => Reply::NoSession,
        Abort::Done(count) => Reply::Ended(SessionResult::Done(count)),
        Abort::StoreFault => Reply::StoreFault,
        Abort::NoMemory => Reply::NoMemory,
        Abort::Aborted { .. } => Reply::Ended(SessionResult::Aborted),
    }
}

/// What deploying a session's files replies.
pub fn reply_of_commit<H: Held>(did: Commit) -> Reply<H>
    ensures { shown_reply result ≡ shown_commit did }
{
    match did {
        Commit::NoSession => Reply::NoSession,
        Commit::Offends { path, kept, sent } => Reply::Offends { path, kept, sent },
        Commit::MissingPom { dir } => Reply::MissingPom { dir },
        Commit::StoreFault => Reply::StoreFault,
        Commit::NoMemory => Reply::NoMemory,
        Commit::Done { count, .. } => Reply::Ended(SessionResult::Done(count)),
        Commit::Aborted => Reply::Ended(SessionResult::Aborted),
    }
}

/// Deploys the files of the session of a number to its repository at a moment, once that is recorded.
pub fn commit<H: Held, K: Records>(
    repos: &mut Vec<Hosted<H>>,
    sessions: &mut Sessions<H>,
    records: &mut K,
    session: u64,
    now: u64,
) -> Commit
    requires moment { now ≤ latest_moment }
    requires there { (s : plain.Session) → find (is_open_at session) sessions.old.sessions ≡ Some s → IsTrue (list_any (is_repository s.repo) repos.old.items) }
    requires records { MayTake (recorded (commit_in session now sessions.old.sessions repos.old.items).effects) (K.shows records.old) }
    ensures reply { (shown_commit result ≡ (commit_in session now sessions.old.sessions repos.old.items).reply) ⊎ IsTrue (is_free (shown_commit result)) }
    ensures asked { result ≡ Commit.StoreFault → recorded (commit_in session now sessions.old.sessions repos.old.items).effects ≢ [] }
    ensures sessions { sessions.new ≡ (if is_free (shown_commit result) then sessions.old
        else known_after (commit_in session now sessions.old.sessions repos.old.items).effects sessions.old) }
    ensures rows { repos.new.items ≡ (if is_free (shown_commit result) then repos.old.items
        else hosted_after_all (commit_in session now sessions.old.sessions repos.old.items).effects repos.old.items) }
    ensures blobs { blobs_over result ≡ (if is_free (shown_commit result) then []
        else flat_map garbage_by (commit_in session now sessions.old.sessions repos.old.items).effects) }
    ensures records { Leaves (recorded (commit_in session now sessions.old.sessions repos.old.items).effects) (end_by (shown_commit result)) (K.shows records.old) (K.shows records.new) }
{
    if let Some(how) = sessions.how_ended(session) {
        return Commit::kept(*repos.allocator(), how);
    }
    let Some((repo, _)) = sessions.opened(session) else {
        return Commit::NoSession;
    };
    let hosted = repo_mut(repos, repo);
    sessions.commit(records, hosted, session, now)
}
