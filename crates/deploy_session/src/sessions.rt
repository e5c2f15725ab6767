//! Deployment sessions.
ghost use Rattle.std.specs.Prelude.{◌≡◌, ◌≢◌, ◌<◌, ◌≤◌, ◌⊎◌, if◌then◌else◌, count_by, find, [], None, Some, IsTrue, IfOk};
ghost use Rattle.std.specs.List.{flat_map};
ghost use Rattle.std.specs.Option.{option_and_then, option_map};
ghost use Rattle.repo_model.specs.Data as plain;
ghost use Rattle.repo_model.specs.Effect.{recorded};
ghost use Rattle.repo_model.specs.History.{latest_moment};
ghost use Rattle.repo_model.specs.Reply.{is_free, no_memory, staged};
ghost use Rattle.repo_model.specs.Shown.{shown_parcel};
ghost use Rattle.repo_model.specs.State.{is_open, is_open_at, is_session, number_end};
ghost use Rattle.row_tables.specs.Leaving.{Leaves, MayTake, end_by};
ghost use Rattle.row_tables.specs.Items.{is_file_path, is_number};
ghost use Rattle.row_tables.specs.Recorded.{IsBuiltUp};
ghost use Rattle.ordered_rows.specs.Rows.{rows_after_all};
ghost use Rattle.deploy_session.specs.Known.{abort_turn, begin_turn, commit_turn, garbage_by, known_after, known_from, stage_turn};
ghost use Rattle.deploy_session.specs.Shown.{blobs_left, blobs_over, shown_abort, shown_begin, shown_commit, shown_files, shown_stage};

use crate::answers::{Abort, Begin, Commit, Stage};
use crate::known::{self, Session};
use crate::{files, recording, restart};
use hosted_repo::{Hosted, PutAll};
use outside::{Held, NoMemory, Parcel};
use repo_model::{Item, NUMBER_END, Numbers, SessionResult};
use row_tables::{Records, Tables};
use std::alloc::Global;
use std::collections::BTreeMap;
use std::marker::Model;

/// The most sessions that are open.
const MOST_SESSIONS: u64 = 64;

/// Deployment sessions by number: those that are open, with their files, and the results of those that have ended.
#[derive(Drop)]
pub struct Sessions<H: Held> {
    alloc: Global,
    known: BTreeMap<u64, Session<H>>,
    open_count: u64,
    next: u64,
}

impl<H: Held> Model for Sessions<H> {
    ghost use Rattle.deploy_session.specs.Known.{Known};

    ghost Value = { Known };

    ghost use Rattle.deploy_session.specs.Known.{IsSound};
    ghost use Rattle.deploy_session.specs.Shown.{shown_sessions};

    ghost view = { λ s. record { sessions = shown_sessions s.known.entries; next = s.next } };

    ghost invariant = { λ s. IsSound s.open_count s.next (shown_sessions s.known.entries) };
}

impl<H: Held> Sessions<H> {
    /// No sessions; the first will have the number 1.
    pub fn new(alloc: Global) -> Sessions<H>
        ensures { result ≡ record { sessions = []; next = 1 } }
    {
        Sessions {
            alloc,
            known: BTreeMap::new(alloc),
            open_count: 0,
            next: 1,
        }
    }

    /// The sessions after a start. Those that have ended keep their results; those that were open are gone, and their numbers
    /// are not drawn again.
    pub fn start(alloc: Global, tables: &Tables) -> Result<Sessions<H>, NoMemory>
        requires { IsBuiltUp tables.now }
        ensures { IfOk result (λ s. s ≡ known_from tables.now) }
    {
        let rows = tables.sessions();
        let known = restart::ended_of(alloc, rows)?;
        let last = restart::greatest_of(rows);
        Ok(Sessions {
            alloc,
            known,
            open_count: 0,
            next: last + 1,
        })
    }

    /// Opens a session for the hosted repository of an id, once that is recorded. Where that fails nothing is changed.
    pub fn begin<K: Records>(&mut self, records: &mut K, repo: &str) -> Begin
        requires records { MayTake (recorded (begin_turn self.old repo.now).effects) (K.shows records.old) }
        ensures reply { let turn = begin_turn self.old repo.now in
            (shown_begin result ≡ turn.reply) ⊎ (IsTrue (is_free (shown_begin result)) × (recorded turn.effects ≢ [])) }
        ensures sessions { let turn = begin_turn self.old repo.now in
            self.new ≡ (if is_free (shown_begin result) then self.old else known_after turn.effects self.old) }
        ensures records { Leaves (recorded (begin_turn self.old repo.now).effects) (end_by (shown_begin result)) (K.shows records.old) (K.shows records.new) }
    {
        if self.open_count >= MOST_SESSIONS {
            return Begin::TooMany;
        }
        if self.next == NUMBER_END {
            return Begin::Spent;
        }
        let number = self.next;
        if let Err(fault) = recording::begin(self.alloc, &mut self.known, records, number, repo) {
            return Begin::failed(fault);
        }
        self.open_count += 1;
        self.next += 1;
        Begin::Opened(number)
    }

    /// Gives the session of a number up, once that is recorded. Where that fails nothing is changed. One that has ended
    /// answers how it ended, and nothing is changed either.
    pub fn abort<K: Records>(&mut self, records: &mut K, session: u64) -> Abort
        requires records { MayTake (recorded (abort_turn self.old session).effects) (K.shows records.old) }
        ensures reply { let turn = abort_turn self.old session in
            (shown_abort result ≡ turn.reply) ⊎ (IsTrue (is_free (shown_abort result)) × (recorded turn.effects ≢ [])) }
        ensures sessions { let turn = abort_turn self.old session in
            self.new ≡ (if is_free (shown_abort result) then self.old else known_after turn.effects self.old) }
        ensures blobs { let turn = abort_turn self.old session in
            blobs_left result ≡ (if is_free (shown_abort result) then [] else flat_map garbage_by turn.effects) }
        ensures records { Leaves (recorded (abort_turn self.old session).effects) (end_by (shown_abort result)) (K.shows records.old) (K.shows records.new) }
    {
        let Some(found) = known::session_of(&self.known, session) else {
            return Abort::NoSession;
        };
        if let Some(how) = found.ended {
            return Abort::kept(self.alloc, how);
        }
        let Ok(blobs) = files::blobs_of(self.alloc, &found.files) else {
            return Abort::NoMemory;
        };
        if let Err(fault) = recording::give_up(self.alloc, &mut self.known, records, session) {
            return Abort::failed(fault);
        }
        self.open_count -= 1;
        Abort::Aborted {
            blobs: Numbers::from_vec(blobs),
        }
    }

    /// Deploys the files of the session of a number, all at once or not at all, to its repository at a moment, in seconds since
    /// 1970 in UTC, and ends it, once both are recorded as one change. Where that fails, or something stands against it, nothing
    /// is changed. One that has ended answers how it ended, and nothing is changed either.
    pub fn commit<K: Records>(
        &mut self,
        records: &mut K,
        hosted: &mut Hosted<H>,
        session: u64,
        now: u64,
    ) -> Commit
        requires moment { now ≤ latest_moment }
        requires repository { (s : plain.Session) → find (is_open_at session) self.old.sessions ≡ Some s → s.repo ≡ hosted.old.rule.id }
        requires records { MayTake (recorded (commit_turn self.old session now hosted.old.rows).effects) (K.shows records.old) }
        ensures reply { let turn = commit_turn self.old session now hosted.old.rows in
            (shown_commit result ≡ turn.reply) ⊎ IsTrue (is_free (shown_commit result)) }
        ensures asked { let turn = commit_turn self.old session now hosted.old.rows in
            result ≡ Commit.StoreFault → recorded turn.effects ≢ [] }
        ensures sessions { let turn = commit_turn self.old session now hosted.old.rows in
            self.new ≡ (if is_free (shown_commit result) then self.old else known_after turn.effects self.old) }
        ensures rows { let turn = commit_turn self.old session now hosted.old.rows in
            hosted.new ≡ (if is_free (shown_commit result) then hosted.old else record hosted.old { rows = rows_after_all turn.effects hosted.old.rows }) }
        ensures blobs { let turn = commit_turn self.old session now hosted.old.rows in
            blobs_over result ≡ (if is_free (shown_commit result) then [] else flat_map garbage_by turn.effects) }
        ensures records { Leaves (recorded (commit_turn self.old session now hosted.old.rows).effects) (end_by (shown_commit result)) (K.shows records.old) (K.shows records.new) }
    {
        let Some(found) = known::session_of(&self.known, session) else {
            return Commit::NoSession;
        };
        if let Some(how) = found.ended {
            return Commit::kept(self.alloc, how);
        }
        let result = SessionResult::Done(found.files.len() as u64);
        let also = Item::SessionEnded { session, result };
        match hosted.put_all(records, &found.files, also, now) {
            PutAll::Done { count, blobs } => {
                known::end(self.alloc, &mut self.known, session, result);
                self.open_count -= 1;
                Commit::Done { count, blobs }
            }
            refused => Commit::refused(refused),
        }
    }

    /// How the session of a number has ended; None where it has not, or was never opened. It takes no memory.
    pub fn how_ended(&self, session: u64) -> Option<SessionResult>
        ensures { result ≡ option_and_then (λ (s : plain.Session). s.ended) (find (is_session session) self.now.sessions) }
    {
        known::session_of(&self.known, session)?.ended
    }

    /// The repository and the files of the session that is open under a number. It takes no memory.
    pub fn opened(&self, session: u64) -> Option<(&str, &BTreeMap<String, Parcel<H>>)>
        ensures { option_map (λ lent. record { number = session; repo = lent.0.now; staged = shown_files lent.1.now.entries; ended = None }) result
            ≡ find (is_open_at session) self.now.sessions }
    {
        let found = known::open_of(&self.known, session)?;
        Some((found.repo.as_str(), &found.files))
    }

    /// Stages a stored blob at a path of the session that is open under a number. A file that it has there stays.
    pub fn stage(&mut self, session: u64, path: &str, parcel: Parcel<H>) -> Stage
        requires path { IsTrue (is_file_path path.now) }
        requires blob { IsTrue (is_number parcel.blob) }
        requires length { parcel.length < number_end }
        ensures reply { let turn = stage_turn self.old session path.now (shown_parcel parcel) in
            (shown_stage result ≡ turn.reply) ⊎ ((shown_stage result ≡ no_memory) × (turn.reply ≡ staged)) }
        ensures sessions { let turn = stage_turn self.old session path.now (shown_parcel parcel) in
            self.new ≡ (if is_free (shown_stage result) then self.old else known_after turn.effects self.old) }
    {
        let sent = files::print_of(&parcel);
        if let Err(answer) = known::judge(&self.known, session, path, sent) {
            return answer;
        }
        let Ok(()) = known::add_file(self.alloc, &mut self.known, session, path, parcel) else {
            return Stage::NoMemory;
        };
        Stage::Staged
    }

    /// The number of the next session, at most 2^63. It takes no memory.
    pub fn next_number(&self) -> u64
        ensures value { result ≡ self.now.next }
        ensures limit { result ≤ number_end }
    {
        self.next
    }

    /// How many sessions are open. It takes no memory.
    pub fn count(&self) -> u64
        ensures { result ≡ count_by is_open self.now.sessions }
    {
        self.open_count
    }
}
