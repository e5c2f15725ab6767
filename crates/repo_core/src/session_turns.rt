//! The commands of deployment sessions, as turns of the repository's parts.
use crate::machine::Machine;
use deploy_session::{Abort, Begin, Commit, Stage};
use mvn_digest::Digest;
use outside::{Clock, Held, Parcel};
use repo_model::Reply;
use repo_parts::{
    changed_by_commit, commit, compare_staged, condemn_left, condemn_over, drawn, forget,
    refusal_at, reply_of_stage, settle_begun, settle_staged,
};
use row_tables::Records;

impl<C: Clock, H: Held> Machine<C, H> {
    ghost use Rattle.std.specs.Prelude.{IsTrue};
    ghost use Rattle.mvn_digest.specs.Sides.{bytes_in};
    ghost use Rattle.repo_model.specs.Data.{session};
    ghost use Rattle.repo_model.specs.Command.{meets, may_put, put_side, put_doc, open_session, stage, commit, abort};
    ghost use Rattle.repo_model.specs.Shown.{shown_parcel, shown_reply};
    ghost use Rattle.repo_model.specs.State.{is_among};
    ghost use Rattle.row_tables.specs.Leaving.{MayTake};
    ghost use Rattle.deploy_session.specs.Shown.{shown_abort, shown_begin, shown_commit, shown_stage};
    ghost use Rattle.repo_core.specs.Turn.{Recorded, Turned, items_due};
    ghost use Rattle.repo_core.specs.Whole.{IsOrderly};

    /// Draws a draft for a file of the session of a number, where it may be staged.
    pub(crate) fn may_stage(&mut self, number: u64, path: &str) -> Reply<H>
        ensures { Turned self.old self.new (may_put (session number) path.now) (shown_reply result) }
    {
        match refusal_at(&self.sessions, &self.repos, number, path) {
            Some(reply) => reply,
            None => drawn(&mut self.yard),
        }
    }

    /// Compares a side file with its file in a session.
    pub(crate) fn stage_side(&mut self, number: u64, path: &str, said: Digest) -> Reply<H>
        ensures { Turned self.old self.new (put_side (session number) path.now (bytes_in said)) (shown_reply result) }
    {
        compare_staged(&self.sessions, number, path, said)
    }

    /// A document of a session is heard of: it is computed.
    pub(crate) fn note(&mut self, number: u64, path: &str) -> Reply<H>
        ensures { Turned self.old self.new (put_doc (session number) path.now) (shown_reply result) }
    {
        let _ = path;
        match self.sessions.opened(number) {
            Some(_) => Reply::Noted,
            None => Reply::NoSession,
        }
    }

    /// Opens a session.
    pub(crate) fn open<K: Records>(&mut self, records: &mut K, repo: &str) -> Begin
        requires records { MayTake (items_due self.old (open_session repo.now)) (K.shows records.old) }
        ensures { Recorded self.old self.new (open_session repo.now) (shown_begin result) (K.shows records.old) (K.shows records.new) }
    {
        let begun = self.sessions.begin(records, repo);
        settle_begun(&mut self.yard, begun);
        begun
    }

    /// Stages a blob, whose draft may not be there.
    pub(crate) fn stage(
        &mut self,
        number: u64,
        path: &str,
        draft: u64,
        parcel: Parcel<H>,
    ) -> Reply<H>
        requires meets { IsTrue (meets self.old.settings (stage number path.now draft (shown_parcel parcel))) }
        requires orderly { IsOrderly self.old }
        ensures { Turned self.old self.new (stage number path.now draft (shown_parcel parcel)) (shown_reply result) }
    {
        if !self.yard.is_draft(draft) {
            return Reply::NoDraft;
        }
        reply_of_stage(self.stage_draft(number, path, draft, parcel))
    }

    // Stages a blob that was stored under a draft.
    fn stage_draft(&mut self, number: u64, path: &str, draft: u64, parcel: Parcel<H>) -> Stage
        requires meets { IsTrue (meets self.old.settings (stage number path.now draft (shown_parcel parcel))) }
        requires draft { IsTrue (is_among draft self.old.state.yard.drafts) }
        requires orderly { IsOrderly self.old }
        ensures { Turned self.old self.new (stage number path.now draft (shown_parcel parcel)) (shown_stage result) }
    {
        let did = self.sessions.stage(number, path, parcel);
        settle_staged(&mut self.yard, draft, did);
        did
    }

    /// Deploys a session's files.
    pub(crate) fn commit<K: Records>(&mut self, records: &mut K, number: u64) -> Commit
        requires orderly { IsOrderly self.old }
        requires records { MayTake (items_due self.old (commit number)) (K.shows records.old) }
        ensures { Recorded self.old self.new (commit number) (shown_commit result) (K.shows records.old) (K.shows records.new) }
    {
        let did = commit(
            &mut self.repos,
            &mut self.sessions,
            records,
            number,
            self.last,
        );
        forget(&mut self.shelves, &changed_by_commit(&did));
        condemn_over(&mut self.yard, &did);
        did
    }

    /// Gives a session up.
    pub(crate) fn abort<K: Records>(&mut self, records: &mut K, number: u64) -> Abort
        requires orderly { IsOrderly self.old }
        requires records { MayTake (items_due self.old (abort number)) (K.shows records.old) }
        ensures { Recorded self.old self.new (abort number) (shown_abort result) (K.shows records.old) (K.shows records.new) }
    {
        let did = self.sessions.abort(records, number);
        condemn_left(&mut self.yard, &did);
        did
    }
}
