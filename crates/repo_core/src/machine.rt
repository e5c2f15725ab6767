//! The parts of the repository, and one turn of them.
ghost use Rattle.std.specs.Prelude.{◌≡◌};

use blob_yard::{DrawFault, Yard};
use deploy_session::Sessions;
use group_view::GroupShelf;
use hosted_repo::Hosted;
use mvn_digest::Digest;
use outside::{Clock, Held, Parcel};
use proxy_rules::Proxy;
use repo_config::Settings;
use repo_model::{Command, Finding, Numbers, Place, Question, Reply};
use repo_parts::{
    Asked, Gone, Goods, changed_by_put, changed_by_unlist, compare_side, condemn_all, counts,
    counts_kept, drop_expired, expiring, forget, look, next_moment, reply_of_abort, reply_of_begin,
    reply_of_commit, reply_of_put, repo_mut, settle_put, takes,
};
use row_tables::{CommitFault, Records};
use std::marker::Model;

/// Hosted repositories with their rows, proxies with what they keep, a shelf for each group, the numbers of blobs, the sessions, and the
/// last moment.
#[derive(Drop)]
pub struct Stock<H: Held> {
    pub repos: Vec<Hosted<H>>,
    pub proxies: Vec<Proxy<H>>,
    pub shelves: Vec<GroupShelf>,
    pub yard: Yard,
    pub sessions: Sessions<H>,
    pub last: u64,
}

/// Hosted repositories with their rows, proxies with what they keep, a shelf for each group with documents of its members, the numbers
/// of blobs, the sessions, a clock, the settings, and how many calls there were.
#[derive(Drop)]
pub struct Machine<C: Clock, H: Held> {
    settings: Settings,
    pub(crate) repos: Vec<Hosted<H>>,
    pub(crate) proxies: Vec<Proxy<H>>,
    pub(crate) shelves: Vec<GroupShelf>,
    pub(crate) yard: Yard,
    pub(crate) sessions: Sessions<H>,
    pub(crate) last: u64,
    clock: C,
    calls: u64,
}

impl<C: Clock, H: Held> Model for Machine<C, H> {
    ghost use Rattle.std.specs.Prelude.{◌≡◌, ◌≤◌};
    ghost use Rattle.repo_model.specs.History.{latest_moment};
    ghost use Rattle.repo_core.specs.Whole.{Parts};

    ghost Value = { Parts };

    ghost use Rattle.repo_parts.specs.Hosted.{rules_of, AreInUse};
    ghost use Rattle.repo_parts.specs.Deploys.{AreStagedInUse};
    ghost use Rattle.repo_parts.specs.Proxies.{AreCachedInUse, proxy_rules_of};
    ghost use Rattle.repo_parts.specs.Shelves.{AreShelved};

    ghost view = { λ c. record {
      settings = c.settings;
      state = record {
        hosted = c.repos.items;
        proxies = c.proxies.items;
        sessions = c.sessions.sessions;
        yard = c.yard.yard;
        last = c.last;
        clock = C.moments c.clock;
        faults = 0;
      };
      calls = c.calls;
    } };

    ghost invariant = { λ c. record {
      moment : c.last ≤ latest_moment;
      blobs : AreInUse c.yard.kept c.repos.items;
      cached : AreCachedInUse c.yard.kept c.proxies.items;
      rules : rules_of c.repos.items ≡ c.settings.hosted;
      proxy_rules : proxy_rules_of c.proxies.items ≡ c.settings.proxies;
      staged : AreStagedInUse c.yard.kept c.sessions.sessions;
      numbers : c.yard.yard.next_session ≡ c.sessions.next;
      shelved : AreShelved c.settings.groups c.repos.items c.proxies.items c.shelves.items;
    } };
}

impl<C: Clock, H: Held> Machine<C, H> {
    ghost use Rattle.std.specs.Prelude.{◌≡◌, ◌≤◌, ◌+◌, min, map, false, [], IfSome, IsTrue, vec_capacity};
    ghost use Rattle.mvn_digest.specs.Sides.{bytes_in};
    ghost use Rattle.outside.specs.Faults.{last_count};
    ghost use Rattle.repo_model.specs.Data.{repository};
    ghost use Rattle.repo_model.specs.Command.{meets, look, may_put, put, put_side, drop_draft, unlist, collect, ask};
    ghost use Rattle.repo_model.specs.declared.question.Question.TheVariants.{Status};
    ghost use Rattle.repo_model.specs.Asked.{finding_of};
    ghost use Rattle.repo_model.specs.History.{Fits, after, latest_moment};
    ghost use Rattle.repo_model.specs.Purge.{expire_all, most_rows};
    ghost use Rattle.repo_model.specs.Reply.{is_free};
    ghost use Rattle.repo_model.specs.Shown.{shown_parcel, shown_command, shown_reply, entry_of};
    ghost use Rattle.row_tables.specs.Leaving.{Leaves, MayTake, end_by};
    ghost use Rattle.row_tables.specs.Crashing.{tried};
    ghost use Rattle.hosted_repo.specs.Expired.{blob_of};
    ghost use Rattle.repo_parts.specs.Deploys.{AreStagedInUse};
    ghost use Rattle.repo_parts.specs.Hosted.{AreInUse, rules_of};
    ghost use Rattle.repo_parts.specs.Proxies.{AreCachedInUse, proxy_rules_of};
    ghost use Rattle.repo_parts.specs.Purge.{shares};
    ghost use Rattle.repo_parts.specs.Shelves.{AreShelved};
    ghost use Rattle.repo_core.specs.Stock.{state_of};
    ghost use Rattle.repo_core.specs.Turn.{IsSettled, IsSettledBy, MayRecord, Recorded, Turned, items_due};
    ghost use Rattle.repo_core.specs.Whole.{IsOrderly, counting};

    /// The repository that begins with a stock of files, numbers and sessions.
    pub fn of(settings: Settings, stock: Stock<H>, clock: C) -> Machine<C, H>
        requires moment { stock.last ≤ latest_moment }
        requires blobs { AreInUse stock.yard.kept stock.repos.items }
        requires cached { AreCachedInUse stock.yard.kept stock.proxies.items }
        requires rules { rules_of stock.repos.items ≡ settings.hosted }
        requires proxy_rules { proxy_rules_of stock.proxies.items ≡ settings.proxies }
        requires staged { AreStagedInUse stock.yard.kept stock.sessions.sessions }
        requires numbers { stock.yard.yard.next_session ≡ stock.sessions.next }
        requires shelved { AreShelved settings.groups stock.repos.items stock.proxies.items stock.shelves.items }
        ensures settings { result.settings ≡ settings }
        ensures state { result.state ≡ state_of stock (C.moments clock) }
        ensures calls { result.calls ≡ 0 }
    {
        let Stock {
            repos,
            proxies,
            shelves,
            yard,
            sessions,
            last,
        } = stock;
        Machine {
            settings,
            repos,
            proxies,
            shelves,
            yard,
            sessions,
            last,
            clock,
            calls: 0,
        }
    }

    /// One turn: reads the clock once, and answers the command. What it does is recorded first.
    ///
    /// The command meets its condition, the state is in order, and the records may commit what the command does. The turn is an
    /// entry that fits the machine's state with the count of the records, and leaves the state that the machine says; the
    /// tables, where told, are those with its items. `Done` and `Drop` take no memory. When memory runs out, or the records
    /// fail, nothing changes but the moment.
    pub fn call<K: Records>(&mut self, records: &mut K, command: Command<H>) -> Reply<H>
        requires meets { IsTrue (meets self.old.settings (shown_command command)) }
        requires orderly { IsOrderly self.old }
        requires records { MayRecord self.old (K.shows records.old) (shown_command command) }
        ensures fits { Fits self.old.settings (counting (K.shows records.old).faults self.old.state)
            (entry_of command self.new.state.last result (K.shows records.new).faults) }
        ensures after { counting (K.shows records.new).faults self.new.state ≡ after self.old.settings (counting (K.shows records.old).faults self.old.state)
            (entry_of command self.new.state.last result (K.shows records.new).faults) }
        ensures records { Leaves (tried self.old.settings (counting (K.shows records.old).faults self.old.state)
            (entry_of command self.new.state.last result (K.shows records.new).faults)) (end_by (shown_reply result)) (K.shows records.old) (K.shows records.new) }
        ensures settled { IsSettled (shown_command command) (shown_reply result) (K.shows records.new).unsettled }
        ensures settings { self.new.settings ≡ self.old.settings }
        ensures calls { self.new.calls ≡ min (self.old.calls + 1) last_count }
    {
        self.last = next_moment(&mut self.clock, self.last);
        self.calls = self.calls.saturating_add(1);
        self.answer(records, command)
    }

    /// The settings.
    pub fn settings(&self) -> &Settings
        ensures { result.now ≡ self.now.settings }
    {
        &self.settings
    }

    /// How many calls there were; the count stays at 2^64 - 1.
    pub fn calls(&self) -> u64
        ensures { result ≡ self.now.calls }
    {
        self.calls
    }

    /// Gives the clock back.
    pub fn end(self) -> C
        ensures { C.moments result ≡ self.state.clock }
    {
        let Machine {
            settings: _,
            repos: _,
            proxies: _,
            shelves: _,
            yard: _,
            sessions: _,
            last: _,
            clock,
            calls: _,
        } = self;
        clock
    }

    // The answer at the turn's moment.
    fn answer<K: Records>(&mut self, records: &mut K, command: Command<H>) -> Reply<H>
        requires meets { IsTrue (meets self.old.settings (shown_command command)) }
        requires orderly { IsOrderly self.old }
        requires records { MayTake (items_due self.old (shown_command command)) (K.shows records.old) }
        ensures turn { Recorded self.old self.new (shown_command command) (shown_reply result) (K.shows records.old) (K.shows records.new) }
        ensures settled { IsSettled (shown_command command) (shown_reply result) (K.shows records.new).unsettled }
    {
        match command {
            Command::Look { repo, path, tried } => {
                self.look(repo.as_str(), path.as_str(), tried.as_slice())
            }
            Command::Done { lease } => {
                self.yard.done(lease);
                Reply::Done
            }
            Command::MayPut { place, path } => match place {
                Place::Repository(repo) => self.may_put(repo.as_str(), path.as_str()),
                Place::Session(number) => self.may_stage(number, path.as_str()),
            },
            Command::Put {
                repo,
                path,
                draft,
                parcel,
            } => self.put(records, repo.as_str(), path.as_str(), draft, parcel),
            Command::PutSide { place, path, said } => match place {
                Place::Repository(repo) => self.put_side(repo.as_str(), path.as_str(), said),
                Place::Session(number) => self.stage_side(number, path.as_str(), said),
            },
            Command::PutDoc { place, path } => match place {
                Place::Repository(_) => Reply::Noted,
                Place::Session(number) => self.note(number, path.as_str()),
            },
            Command::Drop { draft } => self.drop_draft(draft),
            Command::Open { repo } => reply_of_begin(self.open(records, repo.as_str())),
            Command::Stage {
                session,
                path,
                draft,
                parcel,
            } => self.stage(session, path.as_str(), draft, parcel),
            Command::Commit { session } => reply_of_commit(self.commit(records, session)),
            Command::Abort { session } => reply_of_abort(self.abort(records, session)),
            Command::Unlist { repo } => self.unlist(records, repo.as_str()),
            Command::Collect => self.collect(records),
            Command::Ask(question) => self.ask(question),
            Command::Land { plan, outcome } => self.land(records, plan, outcome),
        }
    }

    fn look(&mut self, repo: &str, path: &str, tried: &[u64]) -> Reply<H>
        ensures { Turned self.old self.new (look repo.now path.now tried.now) (shown_reply result) }
    {
        let alloc = *self.repos.allocator();
        let goods = Goods {
            repos: &self.repos,
            proxies: &self.proxies,
        };
        let asked = Asked {
            moment: self.last,
            tried,
            path,
        };
        look(
            alloc,
            &self.settings,
            &goods,
            &mut self.shelves,
            &mut self.yard,
            repo,
            &asked,
        )
    }

    fn may_put(&mut self, repo: &str, path: &str) -> Reply<H>
        ensures { Turned self.old self.new (may_put (repository repo.now) path.now) (shown_reply result) }
    {
        if !takes(&self.repos, repo, path) {
            return Reply::KindRefused;
        }
        match self.yard.draft() {
            Ok(draft) => Reply::Draft(draft),
            Err(DrawFault::Spent) => Reply::Spent,
            Err(DrawFault::NoMemory) => Reply::NoMemory,
        }
    }

    fn put<K: Records>(
        &mut self,
        records: &mut K,
        repo: &str,
        path: &str,
        draft: u64,
        parcel: Parcel<H>,
    ) -> Reply<H>
        requires meets { IsTrue (meets self.old.settings (put repo.now path.now draft (shown_parcel parcel))) }
        requires orderly { IsOrderly self.old }
        requires records { MayTake (items_due self.old (put repo.now path.now draft (shown_parcel parcel))) (K.shows records.old) }
        ensures { Recorded self.old self.new (put repo.now path.now draft (shown_parcel parcel)) (shown_reply result) (K.shows records.old) (K.shows records.new) }
    {
        if !self.yard.is_draft(draft) {
            return Reply::NoDraft;
        }
        let outcome = repo_mut(&mut self.repos, repo).put(records, path, parcel, self.last);
        forget(&mut self.shelves, &changed_by_put(path, &outcome));
        settle_put(&mut self.yard, draft, &outcome);
        reply_of_put(outcome)
    }

    fn put_side(&mut self, repo: &str, path: &str, said: Digest) -> Reply<H>
        ensures { Turned self.old self.new (put_side (repository repo.now) path.now (bytes_in said)) (shown_reply result) }
    {
        compare_side(&self.repos, repo, path, said)
    }

    fn drop_draft(&mut self, draft: u64) -> Reply<H>
        ensures { Turned self.old self.new (drop_draft draft) (shown_reply result) }
    {
        self.yard.drop_draft(draft);
        Reply::Dropped
    }

    fn unlist<K: Records>(&mut self, records: &mut K, repo: &str) -> Reply<H>
        requires meets { IsTrue (meets self.old.settings (unlist repo.now)) }
        requires orderly { IsOrderly self.old }
        requires records { MayTake (items_due self.old (unlist repo.now)) (K.shows records.old) }
        ensures { Recorded self.old self.new (unlist repo.now) (shown_reply result) (K.shows records.old) (K.shows records.new) }
    {
        let did = repo_mut(&mut self.repos, repo).unlist(records, self.last);
        forget(&mut self.shelves, &changed_by_unlist(did));
        match did {
            Ok(count) => Reply::Unlisted(count),
            Err(row_tables::CommitFault::Failed) => Reply::StoreFault,
            Err(row_tables::CommitFault::NoMemory) => Reply::NoMemory,
        }
    }

    // Collect always commits, an empty change too, so that nothing is given out to be removed that a failed commit may name.
    fn collect<K: Records>(&mut self, records: &mut K) -> Reply<H>
        requires orderly { IsOrderly self.old }
        requires records { MayTake (items_due self.old collect) (K.shows records.old) }
        ensures turn { Recorded self.old self.new collect (shown_reply result) (K.shows records.old) (K.shows records.new) }
        ensures settled { IsSettledBy (shown_reply result) (K.shows records.new).unsettled }
    {
        let alloc = *self.repos.allocator();
        let grace = self.settings.grace_seconds();
        let Ok(gone) = expiring(alloc, &self.repos, grace, self.last) else {
            return Reply::NoMemory;
        };
        let Ok(blobs) = Vec::with_capacity(alloc, 100) else {
            return Reply::NoMemory;
        };
        match records.commit(alloc, &gone.change) {
            Ok(()) => self.drop_gone(grace, &gone, blobs),
            Err(CommitFault::Failed) => Reply::StoreFault,
            Err(CommitFault::NoMemory) => Reply::NoMemory,
        }
    }

    // Takes rows away that were found, and gives garbage out.
    fn drop_gone(&mut self, grace: u64, gone: &Gone, mut blobs: Vec<u64>) -> Reply<H>
        requires orderly { IsOrderly self.old }
        requires grace { grace ≡ self.old.settings.grace }
        requires counts { gone.now.counts.items ≡ shares grace self.old.state.last most_rows self.old.state.hosted }
        requires gone { gone.now.blobs.items ≡ map blob_of (expire_all grace self.old.state.last self.old.state.hosted) }
        requires empty { blobs.items ≡ [] }
        requires room { 100 ≤ vec_capacity blobs }
        ensures turn { Turned self.old self.new collect (shown_reply result) }
        ensures due { is_free (shown_reply result) ≡ false }
    {
        drop_expired(&mut self.repos, grace, self.last, &gone.counts);
        condemn_all(&mut self.yard, &gone.blobs);
        self.yard.collect(&mut blobs);
        Reply::Collected {
            expired: gone.blobs.len() as u64,
            blobs: Numbers::from_vec(blobs),
        }
    }

    fn ask(&mut self, question: Question) -> Reply<H>
        requires { IsOrderly self.old }
        ensures { Turned self.old self.new (ask question) (shown_reply result) }
    {
        match self.find(question) {
            Some(finding) => Reply::Found(finding),
            None => Reply::NoMemory,
        }
    }

    // What is found to a question; none when memory runs out.
    fn find(&self, question: Question) -> Option<Finding>
        requires { IsOrderly self.now }
        ensures { IfSome result (λ finding. finding ≡ finding_of self.now.state question) }
    {
        match question {
            Question::Status => self.counted(),
        }
    }

    // How much there is. So many documents that there is no number of them would have taken more memory than there is.
    fn counted(&self) -> Option<Finding>
        requires { IsOrderly self.now }
        ensures { IfSome result (λ finding. finding ≡ finding_of self.now.state Status) }
    {
        let (files, fading) = counts(&self.repos);
        let (cached, documents) = counts_kept(&self.proxies)?;
        Some(Finding::Counts {
            files,
            fading,
            cached,
            documents,
            sessions: self.sessions.count(),
        })
    }
}
