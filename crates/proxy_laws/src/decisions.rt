//! The laws of what proxies decide, and of what a look is answered.
ghost use Rattle.std.specs.Prelude.{◌≡◌, ◌↔◌, ℕ, Bool, List, None, Some, IsTrue, false};
ghost use Rattle.mvn_coords.specs.Kind.{kind};
ghost use Rattle.fetch_plan.specs.declared.Plan.{Plan};
ghost use Rattle.repo_model.specs.declared.step.Step.{Step};
ghost use Rattle.repo_model.specs.declared.step.Step.TheVariants.{Fetch};
ghost use Rattle.repo_model.specs.Settings.{Settings};
ghost use Rattle.repo_model.specs.Data.{Proxy};
ghost use Rattle.repo_model.specs.State.{State, hosted_of, proxy_of, is_among};
ghost use Rattle.repo_model.specs.Command.{look, group_rule_of, names_something};
ghost use Rattle.repo_model.specs.Proxies.{decided, subject_of};
ghost use Rattle.repo_model.specs.Reply.{Reply, fetches, is_free};
ghost use Rattle.repo_model.specs.Turn.{turn};
ghost use Rattle.repo_model.specs.History.{Entry, Fits};
ghost use Rattle.proxy_laws.specs.Decisions.{IsSubject, DecidedBy};
ghost use Rattle.proxy_laws.specs.Replies.{reply_of, can_answer};

/// What a proxy decides at the path of a file or document has its cause, and comes where there is one: patterns first, then what
/// is kept, whether it was tried, the policy, and what was missing.
pub fn decisions_have_causes()
    ensures { (p : Proxy) (now : ℕ) (tried : Bool) (at : List ℕ) (step : Step) → IsSubject (kind at)
        → (decided p now tried at ≡ step) ↔ DecidedBy p now tried at step }
{}

/// A look at a proxy is answered that nothing is there, that the path is blocked, that the remote had nothing, or that it is never
/// asked, exactly where the proxy decides so of the file or document of the path.
pub fn proxies_say_what_they_decide()
    ensures { (settings : Settings) (s : State) (now : ℕ) (id path tried : List ℕ) (p : Proxy) (step : Step) (r : Reply) → hosted_of id s ≡ None
        → group_rule_of id settings ≡ None → proxy_of id s ≡ Some p → IsTrue (names_something (kind path)) → reply_of step ≡ Some r
        → ((turn settings s now (look id path tried)).reply ≡ r) ↔ DecidedBy p now (is_among 0 tried) (subject_of path (kind path)) step }
{}

/// What a look says to fetch is needed: the plan's proxy lets its path through and may be asked, keeps no such file and no fresh
/// document, and does not remember that nothing was there. So no file that is kept is fetched again.
pub fn fetches_are_needed()
    ensures { (settings : Settings) (s : State) (now : ℕ) (id path tried : List ℕ) (plan : Plan) → (turn settings s now (look id path tried)).reply ≡ fetches plan
        → (p : Proxy) × (proxy_of plan.proxy s ≡ Some p) × DecidedBy p now (is_among plan.member tried) plan.path Fetch }
{}

/// A look at a hosted repository fetches nothing, and one at a group is never answered that a path is blocked, that nothing was
/// there, or that the remote is never asked.
pub fn looks_are_answered_by_sort()
    ensures turn { (settings : Settings) (s : State) (now : ℕ) (id path tried : List ℕ) → IsTrue (can_answer settings s id (turn settings s now (look id path tried)).reply) }
    ensures entry { (settings : Settings) (old : State) (e : Entry) (id path tried : List ℕ) → Fits settings old e → is_free e.reply ≡ false
        → e.command ≡ look id path tried → IsTrue (can_answer settings old id e.reply) }
{}
