//! The laws of the results of sessions.
ghost use Rattle.std.specs.Prelude.{◌≡◌, ℕ, List, [], ◌∷◌, ◌++◌, Option, Some, IsTrue};
ghost use Rattle.outside.specs.Moments.{Moments};
ghost use Rattle.repo_model.specs.declared.session.SessionResult.{SessionResult};
ghost use Rattle.repo_model.specs.Settings.{Settings};
ghost use Rattle.repo_model.specs.State.{State};
ghost use Rattle.repo_model.specs.Effect.{Effect, with_effect};
ghost use Rattle.repo_model.specs.Reply.{ended};
ghost use Rattle.repo_model.specs.Tables.{Tables};
ghost use Rattle.repo_model.specs.Restart.{started};
ghost use Rattle.repo_model.specs.History.{Entry, Fits, Legal, ticked, after, end};
ghost use Rattle.repo_laws.specs.Sound.{AreNamedApart, IsSound};
ghost use Rattle.repo_laws.specs.Holds.{InOrder, Holds, with_items, told, result_of};
ghost use Rattle.repo_laws.specs.InRange.{InRange, Completes};
ghost use Rattle.session_laws.specs.Ended.{ends_session, IsResultOrMemory};

/// A session that has ended keeps its result after each effect, each entry and all entries that follow, in any state, and over
/// a start after these from the tables that tell the state, once it has completed them, whatever settings it has.
pub fn results_are_kept()
    ensures effect { (s : State) (e : Effect) (n : ℕ) (r : SessionResult) → result_of s n ≡ Some r → result_of (with_effect s e) n ≡ Some r }
    ensures entry { (settings : Settings) (old : State) (e : Entry) (n : ℕ) (r : SessionResult) → result_of old n ≡ Some r
        → result_of (after settings old e) n ≡ Some r }
    ensures history { (settings : Settings) (start : State) (entries : List Entry) (n : ℕ) (r : SessionResult) → result_of start n ≡ Some r
        → result_of (end settings start entries) n ≡ Some r }
    ensures started { (settings later : Settings) (start : State) (t : Tables) (entries : List Entry) (tells : ℕ → Option (List ℕ)) (stored : List ℕ)
        (clock : Option Moments) (faults n : ℕ) (r : SessionResult) (whole : Tables) → AreNamedApart settings.hosted → IsSound settings start → InOrder t → InRange t → Holds t start
        → Legal settings start entries → result_of start n ≡ Some r → Completes (with_items t (told settings start entries)) whole
        → result_of (started later tells stored clock faults whole) n ≡ Some r }
{}

/// Once a commit or an abort was answered with the session's result, or the session has a result from before, each later commit
/// and abort of it is answered with that result, unless memory runs out, and changes nothing but the moment.
pub fn results_are_answered_again()
    ensures told { (settings : Settings) (old : State) (e : Entry) (n : ℕ) (r : SessionResult) → Fits settings old e → IsTrue (ends_session n e.command)
        → e.reply ≡ ended r → result_of (after settings old e) n ≡ Some r }
    ensures again { (settings : Settings) (old : State) (e : Entry) (n : ℕ) (r : SessionResult) → result_of old n ≡ Some r → Fits settings old e
        → IsTrue (ends_session n e.command) → IsResultOrMemory r e.reply × (after settings old e ≡ ticked old e.moment e.faults) }
    ensures history { (settings : Settings) (start : State) (one other : Entry) (between rest : List Entry) (n : ℕ) (r : SessionResult)
        → Legal settings start (one ∷ between ++ other ∷ rest) → IsTrue (ends_session n one.command) → one.reply ≡ ended r
        → IsTrue (ends_session n other.command) → IsResultOrMemory r other.reply }
{}
