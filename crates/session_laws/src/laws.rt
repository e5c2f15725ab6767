//! The laws of the limits of sessions.
ghost use Rattle.std.specs.Prelude.{◌≡◌, ◌↔◌, ◌⊎◌, ℕ, List, Option, IsTrue};
ghost use Rattle.outside.specs.Moments.{Moments};
ghost use Rattle.repo_model.specs.Settings.{Settings};
ghost use Rattle.repo_model.specs.State.{State, opening};
ghost use Rattle.repo_model.specs.Effect.{Effect, with_effect};
ghost use Rattle.repo_model.specs.May.{May};
ghost use Rattle.repo_model.specs.Command.{Command};
ghost use Rattle.repo_model.specs.Reply.{Reply, no_memory};
ghost use Rattle.repo_model.specs.Turn.{turn};
ghost use Rattle.repo_model.specs.Tables.{Tables};
ghost use Rattle.repo_model.specs.Restart.{started};
ghost use Rattle.repo_model.specs.History.{Entry, Fits, Legal, after, end};
ghost use Rattle.repo_laws.specs.Sound.{AreNamedApart, IsSound};
ghost use Rattle.session_laws.specs.Limits.{KeepsLimits, is_full, IsAtLimit};

/// At most 64 sessions are open, and each has at most 1,000 staged files: in the opening state, after a start over any tables,
/// after each effect that may be done, and after an entry and a legal history from a sound state that keeps these limits.
pub fn sessions_keep_their_limits()
    ensures opening { (settings : Settings) (clock : Option Moments) → KeepsLimits (opening settings clock) }
    ensures started { (settings : Settings) (tells : ℕ → Option (List ℕ)) (stored : List ℕ) (clock : Option Moments) (faults : ℕ) (t : Tables)
        → KeepsLimits (started settings tells stored clock faults t) }
    ensures effect { (grace now : ℕ) (s : State) (e : Effect) → May grace now s e → KeepsLimits s → KeepsLimits (with_effect s e) }
    ensures entry { (settings : Settings) (old : State) (e : Entry) → AreNamedApart settings.hosted → IsSound settings old → KeepsLimits old
        → Fits settings old e → KeepsLimits (after settings old e) }
    ensures history { (settings : Settings) (start : State) (entries : List Entry) → AreNamedApart settings.hosted → IsSound settings start
        → KeepsLimits start → Legal settings start entries → KeepsLimits (end settings start entries) }
{}

/// Where the limits are kept, `sessions_full` is the reply of a turn exactly to an Open while just 64 sessions are open, and
/// `session_full` exactly to a MayPut of a file that the repository takes, or a Stage of a draft, for an open session that has
/// just 1,000 files, none of them at the path. So is it of an entry, but when memory runs out.
pub fn full_is_at_the_limit()
    ensures turn { (settings : Settings) (s : State) (now : ℕ) (c : Command) (r : Reply) → KeepsLimits s → IsTrue (is_full r)
        → ((turn settings s now c).reply ≡ r) ↔ IsAtLimit s c r }
    ensures entry { (settings : Settings) (old : State) (e : Entry) → Fits settings old e → KeepsLimits old → IsTrue (is_full e.reply)
        → IsAtLimit old e.command e.reply }
    ensures comes { (settings : Settings) (old : State) (e : Entry) (r : Reply) → Fits settings old e → IsTrue (is_full r)
        → IsAtLimit old e.command r → (e.reply ≡ r) ⊎ (e.reply ≡ no_memory) }
{}
