//! What each state of a history keeps.
ghost use Rattle.std.specs.Prelude.{ℕ, List, Option, IsTrue};
ghost use Rattle.outside.specs.Moments.{Moments};
ghost use Rattle.repo_model.specs.Settings.{Settings};
ghost use Rattle.repo_model.specs.State.{State, opening};
ghost use Rattle.repo_model.specs.Effect.{Effect, with_effect};
ghost use Rattle.repo_model.specs.May.{May, AllMay};
ghost use Rattle.repo_model.specs.Command.{Command, meets};
ghost use Rattle.repo_model.specs.Turn.{turn};
ghost use Rattle.repo_model.specs.History.{Entry, Fits, Legal, after, end};
ghost use Rattle.repo_laws.specs.Sound.{AreNamedApart, Sound, IsSound};

/// In a state in order all that a turn does may be done, and what may be done keeps the state in order.
pub fn turns_may()
    ensures turn { (settings : Settings) (now : ℕ) (s : State) (c : Command) → AreNamedApart settings.hosted → Sound settings s
        → IsTrue (meets settings c) → AllMay settings.grace now s (turn settings s now c).effects }
    ensures effect { (settings : Settings) (grace now : ℕ) (s : State) (e : Effect) → May grace now s e → Sound settings s
        → Sound settings (with_effect s e) }
{}

/// The opening state is sound, an entry leaves a sound state sound, and so does a legal history. In a sound state the
/// repositories are those of the settings, their rows in byte order of path, each path once; each blob number stands in one
/// place at most; what fades is a snapshot's.
pub fn states_stay_sound()
    ensures opening { (settings : Settings) (clock : Option Moments) → IsSound settings (opening settings clock) }
    ensures entry { (settings : Settings) (old : State) (e : Entry) → AreNamedApart settings.hosted → IsSound settings old
        → Fits settings old e → IsSound settings (after settings old e) }
    ensures history { (settings : Settings) (start : State) (entries : List Entry) → AreNamedApart settings.hosted → IsSound settings start
        → Legal settings start entries → IsSound settings (end settings start entries) }
{}
