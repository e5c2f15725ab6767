//! What follows where a core serves alone. No function here has code: its contract is the law.
ghost use Rattle.std.specs.Prelude.{◌≡◌, ◌⊎◌, ◌+◌, ◌≤◌, ℕ, List, [], ◌++◌, length, min, Some};
ghost use Rattle.outside.specs.Faults.{last_count};
ghost use Rattle.outside.specs.Moments.{Moments};
ghost use Rattle.repo_core.specs.Whole.{Whole};
ghost use Rattle.repo_course.specs.declared.outcomes.End.{End};
ghost use Rattle.repo_course.specs.Serving.{AllTell, Outside, ServesStream};
ghost use Rattle.repo_model.specs.History.{Entry, Legal, end};
ghost use Rattle.repo_model.specs.Settings.{Settings};
ghost use Rattle.repo_model.specs.State.{State};
ghost use Rattle.repo_laws.specs.Sound.{IsSound};
ghost use Rattle.course_laws.specs.AsPlayed.{NoFaults, WantedMemory};
ghost use Rattle.course_laws.specs.Worked.{abc_200, created_201, last_get, put_abc, worked_settings};
ghost use Rattle.course_laws.specs.LeftBehind.{IsDrawn, LeavesNothing};
ghost use Rattle.repo_run.specs.Begun.{IsFresh};
ghost use Rattle.repo_run.specs.FirstConnection.{Makes};
ghost use Rattle.repo_run.specs.Replay.{AllTold, IsReplayed};
ghost use Rattle.repo_run.specs.Surroundings.{Served, View, outside_of};

use outside::Held;

/// The entries that lead from one state of the core to another are a legal history, whose end is the other, and the count
/// of calls rose by their number.
pub fn turns_are_a_history()
    ensures legal { (entries : List Entry) (old new : Whole) → Makes old entries new → Legal old.settings old.state entries
        × (new.state ≡ end old.settings old.state entries) × (new.settings ≡ old.settings) }
    ensures counted { (entries : List Entry) (old new : Whole) → old.calls ≤ last_count → Makes old entries new
        → new.calls ≡ min (old.calls + length entries) last_count }
{}

/// A core that serves a stream alone is left with no draft and no lease of it.
pub fn alone_nothing_is_left_behind<H: Held>()
    ensures { (n : ℕ) (entries : List Entry) (core core' : Whole) (old new : Outside) (ending : End) → IsDrawn core.state.yard →
        Makes core entries core' → ServesStream core.settings (AllTell H.bytes) n entries old new ending → LeavesNothing core.state.yard core'.state.yard }
{}

/// The worked PUT and GET of one file, as the connection of a replay over nothing that tells all, under settings whose hosted
/// repositories are the worked ones: where nothing failed it has taken the worked answers byte for byte and was closed, or
/// memory ran out.
pub fn worked_replay<H: Held>()
    ensures { (settings : Settings) (old new : View Served) (moments : Moments) (ending : End) (calls : ℕ) →
        IsReplayed (AllTell H.bytes) (worked_settings settings) old new ending calls → IsFresh old.records new.records old.place.resources.blobs →
        AllTold (AllTell H.bytes) old.clock old.place.connection moments (put_abc ++ last_get) [] → NoFaults (outside_of old.place) (outside_of new.place) →
        ((new.place.connection.taken ≡ Some (created_201 ++ abc_200)) × (ending ≡ End.Closed)) ⊎ WantedMemory [] new.place.connection.taken }
{}

/// In a sound state, as the core keeps it, the drafts and the leases that stand are below the numbers to be drawn.
pub fn sound_numbers_are_drawn()
    ensures { (settings : Settings) (s : State) → IsSound settings s → IsDrawn s.yard }
{}
