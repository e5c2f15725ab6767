//! The law of the status that a replay ends with. No function here has code: its contract is the law.
ghost use Rattle.std.specs.Prelude.{◌≡◌, ◌⊎◌, ℕ};
ghost use Rattle.repo_course.specs.Serving.{AllTell};
ghost use Rattle.repo_run.specs.Replay.{ReplaysBy};
ghost use Rattle.repo_run.specs.Surroundings.{DeskState, View};
ghost use Rattle.memory_laws.specs.Failed.{HasFailed, IsStarved};

use outside::{Held, Port, Tells};

/// A replay ends with 0; or with 8 and its line, when memory ran out; or something of it has failed, which its status tells:
/// the count of faults rose of the source of its settings, of the records, the blobs, the port, a side of its connection or the
/// output, or its settings were refused, or what is recorded and stored, by what the start found there. So where its settings
/// are accepted, the start finds nothing and no count rose, it ends with 0, or with 8.
pub fn replays_end_by_their_cause<P: Port, H: Held>()
    ensures { (old new : View (DeskState P.Link)) (status : ℕ) → ReplaysBy (AllTell H.bytes) ⟦<P::Link as Tells>⟧ old new status →
        (status ≡ 0) ⊎ (IsStarved old.out new.out status ⊎ HasFailed ⟦<P::Link as Tells>⟧ old new status) }
{}
