//! The worked replay, run over objects in memory.
ghost use Rattle.std.specs.Prelude.{◌≡◌, ◌⊎◌, ◌<◌, List, ℕ, [], ◌∷◌, ◌++◌, map, length, Some, Ok, IfOk};
ghost use Rattle.std.specs.String.{string_bytes};
ghost use Rattle.std.specs.List.{AllByRecursion};
ghost use Rattle.course_laws.specs.AsPlayed.{WantedMemory};
ghost use Rattle.course_laws.specs.Worked.{abc_200, created_201, last_get, put_abc, worked_settings};
ghost use Rattle.repo_config.specs.Source.{IsReadFrom};
ghost use Rattle.repo_model.specs.Settings.{Settings};
ghost use Rattle.repo_run.specs.Words.{asked};
ghost use Rattle.repo_run.specs.declared.actions.Action.TheVariants.{Replay};

use outside::NoMemory;
use outside_memory::{
    FaultScript, MemBlobs, MemHeld, MemLink, MemSink, MemSource, ScriptClock, ScriptPort,
};
use outside_pace::ScriptPace;
use outside_remote::ScriptRemote;
use repo_run::{Ran, run_once, worked_replay};
use row_tables::MemRecords;
use run_desks::{Cleaner, Desk};
use std::alloc::Global;

/// Replays a connection that puts the worked file and gets it again, over a store and records in which nothing is kept.
///
/// Where the source says settings with the worked repositories, and the run ends with status 0 and neither the records nor the
/// blobs have failed, the connection came back and has taken the two worked answers byte for byte; or the last that it took
/// says that memory ran out.
pub fn replay_worked(
    alloc: Global,
    words: &[String],
    settings: &mut MemSource,
    link: MemLink,
    clock: ScriptClock,
    out: &mut MemSink,
) -> Result<
    Ran<ScriptPort<MemLink>, MemBlobs, ScriptRemote, ScriptPace, MemRecords, ScriptClock>,
    NoMemory,
>
    requires words { (asked (map string_bytes words.now)).command ≡ Replay }
    requires input { link.source.left ≡ put_abc ++ last_get }
    requires fresh { link.sink.taken ≡ [] }
    requires calm { (link.source.script.faults ≡ 0) × (link.sink.script.faults ≡ 0) }
    ensures { ((s : Settings) → IsReadFrom (Some settings.old.left) (Ok s) → (t : Settings) × (s ≡ worked_settings t)) →
        IfOk result (λ ran. ran.status ≡ 0 → ran.records.script.faults ≡ 0
        → (map (λ desk. length desk.port.given_back) ran.desks.items ≡ 1 ∷ [])
        × AllByRecursion (λ desk. desk.blobs.script.faults ≡ 0 → AllByRecursion (λ back.
        (back.sink.taken ≡ created_201 ++ abc_200) ⊎ WantedMemory [] (Some back.sink.taken)) desk.port.given_back) ran.desks.items) }
{
    worked_replay::<MemHeld>();
    let blobs = MemBlobs::new(alloc, FaultScript::none(alloc));
    let links = vec![in alloc; link]?;
    let port = ScriptPort::new(alloc, links, FaultScript::none(alloc))?;
    let remote = ScriptRemote::new(alloc, Vec::new(alloc), Vec::new(alloc));
    let desks = vec![in alloc;
        Desk {
            port,
            blobs,
            remote
        },
    ]?;
    let cleaner = Cleaner {
        blobs: MemBlobs::new(alloc, FaultScript::none(alloc)),
        pace: ScriptPace::new(alloc, Vec::new(alloc))?,
    };
    let records = MemRecords::new(alloc, Vec::new(alloc));
    Ok(run_once(alloc, words, settings, desks, cleaner, records, clock, out))
}
