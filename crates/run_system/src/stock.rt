//! What is made for more than one command.
ghost use Rattle.std.specs.Prelude.{◌≡◌, IfOk, vec_len};

use outside::{Blobs, NoMemory, Stream};
use outside_memory::{FaultScript, ScriptPort};
use outside_pace::ScriptPace;
use outside_remote::ScriptRemote;
use run_desks::{Cleaner, Desk};
use std::alloc::Global;

/// One desk, whose port gives these connections, and with no remote that answers.
pub fn desks_with<L: Stream + Drop, B: Blobs + Drop>(
    alloc: Global,
    links: Vec<L>,
    blobs: B,
) -> Result<Vec<Desk<ScriptPort<L>, B, ScriptRemote>>, NoMemory>
    ensures { IfOk result (λ desks. vec_len desks ≡ 1) }
{
    let port = ScriptPort::new(alloc, links, FaultScript::none(alloc))?;
    let mut desks = Vec::new(alloc);
    let remote = ScriptRemote::new(alloc, Vec::new(alloc), Vec::new(alloc));
    desks.push(Desk {
        port,
        blobs,
        remote,
    })?;
    Ok(desks)
}

/// A cleaner of these blobs whose timer wants no pass.
pub fn cleaner_over<B: Blobs + Drop>(
    alloc: Global,
    blobs: B,
) -> Result<Cleaner<B, ScriptPace>, NoMemory> {
    let pace = ScriptPace::new(alloc, Vec::new(alloc))?;
    Ok(Cleaner { blobs, pace })
}
