// A run of the program over memory. It is made in small functions of their own, so that what it promises is not carried through the
// others.
ghost use Rattle.std.specs.Prelude.{◌<◌, vec_len};

use crate::objects::{MemCleaner, MemDesk, MemPort};
use core_steps::CaseBlobs;
use outside::{Blobs, Clock, Port, Sink, Source};
use outside_memory::{MemSink, MemSource, ScriptClock};
use outside_pace::{Pace, ScriptPace};
use outside_remote::{Remote, ScriptRemote};
use repo_run::{Ran, run_once};
use row_tables::Records;
use run_desks::{Cleaner, Desk};
use std::alloc::Global;

/// A run of which nothing is known: what it wrote is compared byte for byte.
fn run_plainly<B: Blobs, S: Source, P: Port, R: Remote, Q: Pace, K: Records, C: Clock, O: Sink>(
    alloc: Global,
    words: &[String],
    settings: &mut S,
    desks: Vec<Desk<P, B, R>>,
    cleaner: Cleaner<B, Q>,
    records: K,
    clock: C,
    out: &mut O,
) -> Ran<P, B, R, Q, K, C>
    requires { 0 < vec_len desks }
{
    run_once(alloc, words, settings, desks, cleaner, records, clock, out)
}

/// What a run has beside its desks and its records.
#[derive(Drop)]
pub(crate) struct Beside {
    pub(crate) settings: MemSource,
    pub(crate) cleaner: MemCleaner,
    pub(crate) clock: ScriptClock,
    pub(crate) out: MemSink,
}

/// What a run has left beside its records.
#[derive(Drop)]
pub(crate) struct Over {
    pub(crate) desk: MemDesk,
    pub(crate) cleaner: MemCleaner,
    pub(crate) out: MemSink,
    pub(crate) status: u8,
}

/// What a run over these records gives back.
type MemRan<K> = Ran<MemPort, CaseBlobs, ScriptRemote, ScriptPace, K, ScriptClock>;

/// What a run has left, and its records. Nothing where it has no desk.
fn over_of<K: Records + Drop>(ran: MemRan<K>, out: MemSink) -> Option<(Over, K)> {
    let Ran {
        status,
        mut desks,
        cleaner,
        records,
        clock: _,
    } = ran;
    let desk: MemDesk = desks.pop()?;
    let over = Over {
        desk,
        cleaner,
        out,
        status,
    };
    Some((over, records))
}

/// Runs the program with these words over these records.
pub(crate) fn run_over<K: Records + Drop>(
    alloc: Global,
    words: &[String],
    desks: Vec<MemDesk>,
    beside: Beside,
    records: K,
) -> Option<(Over, K)>
    requires { 0 < vec_len desks }
{
    let Beside {
        settings,
        cleaner,
        clock,
        out,
    } = beside;
    let mut settings = settings;
    let mut out = out;
    let ran: MemRan<K> = run_plainly(
        alloc,
        words,
        &mut settings,
        desks,
        cleaner,
        records,
        clock,
        &mut out,
    );
    over_of(ran, out)
}
