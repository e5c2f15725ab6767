//! Runs in memory.
use crate::runs::status_of_run;
use crate::stock::{cleaner_over, desks_with};
use outside::{NoMemory, Source, Stream};
use outside_memory::{FaultScript, MemBlobs, MemLink, MemSource, ScriptClock};
use outside_system::WriterSink;
use repo_run::Wanted;
use row_tables::MemRecords;
use std::alloc::Global;
use std::sync::Wait;
use std::thread::Threads;

fn memory_blobs(alloc: Global) -> MemBlobs {
    MemBlobs::new(alloc, FaultScript::none(alloc))
}

/// The moment at which a demonstration begins, 2024-02-29T12:00:00Z, in seconds since 1970 in UTC, and by how many seconds its
/// clock goes on with each look.
const DEMO_MOMENT: u64 = 1_709_208_000;

const DEMO_STEP: u64 = 1;

/// The status of a run in memory, with these settings and connections. Its lines go to standard error.
pub fn status_in_memory<R: Threads + Wait + Sync, S: Source, L: Stream + Drop + Send>(
    threads: &R,
    rt: &HostRuntime,
    words: &[String],
    wanted: &Wanted,
    settings: &mut S,
    links: Vec<L>,
) -> Result<u8, NoMemory> {
    let alloc = rt.alloc();
    let desks = desks_with(alloc, links, memory_blobs(alloc))?;
    let cleaner = cleaner_over(alloc, memory_blobs(alloc))?;
    let records = MemRecords::new(alloc, Vec::new(alloc));
    let clock = ScriptClock::stepping(alloc, wanted.at, wanted.step);
    let mut out = WriterSink::new(rt.stderr());
    Ok(status_of_run(
        threads, alloc, words, settings, desks, cleaner, records, clock, &mut out,
    ))
}

/// The status of a demonstration: everything is in memory. Its lines go to standard output.
pub fn status_of_demo<R: Threads + Wait + Sync>(
    threads: &R,
    rt: &HostRuntime,
    words: &[String],
) -> Result<u8, NoMemory> {
    let alloc = rt.alloc();
    let mut settings = MemSource::new(Vec::new(alloc), 1, FaultScript::none(alloc));
    let links: Vec<MemLink> = Vec::new(alloc);
    let desks = desks_with(alloc, links, memory_blobs(alloc))?;
    let cleaner = cleaner_over(alloc, memory_blobs(alloc))?;
    let records = MemRecords::new(alloc, Vec::new(alloc));
    let clock = ScriptClock::stepping(alloc, DEMO_MOMENT, DEMO_STEP);
    let mut out = WriterSink::new(rt.stdout());
    Ok(status_of_run(
        threads,
        alloc,
        words,
        &mut settings,
        desks,
        cleaner,
        records,
        clock,
        &mut out,
    ))
}
