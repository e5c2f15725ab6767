//! Runs over a folder.
use crate::runs::status_of_run;
use crate::stock::{cleaner_over, desks_with};
use data_folder::{ReportingDisk, blobs_in, find_disk};
use outside::NoMemory;
use outside_memory::MemLink;
use outside_system::{SystemClock, WriterSink, file_source};
use record_journal::Journal;
use repo_run::Wanted;
use std::sync::Wait;
use std::thread::Threads;

/// The status of a run over the folder that the words name, which has to be there. Its lines go to standard output.
pub fn status_over_folder<R: Threads + Wait + Sync>(
    threads: &R,
    rt: &HostRuntime,
    words: &[String],
    wanted: &Wanted,
) -> Result<u8, NoMemory> {
    let alloc = rt.alloc();
    let folder = wanted.folder.as_str();
    let mut settings = file_source(rt, wanted.settings.as_str());
    let links: Vec<MemLink> = Vec::new(alloc);
    let desks = desks_with(alloc, links, blobs_in(rt, folder)?)?;
    let cleaner = cleaner_over(alloc, blobs_in(rt, folder)?)?;
    let records = Journal::new(ReportingDisk::new(find_disk(rt, folder)?, rt.clone()?));
    let clock = SystemClock::new(rt.clone()?);
    let mut out = WriterSink::new(rt.stdout());
    Ok(status_of_run(
        threads,
        alloc,
        words,
        &mut settings,
        desks,
        cleaner,
        records,
        clock,
        &mut out,
    ))
}
