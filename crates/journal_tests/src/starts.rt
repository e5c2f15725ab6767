// Journals over stopped disks, and what a start finds in them. What is done with a journal stands in functions that know the trait of
// records alone, since a journal's own promises would be carried through each step of their proofs.
ghost use Rattle.std.specs.Prelude.{◌≡◌, None, IfOk};
ghost use Rattle.record_journal.specs.Journal.{tables_of};

use crate::crashing::Crashing;
use crate::images::disk_of;
use record_disk::{Disk, DiskScript, MemDisk};
use record_journal::Journal;
use repo_rows::take;
use row_tables::{ApplyFault, Change, CommitFault, Records, Tables};
use std::alloc::{AllocError, Global};

// A journal over a disk in memory.
pub type MemJournal = Journal<Crashing<MemDisk>>;

// The files of a journal without a change, and of one with the change of the first session.
pub const NEW: [u8; 9] = *b"MVNROWS1\0";

pub const ONE_SESSION: [u8; 28] = *b"MVNROWS1\x01\0\0\0\x0e\x02\0\0\0\x01\x07\0\0\0\0\0\0\0\x01\0";

// The change that opens the session of a number.
pub fn opened(number: u8) -> [u8; 14] {
    let mut bytes = *b"\x02\0\0\0\x01\x07\0\0\0\0\0\0\0\0";
    bytes[13] = number;
    bytes
}

// A journal over a disk that is stopped after so many calls.
pub fn over<D: Disk + Drop>(disk: D, calls: u64) -> Journal<Crashing<D>>
    ensures { tables_of result ≡ None }
{
    Journal::new(Crashing::new(disk, calls))
}

// The same over a disk in memory with this file, of which these calls fail when so many bytes are written.
pub fn journal_of(
    alloc: Global,
    file: &[u8],
    failing: &[u64],
    part: u64,
    calls: u64,
) -> Result<MemJournal, AllocError>
    ensures { IfOk result (λ j. tables_of j ≡ None) }
{
    let script = DiskScript::failing_at(failing.to_vec(alloc)?, part);
    Ok(over(disk_of(alloc, file, script)?, calls))
}

// The change of these bytes.
fn change_in(alloc: Global, bytes: &[u8]) -> Result<Change, AllocError> {
    match take(alloc, bytes) {
        Ok((change, _)) => Ok(change),
        Err(_) => Err(AllocError),
    }
}

/// How a call ended.
#[derive(Clone, Copy, Debug, PartialEq, Eq)]
pub enum End {
    Skipped,
    Done,
    Failed,
    NoMemory,
}

fn end_of(answer: Result<(), CommitFault>) -> End {
    match answer {
        Ok(()) => End::Done,
        Err(CommitFault::Failed) => End::Failed,
        Err(CommitFault::NoMemory) => End::NoMemory,
    }
}

fn add<R: Records>(alloc: Global, records: &mut R, change: &Change) -> End
    requires ready { (R.shows records.old).IsReady }
    requires untold { (R.shows records.old).tables ≡ None }
    ensures untold { (R.shows records.new).tables ≡ None }
    ensures ready { (R.shows records.new).IsReady }
{
    if !change.is_whole() {
        return End::NoMemory;
    }
    end_of(records.commit(alloc, change))
}

// Commits the change of these bytes, whose files have SHA-256 and SHA-512. Of no bytes there is nothing to commit.
pub fn commits<R: Records>(alloc: Global, records: &mut R, bytes: &[u8]) -> End
    requires ready { (R.shows records.old).IsReady }
    requires untold { (R.shows records.old).tables ≡ None }
    ensures untold { (R.shows records.new).tables ≡ None }
    ensures ready { (R.shows records.new).IsReady }
{
    if bytes.is_empty() {
        return End::Skipped;
    }
    match change_in(alloc, bytes) {
        Ok(change) => add(alloc, records, &change),
        Err(_) => End::NoMemory,
    }
}

// Whether records load.
pub fn loads<R: Records>(alloc: Global, records: &mut R) -> bool {
    records.load(alloc).is_ok()
}

// Loads records and opens this session; whether it got there.
pub fn opens<R: Records>(alloc: Global, records: &mut R, session: u8) -> bool
    requires { (R.shows records.old).tables ≡ None }
{
    match records.load(alloc) {
        Ok(_) => commits(alloc, records, &opened(session)) == End::Done,
        Err(_) => false,
    }
}

// The tables of records, where they load.
fn tables_in<R: Records>(alloc: Global, records: &mut R) -> Option<Tables> {
    records.load(alloc).ok()
}

// Whether the change of these bytes fits tables.
pub fn fits(alloc: Global, tables: &mut Tables, bytes: &[u8]) -> Result<bool, AllocError> {
    match tables.apply(alloc, &change_in(alloc, bytes)?) {
        Ok(()) => Ok(true),
        Err(ApplyFault::Misfit { .. }) => Ok(false),
        Err(ApplyFault::NoMemory) => Err(AllocError),
    }
}

// The last session that tables have, of less than 9.
pub fn last_session(alloc: Global, mut tables: Tables) -> Result<u8, AllocError> {
    for number in 0..8 {
        if fits(alloc, &mut tables, &opened(number + 1))? {
            return Ok(number);
        }
    }
    Err(AllocError)
}

// The last session that a start finds in this file; None where it is refused.
pub fn last_in(alloc: Global, file: &[u8]) -> Result<Option<u8>, AllocError> {
    let mut journal = journal_of(alloc, file, &[], 0, u64::MAX)?;
    match tables_in(alloc, &mut journal) {
        Some(tables) => Ok(Some(last_session(alloc, tables)?)),
        None => Ok(None),
    }
}
