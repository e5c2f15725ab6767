// Records of either kind, and runs over them.
ghost use Rattle.std.specs.Prelude.{◌<◌, vec_len};

use crate::objects::MemDesk;
use crate::over::{Beside, Over, run_over};
use record_disk::{DiskRoom, DiskScript, MemDisk};
use record_journal::Journal;
use row_tables::MemRecords;
use std::alloc::{AllocError, Global};

/// Records of either kind, or none while a run has them.
#[derive(Drop)]
pub(crate) enum Recorded {
    Away,
    Journal(Journal<MemDisk>),
    Memory(MemRecords),
}

impl Recorded {
    /// The journal's file.
    pub(crate) fn file(&self) -> &[u8] {
        match self {
            Recorded::Journal(journal) => journal.disk().bytes(),
            _ => &[],
        }
    }
}

/// A journal over a disk in memory, which has this file, and of which these calls fail, a write among them after its first `part`
/// bytes.
pub(crate) fn journal_of(
    alloc: Global,
    file: &[u8],
    calls: &[u64],
    part: u64,
) -> Result<Journal<MemDisk>, AllocError> {
    let room = DiskRoom {
        file: 300_000,
        written: 300_000,
        calls: 100,
    };
    if file.len() > 300_000 {
        return Err(AllocError);
    }
    let script = DiskScript::failing_at(Vec::from_slice(alloc, calls)?, part);
    Ok(Journal::new(MemDisk::new(alloc, file, room, script)?))
}

/// Runs the program with these words over records of either kind. Nothing where it has no desk, or no records.
pub(crate) fn run_recorded(
    alloc: Global,
    words: &[String],
    desks: Vec<MemDesk>,
    beside: Beside,
    records: Recorded,
) -> Option<(Over, Recorded)>
    requires { 0 < vec_len desks }
{
    match records {
        Recorded::Away => None,
        Recorded::Journal(journal) => {
            let (over, journal) = run_over(alloc, words, desks, beside, journal)?;
            Some((over, Recorded::Journal(journal)))
        }
        Recorded::Memory(records) => {
            let (over, records) = run_over(alloc, words, desks, beside, records)?;
            Some((over, Recorded::Memory(records)))
        }
    }
}
