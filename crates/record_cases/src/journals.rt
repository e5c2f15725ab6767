// What loads of journals over a disk in memory come to. A journal is called in small functions alone, so that what it promises is not
// carried through the others.
use case_texts::{Tale, copied, run_together, shown};
use record_disk::{DiskRoom, DiskScript, MemDisk};
use record_journal::Journal;
use row_tables::{LoadFault, Records, Tables};
use std::alloc::{AllocError, Global};

/// The room of a disk.
const ROOM: DiskRoom = DiskRoom {
    file: 1_000,
    written: 1_000,
    calls: 40,
};

/// A disk with this file, of which no call fails. Nothing where it is too long.
fn disk_of(alloc: Global, file: &[u8]) -> Result<Option<MemDisk>, AllocError> {
    if file.len() > 1_000 {
        return Ok(None);
    }
    Ok(Some(MemDisk::new(alloc, file, ROOM, DiskScript::none(alloc))?))
}

/// What a load of a journal over a disk gives, and the file that it leaves.
fn loaded(
    alloc: Global,
    disk: MemDisk,
) -> Result<(Result<Tables, LoadFault>, Vec<u8>), AllocError> {
    let mut journal: Journal<MemDisk> = Journal::new(disk);
    let given: Result<Tables, LoadFault> = journal.load(alloc);
    let left: Vec<u8> = Vec::from_slice(alloc, journal.disk().bytes())?;
    Ok((given, left))
}

/// How many files and sessions there are, or why there are no tables.
fn told_tables(alloc: Global, given: &Result<Tables, LoadFault>) -> Result<String, AllocError> {
    match given {
        Ok(tables) => {
            let files: usize = tables.hosted().len();
            let sessions: usize = tables.sessions().len();
            format!(in alloc; "files {files} sessions {sessions}")
        }
        Err(LoadFault::NotOurs) => copied(alloc, "not-ours"),
        Err(LoadFault::Row { frame, at }) => format!(in alloc; "row {frame} {at}"),
        Err(_) => copied(alloc, "failed"),
    }
}

/// What a load of a journal with this file comes to, and the file that it leaves, where it is another one.
fn told_load(alloc: Global, file: &[u8]) -> Result<String, AllocError> {
    let Some(disk) = disk_of(alloc, file)? else {
        return copied(alloc, "too long");
    };
    let (given, left) = loaded(alloc, disk)?;
    let told: String = told_tables(alloc, &given)?;
    if left.as_slice() == file {
        return Ok(told);
    }
    let left: String = shown(alloc, left.as_slice())?;
    format!(in alloc; "{told} left {left}")
}

/// What is told of a step about journals.
pub(crate) fn told(alloc: Global, key: &str, words: &[String]) -> Tale {
    match key {
        "load" => Ok(Some(told_load(alloc, run_together(alloc, words)?.as_slice())?)),
        _ => Ok(None),
    }
}
