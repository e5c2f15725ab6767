// Changes of one row in a journal over a real file.
ghost use Rattle.std.specs.Prelude.{◌≡◌, None, IfOk, OnOk};
ghost use Rattle.record_journal.specs.Journal.{tables_of, MayCommit};

use crate::rows::row_of;
use record_disk::FileDisk;
use record_journal::Journal;
use repo_rows::take;
use row_tables::{Change, Records, Tables};
use std::fs::{self, File, OpenOptions};
use std::io::{self, ErrorKind};

/// The file `records` of a folder, which is made where it is missing.
pub(crate) fn records_in(rt: &HostRuntime, folder: &str) -> io::Result<File> {
    let path = format!(in rt.alloc(); "{folder}/records")?;
    let mut how = OpenOptions::new();
    how.read(true);
    how.write(true);
    how.create(true);
    how.open(rt, path.as_str())
}

// A journal over that file.
fn journal_in(rt: &HostRuntime, folder: &str) -> io::Result<Journal<FileDisk<File>>>
    ensures { IfOk result (λ j. tables_of j ≡ None) }
{
    let file = records_in(rt, folder)?;
    Ok(Journal::new(FileDisk::new(file, fs::open(rt, folder)?)))
}

fn open(rt: &HostRuntime, journal: &mut Journal<FileDisk<File>>) -> io::Result<Tables>
    requires { tables_of journal.old ≡ None }
    ensures untold { tables_of journal.new ≡ None }
    ensures ready { OnOk result (MayCommit journal.new) }
{
    match journal.load(rt.alloc()) {
        Ok(tables) => Ok(tables),
        Err(_) => Err(ErrorKind::InvalidData.into()),
    }
}

fn change_of(rt: &HostRuntime, number: u64) -> io::Result<Change> {
    match take(rt.alloc(), &row_of(rt.alloc(), number)?) {
        Ok((change, _)) => Ok(change),
        Err(_) => Err(ErrorKind::InvalidData.into()),
    }
}

fn add(rt: &HostRuntime, journal: &mut Journal<FileDisk<File>>, number: u64) -> io::Result<()>
    requires ready { MayCommit journal.old }
    requires untold { tables_of journal.old ≡ None }
    ensures untold { tables_of journal.new ≡ None }
    ensures ready { MayCommit journal.new }
{
    let change = change_of(rt, number)?;
    if !change.is_whole() {
        return Err(ErrorKind::InvalidData.into());
    }
    match journal.commit(rt.alloc(), &change) {
        Ok(()) => Ok(()),
        Err(_) => Err(ErrorKind::WriteZero.into()),
    }
}

/// Commits so many changes to a journal over the file.
pub(crate) fn commit_all(rt: &HostRuntime, folder: &str, count: u64) -> io::Result<()> {
    let mut journal = journal_in(rt, folder)?;
    open(rt, &mut journal)?;
    for number in 0..count {
        add(rt, &mut journal, number + 1)?;
    }
    Ok(())
}

/// How many files of hosted repositories a load of the file gives.
pub(crate) fn rows_in(rt: &HostRuntime, folder: &str) -> io::Result<usize> {
    let mut journal = journal_in(rt, folder)?;
    let tables = open(rt, &mut journal)?;
    Ok(tables.hosted().len())
}
