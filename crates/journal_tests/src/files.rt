// A journal over a file of the system, of a program that is stopped after each call of its disk: the next start finds the
// tables from before, or these and the one change, and goes on from there.
ghost use Rattle.std.specs.Prelude.{◌≡◌, None, IfOk};
ghost use Rattle.record_journal.specs.Journal.{tables_of};

use crate::crashing::Crashing;
use crate::starts::{End, ONE_SESSION, commits, last_session, opened, opens, over};
use record_disk::FileDisk;
use record_journal::Journal;
use row_tables::{Records, Tables};
use std::alloc::Global;
use std::fs::{self, File, OpenOptions};
use std::io;
use std::test::Fail;

const FOLDER: &str = "journal_tests_file";

const FILE: &str = "journal_tests_file/rows";

// A start over the file, which is made where it is missing, of a program that is stopped after so many calls.
fn start(rt: &HostRuntime, calls: u64) -> io::Result<Journal<Crashing<FileDisk<File>>>>
    ensures { IfOk result (λ j. tables_of j ≡ None) }
{
    let mut how = OpenOptions::new();
    how.read(true).write(true).create(true);
    let disk = FileDisk::new(how.open(rt, FILE)?, fs::open(rt, FOLDER)?);
    Ok(over(disk, calls))
}

// An empty folder, with this file in it.
fn make_folder(rt: &HostRuntime, file: &[u8]) -> io::Result<()> {
    let _ = fs::remove_dir_all(rt, FOLDER);
    fs::create_dir(rt, FOLDER)?;
    fs::write(rt, FILE, file)
}

// Opens the session after the last one of these tables.
fn opens_next<R: Records>(alloc: Global, records: &mut R, tables: Tables) -> Option<u8>
    requires ready { (R.shows records.old).IsReady }
    requires untold { (R.shows records.old).tables ≡ None }
{
    let last = last_session(alloc, tables).ok()?;
    match commits(alloc, records, &opened(last.saturating_add(1))) {
        End::Done => Some(last),
        _ => None,
    }
}

// The last session that records have, after which the next one is opened.
fn continues<R: Records>(alloc: Global, records: &mut R) -> Option<u8>
    requires { (R.shows records.old).tables ≡ None }
{
    match records.load(alloc) {
        Ok(tables) => opens_next(alloc, records, tables),
        Err(_) => None,
    }
}

// The same by a start over the file.
fn goes_on(rt: &HostRuntime) -> Option<u8> {
    let mut journal = start(rt, u64::MAX).ok()?;
    continues(rt.alloc(), &mut journal)
}

// A program opens the session after this one, and is stopped after so many calls: whether it got there, and the last
// session that the next start finds, which begins while the file of the first one is still open.
fn crashed_after(rt: &HostRuntime, before: u8, calls: u64) -> Option<(bool, u8)> {
    let mut journal = start(rt, calls).ok()?;
    let made = opens(rt.alloc(), &mut journal, before.saturating_add(1));
    Some((made, goes_on(rt)?))
}

// In `whole` calls such a program gets there. What the next start opens is there for the one after it.
fn crashes_well(rt: &HostRuntime, before: u8, calls: u64, whole: u64) -> Option<bool> {
    let (made, found) = crashed_after(rt, before, calls)?;
    let next = goes_on(rt)?;
    let after = before.saturating_add(1);
    let well = found == after || (found == before && !made);
    Some(well && made == (calls >= whole) && next == found.saturating_add(1))
}

// Whether that is so over this file.
fn crashes_well_over(rt: &HostRuntime, file: &[u8], before: u8, calls: u64, whole: u64) -> bool {
    make_folder(rt, file).is_ok() && crashes_well(rt, before, calls, whole).unwrap_or(false)
}

// The first number of calls of which that is not so, over a new file and over one with a session.
fn bad_crash(rt: &HostRuntime) -> Option<u64> {
    for calls in 0..14 {
        if !crashes_well_over(rt, b"", 0, calls, 9) {
            return Some(calls);
        }
        if !crashes_well_over(rt, &ONE_SESSION, 1, calls, 7) {
            return Some(calls);
        }
    }
    None
}

// What a program leaves that is not stopped has the bytes of its changes.
fn leaves_its_bytes(rt: &HostRuntime) -> io::Result<bool> {
    make_folder(rt, b"")?;
    let last = goes_on(rt);
    let file = fs::read(rt, FILE)?;
    Ok(last == Some(0) && file.as_slice() == ONE_SESSION.as_slice())
}

#[test]
fn a_file_outlasts_a_crash_after_each_call(rt: HostRuntime) -> Result<(), Fail> {
    assert_eq!(rt; bad_crash(&rt), None);
    assert!(rt; leaves_its_bytes(&rt)?);
    fs::remove_dir_all(&rt, FOLDER)?;
    Ok(())
}
