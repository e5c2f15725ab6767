// A real folder, whose opening is watched: what is synced of it, and what a stopped store left in it.
use crate::blob_stores::{self, is_so};
use crate::noted::{Noted, Notes};
use crate::places::{clears, holds, makes, puts, stands};
use data_folder::{blobs_in, find_disk, open_disk};
use outside_system::file_source;
use record_disk::Disk;
use std::alloc::AllocError;
use std::fs;
use std::io::ErrorKind;
use std::test::Fail;

// Whether a disk goes through its calls.
fn is_open<D: Disk>(disk: &mut D) -> bool {
    disk.sync().is_ok()
}

// Whether a folder is opened.
fn opens(rt: &HostRuntime, folder: &str) -> bool {
    match open_disk(rt, folder) {
        Ok(mut disk) => is_open(&mut disk),
        Err(_) => false,
    }
}

// Whether a folder is refused.
fn refuses(rt: &HostRuntime, folder: &str) -> bool {
    match open_disk(rt, folder) {
        Ok(mut disk) => !is_open(&mut disk),
        Err(_) => false,
    }
}

// Whether a folder opens where this call is refused so.
fn opens_without(
    rt: &HostRuntime,
    folder: &str,
    call: &str,
    kind: ErrorKind,
) -> Result<bool, AllocError> {
    let notes = Notes::refusing(rt.alloc(), call, kind)?;
    match open_disk(&Noted::new(rt, &notes)?, folder) {
        Ok(mut disk) => Ok(is_open(&mut disk)),
        Err(_) => Ok(false),
    }
}

const BELOW: &str = "folder_tests_below";

// Whether it opens, or is refused, where the folder above it is refused so.
fn opens_under(rt: &HostRuntime, kind: ErrorKind, wanted: bool) -> bool {
    match opens_without(rt, BELOW, "open folder_tests_below/..", kind) {
        Ok(opened) => opened == wanted,
        Err(_) => false,
    }
}

// Where the folder above may not be read, one that was there is opened all the same; no other fault is passed over, and no
// new folder is taken whose name may be lost.
#[test]
fn only_a_folder_that_may_not_be_read_is_passed_over(rt: HostRuntime) {
    assert!(rt; makes(&rt, BELOW));
    assert!(rt; opens_under(&rt, ErrorKind::PermissionDenied, true));
    assert!(rt; opens_under(&rt, ErrorKind::NotFound, false));
    assert!(rt; opens_under(&rt, ErrorKind::OutOfMemory, false));
    assert!(rt; clears(&rt, BELOW));
    assert!(rt; opens_under(&rt, ErrorKind::PermissionDenied, false));
    assert!(rt; clears(&rt, BELOW));
}

// Whether these are the numbers of the blobs of a folder.
fn lists(rt: &HostRuntime, folder: &str, numbers: &[u64]) -> bool {
    match blobs_in(rt, folder) {
        Ok(mut blobs) => is_so(blob_stores::lists(&mut blobs, numbers)),
        Err(_) => false,
    }
}

const PARTS: &str = "folder_tests_parts";

// Whether blobs 7 and 9 are left where the folder is open, and no part of 8.
fn has_no_part(rt: &HostRuntime) -> bool {
    match open_disk(rt, PARTS) {
        Ok(mut disk) => {
            let opened = is_open(&mut disk);
            let listed = lists(rt, PARTS, &[7, 9]);
            opened && listed && !stands(rt, "folder_tests_parts/blobs/8.part")
        }
        Err(_) => false,
    }
}

// What a store that was stopped has left is gone after the next opening, and nothing else is.
#[test]
fn parts_are_cleared(rt: HostRuntime) {
    assert!(rt; makes(&rt, PARTS) && makes(&rt, "folder_tests_parts/blobs"));
    assert!(rt; puts(&rt, "folder_tests_parts/rows", b"MVNROWS1\0"));
    assert!(rt; puts(&rt, "folder_tests_parts/blobs/7", b"abc"));
    assert!(rt; puts(&rt, "folder_tests_parts/blobs/8.part", b"left over"));
    assert!(rt; puts(&rt, "folder_tests_parts/blobs/9", b"abd"));
    assert!(rt; has_no_part(&rt));
    assert!(rt; clears(&rt, PARTS));
}

const HELD: &str = "folder_tests_held";

// Whether the part of a folder that is open stays, which is refused to another one.
fn keeps_its_part<D: Disk>(rt: &HostRuntime, first: &mut D) -> bool {
    let opened = is_open(first);
    opened
        && puts(rt, "folder_tests_held/blobs/8.part", b"being written")
        && refuses(rt, HELD)
        && stands(rt, "folder_tests_held/blobs/8.part")
}

// What another is storing stays where it is: who has no lock removes nothing.
#[test]
fn parts_stay_where_another_has_the_lock(rt: HostRuntime) -> Result<(), Fail> {
    let _ = clears(&rt, HELD);
    let mut first = open_disk(&rt, HELD)?;
    assert!(rt; keeps_its_part(&rt, &mut first));
    drop(first);
    assert!(rt; clears(&rt, HELD));
    Ok(())
}

const ALONE: &str = "folder_tests_alone";

// Contents whose file of records is missing are not taken for left-overs: nothing is opened, made or removed.
#[test]
fn contents_alone_are_refused(rt: HostRuntime) {
    assert!(rt; makes(&rt, ALONE) && makes(&rt, "folder_tests_alone/blobs"));
    assert!(rt; puts(&rt, "folder_tests_alone/blobs/7", b"abc"));
    assert!(rt; refuses(&rt, ALONE));
    assert!(rt; stands(&rt, "folder_tests_alone/blobs/7"));
    assert!(rt; !stands(&rt, "folder_tests_alone/rows"));
    assert!(rt; clears(&rt, ALONE));
}

const BEGUN: &str = "folder_tests_begun";

// A folder with this file of records and a content.
fn is_begun(rt: &HostRuntime, rows: &[u8]) -> bool {
    makes(rt, BEGUN)
        && makes(rt, "folder_tests_begun/blobs")
        && puts(rt, "folder_tests_begun/rows", rows)
        && puts(rt, "folder_tests_begun/blobs/7", b"abc")
}

// Whether both stay, and the folder goes.
fn stays(rt: &HostRuntime, rows: &[u8]) -> bool {
    holds(rt, "folder_tests_begun/rows", rows)
        && stands(rt, "folder_tests_begun/blobs/7")
        && clears(rt, BEGUN)
}

fn opens_over(rt: &HostRuntime, rows: &[u8]) -> bool {
    is_begun(rt, rows) && opens(rt, BEGUN) && stays(rt, rows)
}

fn refuses_over(rt: &HostRuntime, rows: &[u8]) -> bool {
    is_begun(rt, rows) && refuses(rt, BEGUN) && stays(rt, rows)
}

// Contents beside a file of records that has not even its beginning are refused too. One with its beginning may be as a run has
// left it that was stopped after its first content.
#[test]
fn contents_beside_less_than_a_beginning_are_refused(rt: HostRuntime) {
    assert!(rt; refuses_over(&rt, b""));
    assert!(rt; refuses_over(&rt, b"M"));
    assert!(rt; refuses_over(&rt, b"MVNROWS"));
    assert!(rt; opens_over(&rt, b"MVNROWS1"));
    assert!(rt; opens_over(&rt, b"MVNROWS1\0"));
}

const EMPTY: &str = "folder_tests_empty";

// Without contents such a file is as a start has left it that was stopped before it wrote the beginning.
#[test]
fn an_empty_file_without_contents_is_new(rt: HostRuntime) {
    assert!(rt; makes(&rt, EMPTY) && makes(&rt, "folder_tests_empty/blobs"));
    assert!(rt; puts(&rt, "folder_tests_empty/rows", b""));
    assert!(rt; opens(&rt, EMPTY));
    assert!(rt; clears(&rt, EMPTY));
}

const WRITES: &str = "folder_tests_writes";

// Whether a folder opens, or is refused, where no content can be stored.
fn opens_unwritable(rt: &HostRuntime, kind: ErrorKind, wanted: bool) -> bool {
    match opens_without(rt, WRITES, "make folder_tests_writes/blobs/new.part", kind) {
        Ok(opened) => opened == wanted,
        Err(_) => false,
    }
}

// Where no content could be stored, that is told at once; but not where only room is wanting, which a cleaning may make.
#[test]
fn contents_that_may_not_be_written_are_refused(rt: HostRuntime) {
    let _ = clears(&rt, WRITES);
    assert!(rt; opens_unwritable(&rt, ErrorKind::PermissionDenied, false));
    assert!(rt; opens_unwritable(&rt, ErrorKind::ReadOnlyFilesystem, false));
    assert!(rt; opens_unwritable(&rt, ErrorKind::StorageFull, true));
    assert!(rt; opens_unwritable(&rt, ErrorKind::QuotaExceeded, true));
    assert!(rt; clears(&rt, WRITES));
}

// Whether a disk begins with these bytes, read from the first and from the last of them on.
fn gives<D: Disk>(disk: &mut D, bytes: [u8; 3]) -> bool {
    let mut all = [0; 3];
    let mut last = [0; 1];
    let read = disk.read(0, &mut all).is_ok();
    let read_on = disk.read(2, &mut last).is_ok();
    read && read_on && all == bytes && last[0] == bytes[2]
}

const LOCKED: &str = "folder_tests_locked";

// Whether no call of a disk goes through.
fn is_refused<D: Disk>(disk: &mut D) -> bool {
    let sized = disk.size().is_ok();
    let synced = disk.sync().is_ok();
    !sized && !synced
}

// Whether a folder has no records for another one.
fn is_locked(rt: &HostRuntime) -> bool {
    match open_disk(rt, LOCKED) {
        Ok(mut second) => is_refused(&mut second),
        Err(_) => false,
    }
}

// Whether records are written while nobody else has them.
fn writes_alone<D: Disk>(rt: &HostRuntime, first: &mut D) -> bool {
    let written = first.write_at(0, b"abc").is_ok();
    let synced = first.sync().is_ok();
    written && synced && is_locked(rt)
}

// A folder is made and locked: nobody else has its records meanwhile, and they are there for the next one.
#[test]
fn a_folder_is_made_and_locked(rt: HostRuntime) -> Result<(), Fail> {
    let _ = clears(&rt, LOCKED);
    let mut first = open_disk(&rt, LOCKED)?;
    assert!(rt; writes_alone(&rt, &mut first));
    drop(first);
    let mut third = open_disk(&rt, LOCKED)?;
    assert!(rt; gives(&mut third, *b"abc"));
    assert!(rt; clears(&rt, LOCKED));
    Ok(())
}

const NO_FOLDER: &str = "folder_tests_file";

fn has_size<D: Disk>(disk: &mut D) -> bool {
    disk.size().is_ok()
}

// Whether a file in place of a folder has no records.
fn has_no_size(rt: &HostRuntime) -> bool {
    match open_disk(rt, NO_FOLDER) {
        Ok(mut disk) => !has_size(&mut disk),
        Err(_) => false,
    }
}

#[test]
fn a_file_is_no_folder(rt: HostRuntime) {
    assert!(rt; puts(&rt, NO_FOLDER, b"abc"));
    assert!(rt; has_no_size(&rt));
    assert!(rt; fs::remove_file(&rt, NO_FOLDER).is_ok());
}

const MISSING: &str = "folder_tests_missing";

// Whether a folder is opened which has to be there.
fn is_found(rt: &HostRuntime) -> bool {
    match find_disk(rt, MISSING) {
        Ok(mut disk) => is_open(&mut disk),
        Err(_) => false,
    }
}

// A folder that has to be there is not made, and opened once it is there.
#[test]
fn a_folder_that_has_to_be_there_is_not_made(rt: HostRuntime) {
    let _ = clears(&rt, MISSING);
    assert!(rt; !is_found(&rt));
    assert!(rt; !stands(&rt, MISSING));
    assert!(rt; makes(&rt, MISSING));
    assert!(rt; is_found(&rt));
    assert!(rt; clears(&rt, MISSING));
}

const TOLD: &str = "folder_tests_told";

// Whether a folder is refused if this call is not permitted, and the last line says so.
fn tells(rt: &HostRuntime, call: &str, line: &str) -> Result<bool, AllocError> {
    let notes = Notes::refusing(rt.alloc(), call, ErrorKind::PermissionDenied)?;
    let refused = match open_disk(&Noted::new(rt, &notes)?, TOLD) {
        Ok(mut disk) => !is_open(&mut disk),
        Err(_) => false,
    };
    let said = notes.take();
    Ok(refused && said.as_str().ends_with(line))
}

fn tells_so(rt: &HostRuntime, call: &str, line: &str) -> bool {
    matches!(tells(rt, call, line), Ok(true))
}

const NO_LOCK: &str = "say mvnrepod: cannot open folder_tests_told/lock: permission denied\n";

const NO_ROWS: &str = "say mvnrepod: cannot open folder_tests_told/rows: permission denied\n";

const NO_FILE: &str =
    "say mvnrepod: cannot make a file in the folder folder_tests_told/blobs: permission denied\n";

// What cannot be opened is named, with the cause.
#[test]
fn a_refusal_names_its_cause(rt: HostRuntime) {
    let _ = clears(&rt, TOLD);
    assert!(rt; tells_so(&rt, "open to write folder_tests_told/lock", NO_LOCK));
    assert!(rt; tells_so(&rt, "make folder_tests_told/blobs/new.part", NO_FILE));
    assert!(rt; tells_so(&rt, "open to write folder_tests_told/rows", NO_ROWS));
    assert!(rt; clears(&rt, TOLD));
}

const IN_USE: &str =
    "say mvnrepod: cannot lock folder_tests_told_lock/lock: another process has it\n";

// Whether a folder that another one has open is refused, and the last line says so.
fn tells_of_another(rt: &HostRuntime) -> Result<bool, AllocError> {
    let folder = "folder_tests_told_lock";
    let _first = open_disk(rt, folder)?;
    let notes = Notes::new(rt.alloc())?;
    let _second = open_disk(&Noted::new(rt, &notes)?, folder)?;
    let said = notes.take();
    Ok(said.as_str().ends_with(IN_USE))
}

#[test]
fn a_folder_in_use_is_told(rt: HostRuntime) {
    assert!(rt; matches!(tells_of_another(&rt), Ok(true)));
    assert!(rt; clears(&rt, "folder_tests_told_lock"));
}

const SETTINGS: &str = "folder_tests_settings";

const NO_SETTINGS: &str =
    "open folder_tests_settings\nsay mvnrepod: cannot read folder_tests_settings: permission denied\n";

// Whether settings that may not be read are named.
fn tells_of_settings(rt: &HostRuntime) -> Result<bool, AllocError> {
    let call = "open folder_tests_settings";
    let notes = Notes::refusing(rt.alloc(), call, ErrorKind::PermissionDenied)?;
    let _source = file_source(&Noted::new(rt, &notes)?, SETTINGS);
    let said = notes.take();
    Ok(said.as_str() == NO_SETTINGS)
}

#[test]
fn settings_that_may_not_be_read_are_told(rt: HostRuntime) {
    assert!(rt; matches!(tells_of_settings(&rt), Ok(true)));
}
