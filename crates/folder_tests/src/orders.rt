// The calls of a real file system, in their order: what is acknowledged was synced before, with its name. Each of them may be
// refused, and then nothing is acknowledged. A disk whose calls are noted is made in one function, which lends it to small ones
// that know its trait alone.
use crate::noted::{Noted, Notes};
use crate::places::{clears, makes, puts};
use data_folder::{ReportingDisk, open_disk};
use outside::Failed;
use record_disk::{Disk, DiskRoom, DiskScript, MemDisk};
use std::alloc::AllocError;
use std::io::ErrorKind;

// Whether these are the calls since they were last looked at. Others are written to standard error.
pub fn are(rt: &HostRuntime, notes: &Notes, lines: &str) -> bool {
    let found = notes.take();
    if found.as_str() == lines {
        return true;
    }
    let _ = eprintln!(rt; "{found}");
    false
}

const NEW_FOLDER: &str = "make folder orders_new
open orders_new/..
sync orders_new/..
open to write orders_new/lock
lock orders_new/lock
make folder orders_new/blobs
open orders_new/blobs/..
sync orders_new/blobs/..
list orders_new/blobs/
look at orders_new/rows
list orders_new/blobs/
make orders_new/blobs/new.part
remove orders_new/blobs/new.part
open to write orders_new/rows
open orders_new
";

const SYNCED: &str = "sync data of orders_new/rows\nsync orders_new\n";

// The names of a new folder, of its `blobs` and of what is in it are on the disk before a first write is acknowledged.
fn is_made<D: Disk>(rt: &HostRuntime, notes: &Notes, disk: &mut D) -> bool {
    let opened = are(rt, notes, NEW_FOLDER);
    let synced = disk.sync().is_ok();
    opened && synced && are(rt, notes, SYNCED)
}

const OLD_FOLDER: &str = "make folder orders_old
open orders_old/..
sync orders_old/..
open to write orders_old/lock
lock orders_old/lock
make folder orders_old/blobs
open orders_old/blobs/..
sync orders_old/blobs/..
list orders_old/blobs/
look at orders_old/rows
make orders_old/blobs/new.part
remove orders_old/blobs/new.part
open to write orders_old/rows
open orders_old
";

// Writes, syncs, writes again and cuts.
fn change<D: Disk>(disk: &mut D) -> Result<(), Failed> {
    disk.write_at(0, b"abc")?;
    disk.sync()?;
    disk.write_at(3, b"d")?;
    disk.sync()?;
    disk.cut(2)?;
    disk.sync()
}

const CHANGES: &str = "write orders_rows/rows
sync data of orders_rows/rows
sync orders_rows
write orders_rows/rows
sync data of orders_rows/rows
say mvnrepod: tail 2
cut orders_rows/rows
sync data of orders_rows/rows
";

fn is_changed<D: Disk>(rt: &HostRuntime, notes: &Notes, disk: &mut D) -> bool {
    let _opened = notes.take();
    let changed = change(disk).is_ok();
    changed && are(rt, notes, CHANGES)
}

// What is looked at of a folder.
#[derive(Clone, Copy)]
enum Way {
    New,
    Old,
    Changed,
}

// Opens a folder whose calls are noted, and whether they are as they should be.
fn does(rt: &HostRuntime, folder: &str, way: Way) -> Result<bool, AllocError> {
    let notes = Notes::new(rt.alloc())?;
    let noted = Noted::new(rt, &notes)?;
    let mut disk = ReportingDisk::new(open_disk(&noted, folder)?, noted);
    match way {
        Way::New => Ok(is_made(rt, &notes, &mut disk)),
        Way::Old => Ok(are(rt, &notes, OLD_FOLDER)),
        Way::Changed => Ok(is_changed(rt, &notes, &mut disk)),
    }
}

fn does_well(rt: &HostRuntime, folder: &str, way: Way) -> bool {
    matches!(does(rt, folder, way), Ok(true))
}

// Whether a disk of which this call is refused acknowledges no change. What was not synced is not acknowledged later either; a
// line that cannot be said stops nothing.
fn is_stopped<D: Disk>(disk: &mut D, call: &str) -> bool {
    let changed = change(disk).is_ok();
    let synced = disk.sync().is_ok();
    if call.starts_with("say") {
        return changed;
    }
    !changed && !(synced && call.starts_with("sync"))
}

fn stops_at(rt: &HostRuntime, folder: &str, call: &str) -> Result<bool, AllocError> {
    let notes = Notes::refusing(rt.alloc(), call, ErrorKind::TimedOut)?;
    let noted = Noted::new(rt, &notes)?;
    let mut disk = ReportingDisk::new(open_disk(&noted, folder)?, noted);
    Ok(is_stopped(&mut disk, call))
}

// The first of these calls that is passed over where it is refused, of a folder that stays or is made anew each time.
fn passed_over(
    rt: &HostRuntime,
    folder: &str,
    stays: bool,
    calls: &'static str,
) -> Option<&'static str> {
    for call in calls.lines() {
        if !stays {
            let _ = clears(rt, folder);
        }
        if !matches!(stops_at(rt, folder, call), Ok(true)) {
            return Some(call);
        }
    }
    None
}

#[test]
fn a_new_folder_is_synced(rt: HostRuntime) {
    let _ = clears(&rt, "orders_new");
    assert!(rt; does_well(&rt, "orders_new", Way::New));
    assert_eq!(rt; passed_over(&rt, "orders_new", false, NEW_FOLDER), None);
    assert!(rt; clears(&rt, "orders_new"));
}

// A folder that was there is synced all the same: who made it may have been stopped before.
#[test]
fn a_folder_that_was_there_is_synced(rt: HostRuntime) {
    assert!(rt; makes(&rt, "orders_old") && makes(&rt, "orders_old/blobs"));
    assert!(rt; puts(&rt, "orders_old/rows", b"MVNROWS1\0"));
    assert!(rt; does_well(&rt, "orders_old", Way::Old));
    assert_eq!(rt; passed_over(&rt, "orders_old", true, OLD_FOLDER), None);
    assert!(rt; clears(&rt, "orders_old"));
}

#[test]
fn records_are_synced(rt: HostRuntime) {
    let _ = clears(&rt, "orders_rows");
    assert!(rt; does_well(&rt, "orders_rows", Way::Changed));
    assert_eq!(rt; passed_over(&rt, "orders_rows", false, CHANGES), None);
    assert!(rt; clears(&rt, "orders_rows"));
}

// What is cut off is said before the cut, where there is something to cut.
const REPORTED: &str = "write orders_tail/rows
say mvnrepod: tail 3
cut orders_tail/rows
";

fn cut_twice<D: Disk>(disk: &mut D) -> Result<(), Failed> {
    disk.write_at(0, b"abcd")?;
    disk.cut(1)?;
    disk.cut(1)
}

fn is_reported(rt: &HostRuntime) -> Result<bool, AllocError> {
    let notes = Notes::new(rt.alloc())?;
    let noted = Noted::new(rt, &notes)?;
    let mut disk = ReportingDisk::new(open_disk(&noted, "orders_tail")?, noted);
    let _opened = notes.take();
    let cut = cut_twice(&mut disk).is_ok();
    Ok(cut && are(rt, &notes, REPORTED))
}

#[test]
fn a_tail_is_told_before_it_goes(rt: HostRuntime) {
    let _ = clears(&rt, "orders_tail");
    assert!(rt; matches!(is_reported(&rt), Ok(true)));
    assert!(rt; clears(&rt, "orders_tail"));
}

fn is_left(rt: &HostRuntime) -> Result<bool, AllocError> {
    let alloc = rt.alloc();
    let notes = Notes::new(alloc)?;
    let script = DiskScript::failing_at([0].to_vec(alloc)?, 0);
    let room = DiskRoom {
        file: 4,
        written: 0,
        calls: 1,
    };
    let disk = MemDisk::new(alloc, b"abcd", room, script)?;
    let mut disk = ReportingDisk::new(disk, Noted::new(rt, &notes)?);
    let refused = disk.cut(1).is_err();
    Ok(refused && disk.size() == Ok(4) && are(rt, &notes, ""))
}

// A tail whose length can't be told stays.
#[test]
fn a_tail_that_cannot_be_told_stays(rt: HostRuntime) {
    assert!(rt; matches!(is_left(&rt), Ok(true)));
}
