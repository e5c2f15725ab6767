// Disks, call by call: one over a file of the system, and one in memory of which some calls fail.
use record_disk::{Disk, DiskRoom, DiskScript, FileDisk, MemDisk};
use std::alloc::{AllocError, Global};
use std::fs::{self, File, OpenOptions};
use std::io;
use std::test::Fail;

const FOLDER: &str = "journal_tests_disk";

const FILE: &str = "journal_tests_disk/rows";

// A disk over a file of ten bytes.
fn ten_bytes(rt: &HostRuntime) -> io::Result<FileDisk<File>> {
    let _ = fs::remove_dir_all(rt, FOLDER);
    fs::create_dir(rt, FOLDER)?;
    fs::write(rt, FILE, b"0123456789")?;
    let mut how = OpenOptions::new();
    how.read(true).write(true);
    Ok(FileDisk::new(how.open(rt, FILE)?, fs::open(rt, FOLDER)?))
}

fn has(rt: &HostRuntime, bytes: &[u8]) -> bool {
    match fs::read(rt, FILE) {
        Ok(found) => found.as_slice() == bytes,
        Err(_) => false,
    }
}

// Whether a read gives these bytes.
fn reads<D: Disk>(disk: &mut D, at: u64, want: &[u8]) -> bool {
    let mut buffer = [0; 3];
    let front = &mut buffer[..want.len().min(3)];
    let read = disk.read(at, front).is_ok();
    read && *front == *want
}

// Whether no three bytes can be read.
fn fails_to_read<D: Disk>(disk: &mut D, at: u64) -> bool {
    disk.read(at, &mut [0; 3]).is_err()
}

// Whether the file has so many bytes.
fn has_size<D: Disk>(disk: &mut D, want: u64) -> bool {
    match disk.size() {
        Ok(size) => size == want,
        Err(_) => false,
    }
}

fn writes<D: Disk>(disk: &mut D, at: u64, bytes: &[u8]) -> bool {
    disk.write_at(at, bytes).is_ok()
}

// Whether the file is cut, and that is kept.
fn cuts<D: Disk>(disk: &mut D, size: u64) -> bool {
    let cut = disk.cut(size).is_ok();
    let synced = disk.sync().is_ok();
    cut && synced
}

// What reads give.
fn is_read<D: Disk>(disk: &mut D) -> bool {
    let sized = has_size(disk, 10);
    let within = reads(disk, 4, b"456");
    let behind = fails_to_read(disk, 8);
    sized && within && behind
}

// Reads stand at their place, writes go over what is there and past the end, and leave no gap; a cut makes nothing longer.
#[test]
fn each_call_does_what_it_says(rt: HostRuntime) -> Result<(), Fail> {
    let mut disk = ten_bytes(&rt)?;
    assert!(rt; is_read(&mut disk));
    assert!(rt; writes(&mut disk, 8, b"abcd"));
    assert!(rt; has(&rt, b"01234567abcd"));
    assert!(rt; !writes(&mut disk, 13, b"x"));
    assert!(rt; has(&rt, b"01234567abcd"));
    assert!(rt; writes(&mut disk, 12, b"x"));
    assert!(rt; cuts(&mut disk, 20));
    assert!(rt; has(&rt, b"01234567abcdx"));
    assert!(rt; cuts(&mut disk, 4));
    assert!(rt; has(&rt, b"0123"));
    assert!(rt; has_size(&mut disk, 4));
    fs::remove_dir_all(&rt, FOLDER)?;
    Ok(())
}

// A disk over a device that takes bytes and keeps none, in the folder of the system's devices.
fn keeps_nothing(rt: &HostRuntime) -> io::Result<FileDisk<File>> {
    let mut how = OpenOptions::new();
    how.read(true).write(true);
    Ok(FileDisk::new(how.open(rt, "/dev/null")?, fs::open(rt, "/dev")?))
}

fn syncs<D: Disk>(disk: &mut D) -> bool {
    disk.sync().is_ok()
}

// What the system cannot keep is not taken for kept, however often it is asked.
#[test]
fn a_device_that_keeps_nothing_is_not_synced(rt: HostRuntime) -> Result<(), Fail> {
    let mut disk = keeps_nothing(&rt)?;
    assert!(rt; writes(&mut disk, 0, b"abc"));
    assert!(rt; !syncs(&mut disk));
    assert!(rt; !syncs(&mut disk));
    Ok(())
}

// A disk of four bytes. Its first, third and fourth call fail, and of a write that fails two bytes are made.
fn failing_disk(alloc: Global) -> Result<MemDisk, AllocError> {
    let room = DiskRoom {
        file: 10,
        written: 10,
        calls: 3,
    };
    let script = DiskScript::failing_at([0, 2, 3].to_vec(alloc)?, 2);
    MemDisk::new(alloc, b"0123", room, script)
}

fn holds(disk: &MemDisk, want: &[u8]) -> bool {
    disk.bytes() == want
}

// Of a write that fails the part is made, and a cut where the part is not 0; a read that fails gives nothing.
#[test]
fn calls_fail_as_they_are_told(rt: HostRuntime) -> Result<(), Fail> {
    let mut disk = failing_disk(rt.alloc())?;
    assert!(rt; !writes(&mut disk, 1, b"abc"));
    assert!(rt; holds(&disk, b"0ab3"));
    assert!(rt; reads(&mut disk, 1, b"ab"));
    assert!(rt; fails_to_read(&mut disk, 0));
    assert!(rt; disk.cut(1).is_err());
    assert!(rt; holds(&disk, b"0"));
    assert!(rt; writes(&mut disk, 1, b"x"));
    assert!(rt; holds(&disk, b"0x"));
    Ok(())
}
