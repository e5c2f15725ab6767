// Files that a crash may leave of a disk in memory: each write since the last sync torn in many ways, each cut done or not.
use record_disk::{Disk, DiskCall, DiskRoom, DiskScript, MemDisk};
use std::alloc::{AllocError, Global};
use std::test::Fail;

// What may stand in the range of a torn write beside its own bytes.
const JUNK: [u8; 3] = [0, 1, 255];

// The file with these bytes at this place.
fn overwritten(alloc: Global, file: &[u8], at: usize, bytes: &[u8]) -> Result<Vec<u8>, AllocError> {
    let mut next = file.get(..at).unwrap_or(file).to_vec(alloc)?;
    next.extend_from_slice(bytes)?;
    next.extend_from_slice(file.get(at.saturating_add(bytes.len())..).unwrap_or(&[]))?;
    Ok(next)
}

// What a crash may leave of a file after a write of `size` bytes of which these were put: the first of them, and what
// follows is as it was, or junk.
fn push_front(
    alloc: Global,
    files: &mut Vec<Vec<u8>>,
    file: &[u8],
    at: usize,
    size: usize,
    front: &[u8],
) -> Result<(), AllocError> {
    files.push(overwritten(alloc, file, at, front)?)?;
    for junk in JUNK {
        let mut bytes = front.to_vec(alloc)?;
        bytes.resize(size, junk)?;
        files.push(overwritten(alloc, file, at, &bytes)?)?;
    }
    Ok(())
}

// The file with all bytes that were put, and then torn after each of them.
fn push_torn(
    alloc: Global,
    files: &mut Vec<Vec<u8>>,
    file: &[u8],
    at: usize,
    size: usize,
    put: &[u8],
) -> Result<(), AllocError> {
    files.push(overwritten(alloc, file, at, put)?)?;
    for count in 0..=put.len() {
        let front = put.get(..count).unwrap_or(put);
        push_front(alloc, files, file, at, size, front)?;
    }
    Ok(())
}

// What a crash may leave of this file after one call more; first where all of it was made that was.
fn push_after(
    alloc: Global,
    files: &mut Vec<Vec<u8>>,
    file: &[u8],
    call: DiskCall,
    put: &[u8],
) -> Result<(), AllocError> {
    match call {
        DiskCall::Write { at, size, .. } => {
            push_torn(alloc, files, file, at as usize, size as usize, put)?;
        }
        DiskCall::Cut { size } => {
            files.push(file.get(..size as usize).unwrap_or(file).to_vec(alloc)?)?;
            files.push(file.to_vec(alloc)?)?;
        }
        DiskCall::Sync => {}
    }
    Ok(())
}

// The same of each of these files.
fn after_call(
    alloc: Global,
    files: &[Vec<u8>],
    call: DiskCall,
    put: &[u8],
) -> Result<Vec<Vec<u8>>, AllocError> {
    let mut next = Vec::new(alloc);
    for file in files {
        push_after(alloc, &mut next, file, call, put)?;
    }
    Ok(next)
}

// How many bytes a call put into the file.
fn put_by(call: DiskCall) -> usize {
    match call {
        DiskCall::Write { put, .. } => put as usize,
        _ => 0,
    }
}

// Files that a crash now may leave.
pub fn images_of(alloc: Global, disk: &MemDisk) -> Result<Vec<Vec<u8>>, AllocError> {
    let mut files = Vec::new(alloc);
    files.push(disk.first().to_vec(alloc)?)?;
    let mut rest = disk.put();
    for call in disk.calls() {
        let (put, behind) = rest.split_at(put_by(*call).min(rest.len()));
        rest = behind;
        if *call == DiskCall::Sync {
            files.truncate(1);
        } else {
            files = after_call(alloc, &files, *call, put)?;
        }
    }
    Ok(files)
}

// A disk in memory with this file, of which some calls fail.
pub fn disk_of(alloc: Global, file: &[u8], script: DiskScript) -> Result<MemDisk, AllocError> {
    let room = DiskRoom {
        file: 300,
        written: 600,
        calls: 40,
    };
    if file.len() > 300 {
        return Err(AllocError);
    }
    MemDisk::new(alloc, file, room, script)
}

// Whether a crash may leave just these files of the disk, which have a comma after each.
fn may_leave(alloc: Global, disk: &MemDisk, files: &[u8]) -> Result<bool, AllocError> {
    let mut text = Vec::new(alloc);
    for image in images_of(alloc, disk)? {
        text.extend_from_slice(&image)?;
        text.push(b',')?;
    }
    Ok(text.as_slice() == files)
}

fn cuts<D: Disk>(disk: &mut D, size: u64) -> bool {
    disk.cut(size).is_ok()
}

fn syncs<D: Disk>(disk: &mut D) -> bool {
    disk.sync().is_ok()
}

fn writes<D: Disk>(disk: &mut D, at: u64, bytes: &[u8]) -> bool {
    disk.write_at(at, bytes).is_ok()
}

// A cut that is synced leaves one file, and a write over its end any of these.
#[test]
fn a_write_is_torn(rt: HostRuntime) -> Result<(), Fail> {
    let alloc = rt.alloc();
    let mut disk = disk_of(alloc, b"abcd", DiskScript::none(alloc))?;
    assert!(rt; cuts(&mut disk, 2));
    assert!(rt; may_leave(alloc, &disk, b"ab,abcd,")?);
    assert!(rt; syncs(&mut disk));
    assert!(rt; may_leave(alloc, &disk, b"ab,")?);
    let torn = b"axy,ab,a\0\0,a\x01\x01,a\xff\xff,ax,ax\0,ax\x01,ax\xff,axy,axy,axy,axy,";
    assert!(rt; writes(&mut disk, 1, b"xy"));
    assert!(rt; may_leave(alloc, &disk, torn)?);
    Ok(())
}
