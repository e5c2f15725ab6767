//! The objects over a folder.
ghost use Rattle.std.specs.Prelude.{◌≡◌, IfOk};
ghost use Rattle.data_folder.specs.Faults.{faults_of};

use crate::disk::FolderDisk;
use crate::lock::LockFile;
use outside::{BlobFault, Blobs, NoMemory};
use outside_system::{FolderBlobs, clear_parts};
use record_disk::FileDisk;
use record_log::MAGIC;
use std::alloc::AllocError;
use std::fs::{self, File, Files, OpenFile, OpenOptions};
use std::io::{self, Eprint, ErrorKind};

// Says on standard error what could not be done with a path, and why. Out of memory has a status of its own.
fn told<R: Eprint, T: Drop>(rt: &R, tried: &str, path: &str, did: io::Result<T>) -> io::Result<T>
    ensures { result ≡ did }
{
    if let Err(error) = &did
        && error.kind() != ErrorKind::OutOfMemory
    {
        let _ = eprintln!(rt; "mvnrepod: cannot {tried} {path}: {error}");
    }
    did
}

// Makes a folder that is missing. Its name is kept before it returns: `..` of a folder is the one that has its name. So is
// that of a folder which stood before, since an earlier run may have stopped right after making it; but where the one above
// may not be read, it was made by somebody else.
fn make_folder<R: Files + AllocGlobal>(rt: &R, folder: &str) -> io::Result<()> {
    let is_new = match fs::create_dir(rt, folder) {
        Ok(()) => true,
        Err(error) if error.kind() == ErrorKind::AlreadyExists => false,
        Err(error) => return Err(error),
    };
    let above = format!(in rt.alloc(); "{folder}/..")?;
    match fs::open(rt, above.as_str()) {
        Ok(above) => above.sync_all(),
        Err(error) if !is_new && error.kind() == ErrorKind::PermissionDenied => Ok(()),
        Err(error) => Err(error),
    }
}

// Opens a file for reading and writing, which is made where it is missing.
fn open_file<R: Files>(rt: &R, path: &str) -> io::Result<R::File> {
    let mut how = OpenOptions::new();
    how.read(true).write(true).create(true);
    how.open(rt, path)
}

// Takes the lock of a file at a path.
fn take_lock<F: LockFile, R: Eprint>(rt: &R, lock: &F, path: &str) -> io::Result<()> {
    match lock.try_lock() {
        Err(error) if error.kind() == ErrorKind::WouldBlock => {
            let _ = eprintln!(rt; "mvnrepod: cannot lock {path}: another process has it");
            Err(error)
        }
        locked => told(rt, "lock", path, locked),
    }
}

// The lock of a folder. It fails if another process has it.
fn lock_of<F: LockFile + Drop, R: Files<File = F> + AllocGlobal + Eprint>(
    rt: &R,
    folder: &str,
) -> io::Result<F> {
    let path = format!(in rt.alloc(); "{folder}/lock")?;
    let opened = open_file(rt, path.as_str());
    let lock = told(rt, "open", path.as_str(), opened)?;
    take_lock(rt, &lock, path.as_str())?;
    Ok(lock)
}

// Fails where no file can be made in a folder. Where only room is wanting it does not, since a cleaning may make some.
fn try_folder<R: Files + AllocGlobal>(rt: &R, folder: &str) -> io::Result<()> {
    let path = format!(in rt.alloc(); "{folder}/new.part")?;
    match File::create_new(rt, path.as_str()) {
        Ok(_) => fs::remove_file(rt, path.as_str()),
        Err(error) => match error.kind() {
            ErrorKind::StorageFull | ErrorKind::QuotaExceeded => Ok(()),
            _ => Err(error),
        },
    }
}

// Whether a file of records has its beginning.
fn is_begun<R: Files>(rt: &R, rows: &str) -> io::Result<bool> {
    match fs::metadata(rt, rows) {
        Ok(found) => Ok(found.len() >= MAGIC.len() as u64),
        Err(error) if error.kind() == ErrorKind::NotFound => Ok(false),
        Err(error) => Err(error),
    }
}

// Whether a folder has contents, and of its file of records not even the beginning. No run leaves it so, since that is on the
// disk before any content is stored, and is never taken off again; and a start over a new file would remove all contents.
fn has_contents_alone<R: Files + AllocGlobal + Clone + Drop>(
    rt: &R,
    folder: &str,
    rows: &str,
) -> io::Result<bool> {
    if is_begun(rt, rows)? {
        return Ok(false);
    }
    let listed = blobs_in(rt, folder)?.list();
    match listed {
        Ok(numbers) => Ok(!numbers.is_empty()),
        Err(BlobFault::NoMemory) => Err(io::Error::from(ErrorKind::OutOfMemory)),
        Err(BlobFault::Failed) => Ok(true),
    }
}

// Fails if a folder has contents alone, or that is not known.
fn refuse_contents_alone<R: Files + AllocGlobal + Eprint + Clone + Drop>(
    rt: &R,
    folder: &str,
    rows: &str,
) -> io::Result<()> {
    let alone = has_contents_alone(rt, folder, rows);
    if told(rt, "look at", rows, alone)? {
        let _ = eprintln!(rt;
            "mvnrepod: cannot open {rows}: it is missing or has no beginning, and {folder}/blobs has contents"
        );
        return Err(io::Error::from(ErrorKind::NotFound));
    }
    Ok(())
}

// The folder of the contents, made if it is missing, and without what stopped runs have left in it.
fn make_blobs<R: Files + AllocGlobal + Eprint + Clone + Drop>(
    rt: &R,
    blobs: &str,
) -> io::Result<()> {
    told(rt, "make the folder", blobs, make_folder(rt, blobs))?;
    told(rt, "read the folder", blobs, clear_parts(rt, blobs))
}

fn locked_disk<F: LockFile + Drop, R: Files<File = F> + AllocGlobal + Eprint + Clone + Drop>(
    rt: &R,
    folder: &str,
) -> io::Result<FolderDisk<F>>
    ensures { IfOk result (λ disk. faults_of disk ≡ 0) }
{
    told(rt, "make the folder", folder, make_folder(rt, folder))?;
    let lock = lock_of(rt, folder)?;
    let blobs = format!(in rt.alloc(); "{folder}/blobs")?;
    make_blobs(rt, blobs.as_str())?;
    let rows = format!(in rt.alloc(); "{folder}/rows")?;
    refuse_contents_alone(rt, folder, rows.as_str())?;
    let tried = try_folder(rt, blobs.as_str());
    told(rt, "make a file in the folder", blobs.as_str(), tried)?;
    let opened = open_file(rt, rows.as_str());
    let file = told(rt, "open", rows.as_str(), opened)?;
    let above = told(rt, "open the folder", folder, fs::open(rt, folder))?;
    let disk = FileDisk::new(file, above);
    Ok(FolderDisk::Open { disk, lock })
}

// What stands for the records of a folder that could not be opened.
fn refused_by<F: LockFile + Drop>(error: io::Error) -> Result<FolderDisk<F>, NoMemory>
    ensures { IfOk result (λ disk. faults_of disk ≡ 0) }
{
    if error.kind() == ErrorKind::OutOfMemory {
        Err(AllocError)
    } else {
        Ok(FolderDisk::Refused { faults: 0 })
    }
}

/// The file `rows` of the folder at this path, for as long as nobody else has it. The folder, its folder `blobs` and the
/// file are made where they are missing; where `blobs` has contents, the file has to have its beginning, of 8 bytes. Else, and
/// where one of these cannot be made, opened, read or written, in `blobs` no file can be made, or another process has the lock
/// of the folder, a line on standard error says which and why, and each call of what is given fails and is counted.
pub fn open_disk<F: LockFile + Drop, R: Files<File = F> + AllocGlobal + Eprint + Clone + Drop>(
    rt: &R,
    folder: &str,
) -> Result<FolderDisk<F>, NoMemory>
    ensures { IfOk result (λ disk. faults_of disk ≡ 0) }
{
    match locked_disk(rt, folder) {
        Ok(disk) => Ok(disk),
        Err(error) => refused_by(error),
    }
}

/// The same of a folder that is there. One that is missing is not made, but refused as one that cannot be made is.
pub fn find_disk<F: LockFile + Drop, R: Files<File = F> + AllocGlobal + Eprint + Clone + Drop>(
    rt: &R,
    folder: &str,
) -> Result<FolderDisk<F>, NoMemory>
    ensures { IfOk result (λ disk. faults_of disk ≡ 0) }
{
    match told(rt, "find the folder", folder, fs::metadata(rt, folder)) {
        Ok(_) => open_disk(rt, folder),
        Err(error) => refused_by(error),
    }
}

/// The blobs of the folder at this path: the files of its folder `blobs`.
pub fn blobs_in<R: Files + AllocGlobal + Clone + Drop>(
    rt: &R,
    folder: &str,
) -> Result<FolderBlobs<R>, NoMemory>
    ensures { IfOk result (λ blobs. blobs ≡ 0) }
{
    let blobs = format!(in rt.alloc(); "{folder}/blobs")?;
    FolderBlobs::new(rt.clone()?, blobs)
}
