//! Files that can be locked.
use std::fs::{File, OpenFile};
use std::io;
use std::os::unix::fs::FileExt;

/// A file that is read and written at places, and of which one open at a time can have the lock.
pub trait LockFile: FileExt + OpenFile {
    /// Takes the lock, until the file is dropped. It fails where another open of the file has it.
    fn try_lock(&self) -> io::Result<()>;
}

impl LockFile for File {
    fn try_lock(&self) -> io::Result<()> {
        File::try_lock(self)?;
        Ok(())
    }
}
