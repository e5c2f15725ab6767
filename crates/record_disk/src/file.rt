//! A disk over a file of the system. No contract knows what the system keeps, so it tells nothing but its faults.
ghost use Rattle.std.specs.Prelude.{◌≡◌, ◌<◌, ◌+◌, ◌^◌, length, None, IfOk, OnOk, MatchResult, Ok};
ghost use Rattle.outside.specs.Faults.{HasCause, Rose};

use crate::disk::Disk;
use outside::Failed;
use std::fs::OpenFile;
use std::io;
use std::io::ErrorKind;
use std::marker::Model;
use std::os::unix::fs::FileExt;

// The size that no file passes.
const MOST: u64 = (1 << 63) - 1;

/// A disk over an open file, for reading and writing, and over the folder that has it, which its first sync also syncs.
/// Contracts see how many calls have failed.
#[derive(Drop)]
pub struct FileDisk<F: FileExt + OpenFile + Drop> {
    file: F,
    /// Until it is synced.
    folder: Option<F>,
    faults: u64,
}

impl<F: FileExt + OpenFile + Drop> Model for FileDisk<F> {
    ghost use Rattle.std.specs.Prelude.{ℕ};

    ghost Value = { ℕ };

    ghost view = { λ d. d.faults };
}

impl<F: FileExt + OpenFile + Drop> FileDisk<F> {
    /// A disk over this file.
    pub fn new(file: F, folder: F) -> FileDisk<F>
        ensures { result ≡ 0 }
    {
        FileDisk {
            file,
            folder: Some(folder),
            faults: 0,
        }
    }
}

// The answer of a call of the system; a fault is counted.
fn counted<T: Drop>(answer: io::Result<T>, faults: &mut u64) -> Result<T, Failed>
    ensures cause { HasCause faults.old faults.new result }
    ensures value { IfOk result (λ value. answer ≡ Ok value) }
{
    match answer {
        Ok(value) => Ok(value),
        Err(_) => {
            *faults = faults.saturating_add(1);
            Err(Failed)
        }
    }
}

fn size_of<F: OpenFile>(file: &F) -> io::Result<u64>
    ensures { IfOk result (λ size. size < 2 ^ 63) }
{
    let size = file.metadata()?.len();
    if size > MOST {
        return Err(ErrorKind::FileTooLarge.into());
    }
    Ok(size)
}

// A write that leaves no gap after the end.
fn write_whole<F: FileExt + OpenFile>(file: &F, at: u64, bytes: &[u8]) -> io::Result<()>
    ensures { OnOk result (at + length bytes.now < 2 ^ 63) }
{
    if at > size_of(file)? || bytes.len() as u64 > MOST - at {
        return Err(ErrorKind::InvalidInput.into());
    }
    file.write_all_at(bytes, at)
}

fn cut_off<F: OpenFile>(file: &F, size: u64) -> io::Result<()> {
    if size < size_of(file)? {
        file.set_len(size)?;
    }
    Ok(())
}

fn sync_both<F: OpenFile + Drop>(file: &F, folder: &mut Option<F>) -> io::Result<()> {
    file.sync_data()?;
    if let Some(unsynced) = folder {
        unsynced.sync_all()?;
    }
    *folder = None;
    Ok(())
}

impl<F: FileExt + OpenFile + Drop> Disk for FileDisk<F> {
    ghost faults = { λ faults. faults };

    fn size(&mut self) -> Result<u64, Failed> {
        counted(size_of(&self.file), &mut self.faults)
    }

    fn read(&mut self, at: u64, buffer: &mut [u8]) -> Result<(), Failed> {
        counted(self.file.read_exact_at(buffer, at), &mut self.faults)
    }

    fn write_at(&mut self, at: u64, bytes: &[u8]) -> Result<(), Failed> {
        counted(write_whole(&self.file, at, bytes), &mut self.faults)
    }

    fn cut(&mut self, size: u64) -> Result<(), Failed> {
        counted(cut_off(&self.file, size), &mut self.faults)
    }

    fn sync(&mut self) -> Result<(), Failed> {
        counted(sync_both(&self.file, &mut self.folder), &mut self.faults)
    }
}
