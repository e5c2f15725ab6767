//! The file with the records of a folder.
ghost use Rattle.std.specs.Prelude.{◌<◌, ◌+◌, ◌^◌, ◌≡◌, length, IfOk, IsErr, OnOk};
ghost use Rattle.outside.specs.Faults.{HasCause, Rose};
ghost use Rattle.data_folder.specs.Faults.{IsRefused, faults_of};

use outside::Failed;
use record_disk::{Disk, FileDisk};
use std::fs::OpenFile;
use std::os::unix::fs::FileExt;

/// The file with the records of a folder, while it is locked; or one that could not be opened, of which each call fails.
/// It tells nothing but its faults.
#[derive(Drop)]
pub enum FolderDisk<F: FileExt + OpenFile + Drop> {
    /// The lock is given back when this is dropped.
    Open { disk: FileDisk<F>, lock: F },
    /// How many calls have failed.
    Refused { faults: u64 },
}

// A call of a file that could not be opened.
fn refuse(faults: &mut u64) -> Failed
    ensures { Rose faults.old faults.new }
{
    *faults = faults.saturating_add(1);
    Failed
}

impl<F: FileExt + OpenFile + Drop> Disk for FolderDisk<F> {
    ghost faults = { faults_of };

    fn size(&mut self) -> Result<u64, Failed>
        ensures cause { HasCause (faults_of self.old) (faults_of self.new) result }
        ensures within { IfOk result (λ size. size < 2 ^ 63) }
        ensures refused { IsRefused self.old → IsErr result × IsRefused self.new }
    {
        match self {
            FolderDisk::Open { disk, .. } => disk.size(),
            FolderDisk::Refused { faults } => Err(refuse(faults)),
        }
    }

    fn read(&mut self, at: u64, buffer: &mut [u8]) -> Result<(), Failed>
        ensures cause { HasCause (faults_of self.old) (faults_of self.new) result }
        ensures length { length buffer.new ≡ length buffer.old }
        ensures refused { IsRefused self.old → IsErr result × IsRefused self.new }
    {
        match self {
            FolderDisk::Open { disk, .. } => disk.read(at, buffer),
            FolderDisk::Refused { faults } => Err(refuse(faults)),
        }
    }

    fn write_at(&mut self, at: u64, bytes: &[u8]) -> Result<(), Failed>
        ensures cause { HasCause (faults_of self.old) (faults_of self.new) result }
        ensures within { OnOk result (at + length bytes.now < 2 ^ 63) }
        ensures refused { IsRefused self.old → IsErr result × IsRefused self.new }
    {
        match self {
            FolderDisk::Open { disk, .. } => disk.write_at(at, bytes),
            FolderDisk::Refused { faults } => Err(refuse(faults)),
        }
    }

    fn cut(&mut self, size: u64) -> Result<(), Failed>
        ensures cause { HasCause (faults_of self.old) (faults_of self.new) result }
        ensures refused { IsRefused self.old → IsErr result × IsRefused self.new }
    {
        match self {
            FolderDisk::Open { disk, .. } => disk.cut(size),
            FolderDisk::Refused { faults } => Err(refuse(faults)),
        }
    }

    fn sync(&mut self) -> Result<(), Failed>
        ensures cause { HasCause (faults_of self.old) (faults_of self.new) result }
        ensures refused { IsRefused self.old → IsErr result × IsRefused self.new }
    {
        match self {
            FolderDisk::Open { disk, .. } => disk.sync(),
            FolderDisk::Refused { faults } => Err(refuse(faults)),
        }
    }
}
