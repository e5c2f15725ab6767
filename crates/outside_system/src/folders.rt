//! Blobs in a folder: one file for each, which has its number in decimal for its name.
ghost use Rattle.std.specs.Prelude.{◌≡◌, ◌<◌, ◌≤◌, ◌+◌, ◌^◌, length, IfOk, IfSome, IsSorted};
ghost use Rattle.std.specs.Ordering.{nat_cmp};
ghost use Rattle.outside.specs.Blobs.{HasBlobCause};
ghost use Rattle.outside.specs.Faults.{HasCause};

use crate::blob_files::{
    begin_file, has_file, numbers_in, open_path, remove_files, seal_file, write_path,
};
use crate::open_blobs::{FolderPen, MOST_BYTES, OpenBlob};
use outside::{BlobFault, Blobs, Failed, Held, NoMemory};
use std::fs::{self, Files, OpenFile};
use std::io::{self, ErrorKind};
use std::marker::Model;

/// A blob of a folder in use. Contracts see its number; it tells no bytes.
#[derive(Drop)]
pub struct FolderHeld {
    blob: u64,
}

impl Model for FolderHeld {
    ghost use Rattle.std.specs.Prelude.{ℕ};

    ghost Value = { ℕ };

    ghost view = { λ h. h.blob };
}

impl Held for FolderHeld {
    fn share(&self) -> Result<FolderHeld, NoMemory>
        ensures { IfOk result (λ held. held ≡ self.now) }
    {
        Ok(FolderHeld { blob: self.blob })
    }
}

// The longest that stands after a folder in the path of a number's file: a slash and the digits of 2^64 - 1.
const PATH_END: usize = 21;

/// The blobs of a folder. Contracts see how many calls have failed; it tells no blobs.
///
/// A call fails where the system refuses it; where the folder is missing, no number stands there and `begin`, `read_at` and
/// `list` fail. `seal` answers Ok once the system keeps the bytes and their name, whatever stops afterwards. What a pen that is
/// stopped leaves is not listed, or it is the whole blob. What has a number for its name and is no file, as a folder or a pipe,
/// is no blob: it is neither listed nor adopted nor opened, and where it is a folder `begin` fails at its number.
///
/// The file of the blob that `read_at` read last stays open, until its end was read, another is read or its number is begun,
/// sealed or removed.
#[derive(Drop)]
pub struct FolderBlobs<R: Files + AllocGlobal + Clone + Drop> {
    rt: R,
    folder: String,
    path: String,
    open: Option<OpenBlob<R::File>>,
    faults: u64,
}

impl<R: Files + AllocGlobal + Clone + Drop> Model for FolderBlobs<R> {
    ghost use Rattle.std.specs.Prelude.{ℕ};

    ghost Value = { ℕ };

    ghost view = { λ b. b.faults };
}

impl<R: Files + AllocGlobal + Clone + Drop> FolderBlobs<R> {
    /// The blobs of the folder at this path. Nothing is looked at yet.
    pub fn new(rt: R, folder: String) -> Result<FolderBlobs<R>, NoMemory>
        ensures { IfOk result (λ blobs. blobs ≡ 0) }
    {
        let path = String::with_capacity(rt.alloc(), folder.len().saturating_add(PATH_END))?;
        Ok(FolderBlobs {
            rt,
            folder,
            path,
            open: None,
            faults: 0,
        })
    }

    /// How many calls have failed.
    pub fn faults(&self) -> u64
        ensures { result ≡ self.now }
    {
        self.faults
    }

    // What a call answers whose work ended so. Out of memory is not counted.
    fn counted<T: Drop>(&mut self, did: io::Result<T>) -> Result<T, BlobFault>
        ensures cause { HasBlobCause self.old self.new result }
        ensures value { IfOk result (λ value. did ≡ Ok value) }
    {
        match did {
            Ok(value) => Ok(value),
            Err(error) if error.kind() == ErrorKind::OutOfMemory => Err(BlobFault::NoMemory),
            Err(_) => {
                self.faults = self.faults.saturating_add(1);
                Err(BlobFault::Failed)
            }
        }
    }

    // The file of a number is not kept open.
    fn close(&mut self, blob: u64)
        ensures { self.new ≡ self.old }
    {
        if let Some(open) = &self.open
            && open.blob == blob
        {
            self.open = None;
        }
    }

    // The file of a number, opened where it isn't open. It takes no memory.
    fn opened(&mut self, blob: u64) -> Result<OpenBlob<R::File>, Failed>
        ensures { self.new ≡ self.old }
    {
        if let Some(open) = self.open.take()
            && open.blob == blob
        {
            return Ok(open);
        }
        let Ok(()) = write_path(&mut self.path, self.folder.as_str(), blob) else {
            return Err(Failed);
        };
        match open_path(&self.rt, self.path.as_str()) {
            Ok(file) => Ok(OpenBlob { blob, file, at: 0 }),
            Err(_) => Err(Failed),
        }
    }

    // Reads some bytes of a number's file. It is kept open until its end was read.
    fn read_some(&mut self, blob: u64, at: u64, buffer: &mut [u8]) -> Result<usize, Failed>
        requires { at < 2 ^ 63 }
        ensures count { IfOk result (λ n. n ≤ length buffer.new) }
        ensures kept { self.new ≡ self.old }
    {
        let mut open = self.opened(blob)?;
        let count = open.read_at(at, buffer)?;
        if count > 0 {
            self.open = Some(open);
        }
        Ok(count)
    }

    // Reads no byte past the greatest length of a blob.
    fn read_within(&mut self, blob: u64, at: u64, buffer: &mut [u8]) -> Result<usize, Failed>
        ensures count { IfOk result (λ n. n ≤ length buffer.new) }
        ensures below { IfOk result (λ n. 0 < n → at + n < 2 ^ 63) }
        ensures kept { self.new ≡ self.old }
    {
        if at >= MOST_BYTES {
            return Ok(0);
        }
        let most = (MOST_BYTES - at).min(buffer.len() as u64) as usize;
        self.read_some(blob, at, &mut buffer[..most])
    }

    // Ends the file of a pen, and waits until the system keeps its name.
    fn seal_pen(&mut self, mut pen: FolderPen<R::File>, blob: u64) -> io::Result<()>
        ensures { self.new ≡ self.old }
    {
        seal_file(&self.rt, self.folder.as_str(), blob, pen.file()?)?;
        pen.release();
        fs::open(&self.rt, self.folder.as_str())?.sync_all()
    }
}

impl<R: Files + AllocGlobal + Clone + Drop> Blobs for FolderBlobs<R> {
    type Held = FolderHeld;

    type Pen = FolderPen<R::File>;

    ghost faults = { λ b. b };

    fn begin(&mut self, blob: u64) -> Result<FolderPen<R::File>, BlobFault>
        ensures cause { HasBlobCause self.old self.new result }
        ensures pen { IfOk result (λ pen. pen ≡ blob) }
    {
        self.close(blob);
        let begun = begin_file(&self.rt, self.folder.as_str(), blob);
        let file = self.counted(begun)?;
        Ok(FolderPen::new(blob, file))
    }

    fn append(&mut self, pen: &mut FolderPen<R::File>, bytes: &[u8]) -> Result<(), BlobFault>
        ensures cause { HasBlobCause self.old self.new result }
        ensures pen { pen.new ≡ pen.old }
    {
        let written = pen.append(bytes);
        self.counted(written)
    }

    fn seal(&mut self, pen: FolderPen<R::File>) -> Result<FolderHeld, BlobFault>
        ensures cause { HasBlobCause self.old self.new result }
        ensures held { IfOk result (λ held. held ≡ pen) }
    {
        let blob = pen.blob();
        self.close(blob);
        let sealed = self.seal_pen(pen, blob);
        self.counted(sealed)?;
        Ok(FolderHeld { blob })
    }

    fn read_at(&mut self, held: &FolderHeld, at: u64, buffer: &mut [u8]) -> Result<usize, Failed>
        ensures cause { HasCause self.old self.new result }
        ensures count { IfOk result (λ n. n ≤ length buffer.new) }
        ensures below { IfOk result (λ n. 0 < n → at + n < 2 ^ 63) }
    {
        let read = self.read_within(held.blob, at, buffer);
        if read.is_err() {
            self.faults = self.faults.saturating_add(1);
        }
        read
    }

    fn remove(&mut self, blob: u64) -> Result<(), BlobFault>
        ensures { HasBlobCause self.old self.new result }
    {
        self.close(blob);
        let removed = remove_files(&self.rt, self.folder.as_str(), blob);
        self.counted(removed)
    }

    fn adopt(&mut self, blob: u64) -> Result<Option<FolderHeld>, BlobFault>
        ensures cause { HasBlobCause self.old self.new result }
        ensures held { IfOk result (λ found. IfSome found (λ held. held ≡ blob)) }
    {
        let found = has_file(&self.rt, self.folder.as_str(), blob);
        if self.counted(found)? {
            Ok(Some(FolderHeld { blob }))
        } else {
            Ok(None)
        }
    }

    fn list(&mut self) -> Result<Vec<u64>, BlobFault>
        ensures cause { HasBlobCause self.old self.new result }
        ensures rising { IfOk result (λ numbers. IsSorted nat_cmp numbers.items) }
    {
        let numbers = numbers_in(&self.rt, self.folder.as_str());
        self.counted(numbers)
    }
}
