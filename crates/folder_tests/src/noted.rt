// The real file system, which notes the calls that open, change or sync something of it, in their order. One of them may be refused.
use data_folder::LockFile;
use std::alloc::{AllocError, Allocator, Global};
use std::cell::Cell;
use std::fmt::Display;
use std::fs::{self, File, Files, Metadata, OpenFile, OpenOptions};
use std::io::{self, Eprint, ErrorKind, Read, Seek, SeekFrom, Write};
use std::os::unix::fs::FileExt;
use std::rc::Rc;

/// A line, and the fault of each call that it notes, which is not made.
#[derive(Drop)]
struct Refusal {
    line: String,
    kind: ErrorKind,
}

/// The calls so far, a line for each, which all that share it see.
#[derive(Drop)]
pub struct Notes {
    alloc: Global,
    lines: Rc<Cell<String>>,
    refusal: Option<Refusal>,
}

impl Notes {
    /// Of a file system that refuses nothing.
    pub fn new(alloc: Global) -> Result<Notes, AllocError> {
        Notes::over(alloc, None)
    }

    /// Of one that refuses each call of this line.
    pub fn refusing(alloc: Global, line: &str, kind: ErrorKind) -> Result<Notes, AllocError> {
        let line = String::from_str(alloc, line)?;
        Notes::over(alloc, Some(Refusal { line, kind }))
    }

    fn over(alloc: Global, refusal: Option<Refusal>) -> Result<Notes, AllocError> {
        let lines = Rc::new(alloc, Cell::new(String::new(alloc)))?;
        Ok(Notes {
            alloc,
            lines,
            refusal,
        })
    }

    fn share(&self) -> Result<Notes, AllocError> {
        let refusal = match &self.refusal {
            Some(refusal) => Some(Refusal {
                line: refusal.line.clone()?,
                kind: refusal.kind,
            }),
            None => None,
        };
        Ok(Notes {
            alloc: self.alloc,
            lines: self.lines.clone()?,
            refusal,
        })
    }

    fn add(&self, line: &str) -> Result<(), AllocError> {
        let mut lines = self.take();
        lines.push_str(line)?;
        lines.push('\n')?;
        self.lines.set(lines);
        Ok(())
    }

    // A call of this name on a path, which may be refused.
    fn add_call(&self, name: &str, path: &str) -> io::Result<()> {
        let line = format!(in self.alloc; "{name} {path}")?;
        self.add(line.as_str())?;
        match &self.refusal {
            Some(refusal) if line.as_str() == refusal.line.as_str() => Err(refusal.kind.into()),
            _ => Ok(()),
        }
    }

    /// The lines since they were last taken.
    pub fn take(&self) -> String {
        self.lines.replace(String::new(self.alloc))
    }
}

/// The file system.
#[derive(Drop)]
pub struct Noted {
    rt: HostRuntime,
    notes: Notes,
}

impl Noted {
    pub fn new(rt: &HostRuntime, notes: &Notes) -> Result<Noted, AllocError> {
        Ok(Noted {
            rt: rt.clone()?,
            notes: notes.share()?,
        })
    }
}

impl Clone for Noted {
    fn clone(&self) -> Result<Noted, AllocError> {
        Ok(Noted {
            rt: self.rt.clone()?,
            notes: self.notes.share()?,
        })
    }
}

impl Alloc for Noted {
    type A = Global;

    fn alloc(&self) -> Global {
        self.rt.alloc()
    }
}

/// Lines of standard error are noted, and not written.
impl Eprint for Noted {
    fn eprint<D: Display + Drop>(&self, value: D) -> io::Result<()> {
        self.notes
            .add_call("say", format!(in self.rt.alloc(); "{value}")?.as_str())
    }

    fn eprintln<D: Display + Drop>(&self, value: D) -> io::Result<()> {
        self.eprint(value)
    }
}

/// What a file is opened for.
fn purpose(how: &OpenOptions) -> &'static str {
    if how.asks_create_new() {
        "make"
    } else if how.asks_truncate() {
        "overwrite"
    } else if how.asks_write() {
        "open to write"
    } else {
        "open"
    }
}

impl Files for Noted {
    type File = NotedFile;

    type Dir = <HostRuntime as Files>::Dir;

    fn open_file(&self, how: &OpenOptions, path: &str) -> io::Result<NotedFile> {
        self.notes.add_call(purpose(how), path)?;
        Ok(NotedFile {
            file: self.rt.open_file(how, path)?,
            path: String::from_str(self.rt.alloc(), path)?,
            notes: self.notes.share()?,
        })
    }

    fn open_dir(&self, path: &str) -> io::Result<<HostRuntime as Files>::Dir> {
        self.notes.add_call("list", path)?;
        self.rt.open_dir(path)
    }

    fn metadata(&self, path: &str) -> io::Result<Metadata> {
        self.notes.add_call("look at", path)?;
        fs::metadata(&self.rt, path)
    }

    fn symlink_metadata(&self, path: &str) -> io::Result<Metadata> {
        self.notes.add_call("look at link", path)?;
        fs::symlink_metadata(&self.rt, path)
    }

    fn copy(&self, from: &str, to: &str) -> io::Result<u64> {
        self.notes.add_call("copy to", to)?;
        fs::copy(&self.rt, from, to)
    }

    fn rename(&self, from: &str, to: &str) -> io::Result<()> {
        self.notes.add_call("rename", from)?;
        self.notes.add_call("to", to)?;
        fs::rename(&self.rt, from, to)
    }

    fn remove_file(&self, path: &str) -> io::Result<()> {
        self.notes.add_call("remove", path)?;
        fs::remove_file(&self.rt, path)
    }

    fn create_dir(&self, path: &str) -> io::Result<()> {
        self.notes.add_call("make folder", path)?;
        fs::create_dir(&self.rt, path)
    }

    fn remove_dir(&self, path: &str) -> io::Result<()> {
        self.notes.add_call("remove folder", path)?;
        fs::remove_dir(&self.rt, path)
    }

    fn remove_dir_all<B: Allocator>(&self, alloc: B, path: &str) -> io::Result<()> {
        self.notes.add_call("remove all of", path)?;
        self.rt.remove_dir_all(alloc, path)
    }
}

/// An open file. Its reads at places are not noted.
#[derive(Drop)]
pub struct NotedFile {
    file: File,
    path: String,
    notes: Notes,
}

impl NotedFile {
    fn note(&self, name: &str) -> io::Result<()> {
        self.notes.add_call(name, self.path.as_str())
    }
}

impl Read for NotedFile {
    fn read(&mut self, buf: &mut [u8]) -> io::Result<usize> {
        self.note("read")?;
        self.file.read(buf)
    }
}

impl Write for NotedFile {
    fn write(&mut self, buf: &[u8]) -> io::Result<usize> {
        self.note("write")?;
        self.file.write(buf)
    }

    fn flush(&mut self) -> io::Result<()> {
        self.file.flush()
    }
}

impl Seek for NotedFile {
    fn seek(&mut self, to: SeekFrom) -> io::Result<u64> {
        self.file.seek(to)
    }
}

impl FileExt for NotedFile {
    fn read_at(&self, buf: &mut [u8], offset: u64) -> io::Result<usize> {
        self.file.read_at(buf, offset)
    }

    fn write_at(&self, buf: &[u8], offset: u64) -> io::Result<usize> {
        self.note("write")?;
        self.file.write_at(buf, offset)
    }
}

impl OpenFile for NotedFile {
    fn metadata(&self) -> io::Result<Metadata> {
        self.file.metadata()
    }

    fn set_len(&self, size: u64) -> io::Result<()> {
        self.note("cut")?;
        self.file.set_len(size)
    }

    fn sync_all(&self) -> io::Result<()> {
        self.note("sync")?;
        self.file.sync_all()
    }

    fn sync_data(&self) -> io::Result<()> {
        self.note("sync data of")?;
        self.file.sync_data()
    }
}

impl LockFile for NotedFile {
    fn try_lock(&self) -> io::Result<()> {
        self.note("lock")?;
        self.file.try_lock()?;
        Ok(())
    }
}
