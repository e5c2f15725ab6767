//! A disk that says how much of its file a cut takes off.
ghost use Rattle.std.specs.Prelude.{◌≡◌};

use outside::Failed;
use record_disk::Disk;
use std::io::Eprint;
use std::marker::Model;

/// A disk over another one, which says on standard error how many bytes each cut takes off, before it is made. A journal cuts
/// what stands after its last record, and nothing else. Where the line cannot be written the cut is made all the same. Where the
/// size is not known nothing is cut and nothing said, and the call fails. Contracts see the trace of the disk below, where it
/// tells one, and how many of its calls have failed.
#[derive(Drop)]
pub struct ReportingDisk<D: Disk + Drop, R: Eprint + Drop> {
    disk: D,
    rt: R,
}

impl<D: Disk + Drop, R: Eprint + Drop> Model for ReportingDisk<D, R> {
    ghost use Rattle.std.specs.Coded.{codes};
    ghost use Rattle.record_disk.specs.Codes.{trace_code};
    ghost use Rattle.data_folder.specs.Reporting.{DiskState};

    ghost Value = { DiskState };

    ghost coded = { Prim.hlevel (codes, trace_code) };

    ghost view = { λ d. record { trace = D.trace d.disk; faults = D.faults d.disk } };
}

impl<D: Disk + Drop, R: Eprint + Drop> ReportingDisk<D, R> {
    /// A disk over this one.
    pub fn new(disk: D, rt: R) -> ReportingDisk<D, R>
        ensures { (result.trace ≡ D.trace disk) × (result.faults ≡ D.faults disk) }
    {
        ReportingDisk { disk, rt }
    }
}

impl<D: Disk + Drop, R: Eprint + Drop> Disk for ReportingDisk<D, R> {
    ghost faults = { λ d. d.faults };

    ghost trace = { λ d. d.trace };

    fn size(&mut self) -> Result<u64, Failed> {
        self.disk.size()
    }

    fn read(&mut self, at: u64, buffer: &mut [u8]) -> Result<(), Failed> {
        self.disk.read(at, buffer)
    }

    fn write_at(&mut self, at: u64, bytes: &[u8]) -> Result<(), Failed> {
        self.disk.write_at(at, bytes)
    }

    fn cut(&mut self, size: u64) -> Result<(), Failed> {
        let before = self.disk.size()?;
        if size < before {
            let _ = eprintln!(self.rt; "mvnrepod: tail {}", before - size);
        }
        self.disk.cut(size)
    }

    fn sync(&mut self) -> Result<(), Failed> {
        self.disk.sync()
    }
}
