// A disk of a program that is stopped: it tells nothing but its faults, as a file of the system does.
ghost use Rattle.std.specs.Prelude.{◌≡◌};
ghost use Rattle.outside.specs.Faults.{HasCause};

use outside::Failed;
use record_disk::Disk;
use std::marker::Model;

// A disk whose calls reach the one inside as long as the program runs, which is for so many of them. Contracts see how many
// have failed.
#[derive(Drop)]
pub struct Crashing<D: Disk + Drop> {
    disk: D,
    left: u64,
    faults: u64,
}

impl<D: Disk + Drop> Model for Crashing<D> {
    ghost use Rattle.std.specs.Prelude.{ℕ};

    ghost Value = { ℕ };

    ghost view = { λ d. d.faults };
}

impl<D: Disk + Drop> Crashing<D> {
    pub fn new(disk: D, left: u64) -> Crashing<D>
        ensures { result ≡ 0 }
    {
        Crashing {
            disk,
            left,
            faults: 0,
        }
    }

    // The disk inside, as the crash has left it.
    pub fn inside(&self) -> &D {
        &self.disk
    }

    // One call less is left; none fails, and is counted.
    fn runs(&mut self) -> Result<(), Failed>
        ensures { HasCause self.old self.new result }
    {
        if self.left == 0 {
            return counted(Err(Failed), &mut self.faults);
        }
        self.left -= 1;
        Ok(())
    }
}

// The answer of a call, whose failure is counted.
fn counted<T: Drop>(answer: Result<T, Failed>, faults: &mut u64) -> Result<T, Failed>
    ensures cause { HasCause faults.old faults.new result }
    ensures same { result ≡ answer }
{
    if answer.is_err() {
        *faults = faults.saturating_add(1);
    }
    answer
}

impl<D: Disk + Drop> Disk for Crashing<D> {
    ghost faults = { λ faults. faults };

    fn size(&mut self) -> Result<u64, Failed> {
        self.runs()?;
        counted(self.disk.size(), &mut self.faults)
    }

    fn read(&mut self, at: u64, buffer: &mut [u8]) -> Result<(), Failed> {
        self.runs()?;
        counted(self.disk.read(at, buffer), &mut self.faults)
    }

    fn write_at(&mut self, at: u64, bytes: &[u8]) -> Result<(), Failed> {
        self.runs()?;
        counted(self.disk.write_at(at, bytes), &mut self.faults)
    }

    fn cut(&mut self, size: u64) -> Result<(), Failed> {
        self.runs()?;
        counted(self.disk.cut(size), &mut self.faults)
    }

    fn sync(&mut self) -> Result<(), Failed> {
        self.runs()?;
        counted(self.disk.sync(), &mut self.faults)
    }
}
