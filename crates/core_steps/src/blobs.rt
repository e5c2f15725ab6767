// The store of blobs that cases of the repository stand on.
use outside::{BlobFault, Blobs, Failed, Held, NoMemory, Pen};
use outside_memory::{FaultScript, MemBlobs, MemHeld, MemPen, store_whole};
use std::alloc::{AllocError, Global};

/// The number of the first blob.
const FIRST: u64 = 1;

/// A blob of `CaseBlobs` in use, which tells no bytes.
#[derive(Drop)]
pub struct CaseHeld {
    blob: u64,
    held: MemHeld,
}

impl Held for CaseHeld {
    fn share(&self) -> Result<CaseHeld, NoMemory> {
        Ok(CaseHeld {
            blob: self.blob,
            held: self.held.share()?,
        })
    }
}

/// A blob that is being written to `CaseBlobs`, which tells its number alone.
#[derive(Drop)]
pub struct CasePen {
    blob: u64,
    pen: MemPen,
}

impl Pen for CasePen {
    ghost number = { λ p. p.blob };
}

/// A store of blobs in memory of which contracts see no more than how many calls have failed, so that nothing that is promised of a
/// store that tells its blobs is carried through the cases. Its first blob may give other bytes than were stored.
#[derive(Drop)]
pub struct CaseBlobs {
    blobs: MemBlobs,
    given: Option<MemHeld>,
}

impl CaseBlobs {
    /// A store without blobs, of which the calls with these numbers fail, in any order; the first has the number 0.
    pub fn new(alloc: Global, failing: Vec<u64>) -> CaseBlobs {
        CaseBlobs {
            blobs: MemBlobs::new(alloc, FaultScript::failing_at(failing)),
            given: None,
        }
    }

    /// Reads of the first blob give these bytes from here on, whatever is stored.
    pub fn give(&mut self, alloc: Global, bytes: &[u8]) -> Result<(), AllocError> {
        let mut others = MemBlobs::new(alloc, FaultScript::none(alloc));
        let given = store_whole(&mut others, FIRST, bytes).map_err(|_| AllocError)?;
        self.given = Some(given);
        Ok(())
    }

    /// How many calls have failed.
    pub fn faults(&self) -> u64 {
        self.blobs.faults()
    }

    /// The numbers that were removed, in the order of the calls.
    pub fn removed(&self) -> &[u64] {
        self.blobs.removed()
    }
}

impl Blobs for CaseBlobs {
    type Held = CaseHeld;

    type Pen = CasePen;

    ghost faults = { λ b. b.blobs.script.faults };

    fn begin(&mut self, blob: u64) -> Result<CasePen, BlobFault> {
        let pen = self.blobs.begin(blob)?;
        Ok(CasePen { blob, pen })
    }

    fn append(&mut self, pen: &mut CasePen, bytes: &[u8]) -> Result<(), BlobFault> {
        self.blobs.append(&mut pen.pen, bytes)
    }

    fn seal(&mut self, pen: CasePen) -> Result<CaseHeld, BlobFault> {
        let CasePen { blob, pen } = pen;
        let held = self.blobs.seal(pen)?;
        Ok(CaseHeld { blob, held })
    }

    fn read_at(&mut self, held: &CaseHeld, at: u64, buffer: &mut [u8]) -> Result<usize, Failed> {
        match &self.given {
            Some(given) if held.blob == FIRST => self.blobs.read_at(given, at, buffer),
            _ => self.blobs.read_at(&held.held, at, buffer),
        }
    }

    fn remove(&mut self, blob: u64) -> Result<(), BlobFault> {
        self.blobs.remove(blob)
    }

    fn adopt(&mut self, blob: u64) -> Result<Option<CaseHeld>, BlobFault> {
        match self.blobs.adopt(blob)? {
            Some(held) => Ok(Some(CaseHeld { blob, held })),
            None => Ok(None),
        }
    }

    fn list(&mut self) -> Result<Vec<u64>, BlobFault> {
        self.blobs.list()
    }
}
