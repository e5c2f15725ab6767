//! Twins over one store of blobs in memory.
ghost use Rattle.std.specs.Prelude.{◌≡◌, ◌<◌, ◌≤◌, ◌+◌, ◌^◌, [], ◌++◌, length, IfOk, IsFalse, OnErr, OnOk, false, true};
ghost use Rattle.outside.specs.Blobs.{HasBlobCause, IsPart};
ghost use Rattle.outside.specs.Faults.{HasCause};

use crate::meeting::Meeting;
use outside::{BlobFault, Blobs, Failed, NoMemory};
use outside_memory::{MemBlobs, MemHeld, MemPen};
use std::alloc::Global;
use std::marker::Model;
use std::sync::{Arc, Mutex, MutexGuard};
use std::thread::yield_now;

// What all twins share.
#[derive(Drop)]
struct Shared {
    store: Mutex<MemBlobs>,
    meeting: Meeting,
}

impl Shared {
    // The store for one call. It fails where another thread had it at each of 2^64 - 1 tries, which no run makes.
    fn taken(&self) -> Result<MutexGuard<'_, MemBlobs>, Failed> {
        for _ in 0..u64::MAX {
            if let Some(store) = self.store.try_lock() {
                return Ok(store);
            }
            yield_now();
        }
        Err(Failed)
    }

    fn seal(&self, pen: MemPen) -> Result<MemHeld, BlobFault>
        ensures { IfOk result (λ held. held ≡ pen.bytes) }
    {
        let mut store = self.taken()?;
        store.seal(pen)
    }
}

/// One of several twins over one store of blobs in memory, which may each be used by a thread of its own. A blob that one of
/// them stores is there for all.
///
/// A stated number of twins meet: each of these waits at its first read for the first reads of the others, and that read fails
/// where they don't come, after 1,000,000 looks. So reads that go through show that so many threads were at work at once. A
/// call fails otherwise where the store's fails. Contracts see whether a twin is still to meet the others, and how many of its own calls have
/// failed. It tells no blobs, since other threads change them; a blob in use tells its bytes.
#[derive(Drop)]
pub struct HeldBlobs {
    shared: Arc<Shared, Global>,
    is_to_meet: bool,
    faults: u64,
}

impl Model for HeldBlobs {
    ghost use Rattle.outside_meeting.specs.Twins.{Twin};

    ghost Value = { Twin };

    ghost view = { λ b. record { is_to_meet = b.is_to_meet; faults = b.faults } };
}

impl HeldBlobs {
    /// A store's first twin, which meets nobody. So many others are to meet.
    pub fn new(alloc: Global, store: MemBlobs, members: u64) -> Result<HeldBlobs, NoMemory>
        ensures { IfOk result (λ twin. twin ≡ record { is_to_meet = false; faults = 0 }) }
    {
        let shared = Shared {
            store: Mutex::new(store),
            meeting: Meeting::new(members),
        };
        Ok(HeldBlobs {
            shared: Arc::new(alloc, shared)?,
            is_to_meet: false,
            faults: 0,
        })
    }

    /// One more twin over the same store, which is to meet the others.
    pub fn member(&self) -> Result<HeldBlobs, NoMemory>
        ensures { IfOk result (λ twin. twin ≡ record { is_to_meet = true; faults = 0 }) }
    {
        Ok(HeldBlobs {
            shared: Arc::try_clone(&self.shared)?,
            is_to_meet: true,
            faults: 0,
        })
    }

    /// How many of its calls have failed.
    pub fn faults(&self) -> u64
        ensures { result ≡ self.now.faults }
    {
        self.faults
    }

    // What a call of the store answers. A failure is counted.
    fn counted<T: Drop>(&mut self, did: Result<T, BlobFault>) -> Result<T, BlobFault>
        ensures cause { HasBlobCause self.old.faults self.new.faults result }
        ensures same { result ≡ did }
        ensures kept { self.new.is_to_meet ≡ self.old.is_to_meet }
    {
        if let Err(BlobFault::Failed) = did {
            self.faults = self.faults.saturating_add(1);
        }
        did
    }

    // The same of a call that takes no memory.
    fn counted_failure<T: Drop>(&mut self, did: Result<T, Failed>) -> Result<T, Failed>
        ensures cause { HasCause self.old.faults self.new.faults result }
        ensures same { result ≡ did }
        ensures kept { self.new.is_to_meet ≡ self.old.is_to_meet }
    {
        if did.is_err() {
            self.faults = self.faults.saturating_add(1);
        }
        did
    }

    // Meets the others where that is still to be done.
    fn meet(&mut self) -> Result<(), Failed>
        ensures cause { HasCause self.old.faults self.new.faults result }
        ensures met { IsFalse self.new.is_to_meet }
    {
        if !self.is_to_meet {
            return Ok(());
        }
        self.is_to_meet = false;
        if self.shared.meeting.attend() {
            return Ok(());
        }
        self.counted_failure(Err(Failed))
    }
}

impl Blobs for HeldBlobs {
    type Held = MemHeld;

    type Pen = MemPen;

    ghost faults = { λ b. b.faults };

    fn begin(&mut self, blob: u64) -> Result<MemPen, BlobFault>
        ensures cause { HasBlobCause self.old.faults self.new.faults result }
        ensures pen { IfOk result (λ pen. pen ≡ record { number = blob; bytes = [] }) }
        ensures kept { self.new.is_to_meet ≡ self.old.is_to_meet }
    {
        let begun = match self.shared.taken() {
            Ok(mut store) => store.begin(blob),
            Err(failed) => Err(failed.into()),
        };
        self.counted(begun)
    }

    fn append(&mut self, pen: &mut MemPen, bytes: &[u8]) -> Result<(), BlobFault>
        ensures cause { HasBlobCause self.old.faults self.new.faults result }
        ensures ok { OnOk result (pen.new ≡ record pen.old { bytes = pen.old.bytes ++ bytes.now }) }
        ensures most { OnOk result (length pen.new.bytes < 2 ^ 63) }
        ensures err { OnErr result (pen.new ≡ pen.old) }
        ensures kept { self.new.is_to_meet ≡ self.old.is_to_meet }
    {
        let written = match self.shared.taken() {
            Ok(mut store) => store.append(pen, bytes),
            Err(failed) => Err(failed.into()),
        };
        self.counted(written)
    }

    fn seal(&mut self, pen: MemPen) -> Result<MemHeld, BlobFault>
        ensures cause { HasBlobCause self.old.faults self.new.faults result }
        ensures told { IfOk result (λ held. held ≡ pen.bytes) }
        ensures kept { self.new.is_to_meet ≡ self.old.is_to_meet }
    {
        let sealed = self.shared.seal(pen);
        self.counted(sealed)
    }

    fn read_at(&mut self, held: &MemHeld, at: u64, buffer: &mut [u8]) -> Result<usize, Failed>
        ensures cause { HasCause self.old.faults self.new.faults result }
        ensures count { IfOk result (λ n. n ≤ length buffer.new) }
        ensures below { IfOk result (λ n. 0 < n → at + n < 2 ^ 63) }
        ensures part { IfOk result (λ n. IsPart held.now at n buffer.new) }
        ensures met { IsFalse self.new.is_to_meet }
    {
        self.meet()?;
        let read = match self.shared.taken() {
            Ok(mut store) => store.read_at(held, at, buffer),
            Err(failed) => Err(failed),
        };
        self.counted_failure(read)
    }

    fn remove(&mut self, blob: u64) -> Result<(), BlobFault>
        ensures cause { HasBlobCause self.old.faults self.new.faults result }
        ensures kept { self.new.is_to_meet ≡ self.old.is_to_meet }
    {
        let removed = match self.shared.taken() {
            Ok(mut store) => store.remove(blob),
            Err(failed) => Err(failed.into()),
        };
        self.counted(removed)
    }

    fn adopt(&mut self, blob: u64) -> Result<Option<MemHeld>, BlobFault>
        ensures cause { HasBlobCause self.old.faults self.new.faults result }
        ensures kept { self.new.is_to_meet ≡ self.old.is_to_meet }
    {
        let adopted = match self.shared.taken() {
            Ok(mut store) => store.adopt(blob),
            Err(failed) => Err(failed.into()),
        };
        self.counted(adopted)
    }

    fn list(&mut self) -> Result<Vec<u64>, BlobFault>
        ensures cause { HasBlobCause self.old.faults self.new.faults result }
        ensures kept { self.new.is_to_meet ≡ self.old.is_to_meet }
    {
        let listed = match self.shared.taken() {
            Ok(mut store) => store.list(),
            Err(failed) => Err(failed.into()),
        };
        self.counted(listed)
    }
}
