ghost use Rattle.std.specs.Prelude.{◌≡◌, ◌↔◌, ◌<◌, ◌≤◌, ◌+◌, ◌^◌, ◌++◌, ◌∷◌, [], length, IsErr, OnOk, OnErr, IfOk, ◌⊎◌, Contains, IsErrOf};
ghost use Rattle.std.specs.BTreeMap.{insert_entry, is_at};
ghost use Rattle.std.specs.Map.{keys_of, remove_entry};
ghost use Rattle.std.specs.Ordering.{nat_cmp};
ghost use Rattle.outside.specs.Blobs.{HasBlobCause, IsPart, bytes_at};
ghost use Rattle.outside.specs.Faults.{HasCause};
ghost use Rattle.outside_memory.specs.Memory.{shelf_of};
ghost use Rattle.outside_memory.specs.Script.{script_after_blob_call, script_failed, script_passed};

use crate::fault_script::FaultScript;
use outside::{BlobFault, Blobs, Failed, Held, NoMemory, Pen};
use std::alloc::Global;
use std::collections::BTreeMap;
use std::marker::Model;
use std::sync::ArcSlice;

/// A blob in memory. All holds on it share its bytes.
#[derive(Drop)]
pub struct MemHeld {
    bytes: ArcSlice<u8>,
}

impl Model for MemHeld {
    ghost use Rattle.std.specs.Prelude.{List, ℕ};
    ghost use Rattle.std.specs.Arc.{arc_slice_items};

    ghost Value = { List ℕ };

    ghost view = { λ h. arc_slice_items h.bytes };
}

impl MemHeld {
    // A blob of these bytes.
    fn of_bytes(alloc: Global, bytes: &[u8]) -> Result<MemHeld, NoMemory>
        ensures { IfOk result (λ held. held ≡ bytes.now) }
    {
        Ok(MemHeld {
            bytes: ArcSlice::from_slice(alloc, bytes)?,
        })
    }

    fn bytes(&self) -> &[u8]
        ensures { result.now ≡ self.now }
    {
        self.bytes.as_slice()
    }
}

impl Held for MemHeld {
    ghost use Rattle.std.specs.Prelude.{Some};

    ghost bytes = { λ h. Some h };

    fn share(&self) -> Result<MemHeld, NoMemory> {
        Ok(MemHeld {
            bytes: self.bytes.clone()?,
        })
    }
}

/// A blob that is being written in memory. Contracts see its number and its bytes.
#[derive(Drop)]
pub struct MemPen {
    blob: u64,
    bytes: Vec<u8>,
}

impl Model for MemPen {
    ghost use Rattle.outside_memory.specs.Memory.{PenState};

    ghost Value = { PenState };

    ghost view = { λ p. record { number = p.blob; bytes = p.bytes.items } };
}

impl Pen for MemPen {
    ghost use Rattle.std.specs.Prelude.{Some};

    ghost number = { λ p. p.number };

    ghost bytes = { λ p. Some p.bytes };
}

// Copies what stands in `bytes` from a place on into the front of a buffer, as far as it fits, and says how many bytes.
fn copy_from(bytes: &[u8], at: u64, buffer: &mut [u8]) -> usize
    ensures count { result ≤ length buffer.new }
    ensures below { at + result ≤ length bytes.now ⊎ (result ≡ 0) }
    ensures part { IsPart bytes.now at result buffer.new }
{
    if at >= bytes.len() as u64 {
        return 0;
    }
    let rest = &bytes[at as usize..];
    let count = buffer.len().min(rest.len());
    buffer[..count].copy_from_slice(&rest[..count]);
    count
}

/// A store of blobs in memory. A blob's bytes live as long as it stands there or is held.
#[derive(Drop)]
pub struct MemBlobs {
    blobs: BTreeMap<u64, MemHeld>,
    removed: Vec<u64>,
    script: FaultScript,
}

impl Model for MemBlobs {
    ghost use Rattle.outside_memory.specs.Memory.{BlobsState};

    ghost Value = { BlobsState };

    ghost view = { λ b. record { blobs = b.blobs.entries; removed = b.removed.items; script = b.script } };
}

impl MemBlobs {
    /// A store whose calls fail as the script says. Calls of all kinds are counted together.
    pub fn new(alloc: Global, script: FaultScript) -> MemBlobs
        ensures { result ≡ record { blobs = []; removed = []; script = script } }
    {
        MemBlobs {
            blobs: BTreeMap::new(alloc),
            removed: Vec::new(alloc),
            script,
        }
    }

    /// How many calls have failed.
    pub fn faults(&self) -> u64
        ensures { result ≡ self.now.script.faults }
    {
        self.script.faults()
    }

    /// The numbers that were removed, in the order of the calls.
    pub fn removed(&self) -> &[u64]
        ensures { result.now ≡ self.now.removed }
    {
        self.removed.as_slice()
    }
}

impl Blobs for MemBlobs {
    type Held = MemHeld;

    type Pen = MemPen;

    ghost faults = { λ b. b.script.faults };

    ghost shelf = { shelf_of };

    fn begin(&mut self, blob: u64) -> Result<MemPen, BlobFault>
        ensures cause { HasBlobCause self.old.script.faults self.new.script.faults result }
        ensures when { IsErrOf result BlobFault.Failed ↔ Contains self.old.script.failing self.old.script.calls }
        ensures pen { IfOk result (λ pen. pen ≡ record { number = blob; bytes = [] }) }
        ensures ok { OnOk result (self.new.blobs ≡ remove_entry (is_at (nat_cmp blob)) self.old.blobs) }
        ensures err { OnErr result (self.new.blobs ≡ self.old.blobs) }
        ensures removed { self.new.removed ≡ self.old.removed }
        ensures script { self.new.script ≡ script_after_blob_call self.old.script result }
    {
        self.script.next_call()?;
        self.blobs.remove(&blob);
        Ok(MemPen {
            blob,
            bytes: Vec::new(*self.removed.allocator()),
        })
    }

    fn append(&mut self, pen: &mut MemPen, bytes: &[u8]) -> Result<(), BlobFault>
        ensures cause { HasBlobCause self.old.script.faults self.new.script.faults result }
        ensures when { IsErrOf result BlobFault.Failed ↔ Contains self.old.script.failing self.old.script.calls }
        ensures ok { OnOk result (pen.new ≡ record pen.old { bytes = pen.old.bytes ++ bytes.now }) }
        ensures most { OnOk result (length pen.new.bytes < 2 ^ 63) }
        ensures err { OnErr result (pen.new ≡ pen.old) }
        ensures after { self.new ≡ record self.old { script = script_after_blob_call self.old.script result } }
    {
        self.script.next_call()?;
        pen.bytes.extend_from_slice(bytes).map_err(NoMemory::from)?;
        Ok(())
    }

    fn seal(&mut self, pen: MemPen) -> Result<MemHeld, BlobFault>
        ensures cause { HasBlobCause self.old.script.faults self.new.script.faults result }
        ensures when { IsErrOf result BlobFault.Failed ↔ Contains self.old.script.failing self.old.script.calls }
        ensures told { IfOk result (λ held. held ≡ pen.bytes) }
        ensures ok { OnOk result (self.new.blobs ≡ insert_entry nat_cmp self.old.blobs pen.number pen.bytes) }
        ensures err { OnErr result (self.new.blobs ≡ self.old.blobs) }
        ensures removed { self.new.removed ≡ self.old.removed }
        ensures script { self.new.script ≡ script_after_blob_call self.old.script result }
    {
        let MemPen { blob, bytes } = pen;
        self.script.next_call()?;
        let held = MemHeld::of_bytes(*self.removed.allocator(), bytes.as_slice())?;
        let kept = held.share()?;
        self.blobs.insert(blob, kept).map_err(NoMemory::from)?;
        Ok(held)
    }

    fn read_at(&mut self, held: &MemHeld, at: u64, buffer: &mut [u8]) -> Result<usize, Failed>
        ensures cause { HasCause self.old.script.faults self.new.script.faults result }
        ensures when { IsErr result ↔ Contains self.old.script.failing self.old.script.calls }
        ensures count { IfOk result (λ n. n ≤ length buffer.new) }
        ensures below { IfOk result (λ n. 0 < n → at + n < 2 ^ 63) }
        ensures part { IfOk result (λ n. IsPart held.now at n buffer.new) }
        ensures ok { OnOk result (self.new ≡ record self.old { script = script_passed self.old.script }) }
        ensures err { OnErr result (self.new ≡ record self.old { script = script_failed self.old.script }) }
    {
        self.script.next_call()?;
        Ok(copy_from(held.bytes(), at, buffer))
    }

    fn remove(&mut self, blob: u64) -> Result<(), BlobFault>
        ensures cause { HasBlobCause self.old.script.faults self.new.script.faults result }
        ensures when { IsErrOf result BlobFault.Failed ↔ Contains self.old.script.failing self.old.script.calls }
        ensures ok { OnOk result (self.new ≡ record {
          blobs = remove_entry (is_at (nat_cmp blob)) self.old.blobs;
          removed = self.old.removed ++ blob ∷ [];
          script = script_after_blob_call self.old.script result;
        }) }
        ensures err { OnErr result (self.new ≡ record self.old { script = script_after_blob_call self.old.script result }) }
    {
        self.script.next_call()?;
        self.removed.push(blob).map_err(NoMemory::from)?;
        self.blobs.remove(&blob);
        Ok(())
    }

    fn adopt(&mut self, blob: u64) -> Result<Option<MemHeld>, BlobFault>
        ensures cause { HasBlobCause self.old.script.faults self.new.script.faults result }
        ensures when { IsErrOf result BlobFault.Failed ↔ Contains self.old.script.failing self.old.script.calls }
        ensures found { IfOk result (λ held. held ≡ bytes_at blob self.old.blobs) }
        ensures after { self.new ≡ record self.old { script = script_after_blob_call self.old.script result } }
    {
        self.script.next_call()?;
        match self.blobs.get(&blob) {
            Some(kept) => Ok(Some(kept.share()?)),
            None => Ok(None),
        }
    }

    fn list(&mut self) -> Result<Vec<u64>, BlobFault>
        ensures cause { HasBlobCause self.old.script.faults self.new.script.faults result }
        ensures when { IsErrOf result BlobFault.Failed ↔ Contains self.old.script.failing self.old.script.calls }
        ensures listed { IfOk result (λ numbers. numbers.items ≡ keys_of self.old.blobs) }
        ensures after { self.new ≡ record self.old { script = script_after_blob_call self.old.script result } }
    {
        self.script.next_call()?;
        Ok(
            self.blobs
                .keys()
                .copied()
                .collect(*self.removed.allocator())?,
        )
    }
}
