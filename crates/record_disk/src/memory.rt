ghost use Rattle.std.specs.Prelude.{◌≡◌, ◌⊎◌, ◌≤◌, ◌<◌, ◌+◌, ◌^◌, length, take, drop, Some, IfOk, IfSome, IsErr, OnOk, OnErr, MatchResult};
ghost use Rattle.outside.specs.Faults.{HasCause};
ghost use Rattle.outside_memory.specs.Script.{script_of, script_passed, script_failed};
ghost use Rattle.record_disk.specs.Disk.{Opened, After, Write, Cut, Sync, content, IsImage, Told, MayHave, written};
ghost use Rattle.record_disk.specs.Memory.{IsDue, FindsNoRoom};

use crate::disk::Disk;
use crate::record::{DiskCall, note_call, note_write};
use crate::script::DiskScript;
use outside::{Failed, NoMemory};
use std::alloc::Global;
use std::marker::Model;

/// The room of a disk in memory.
#[derive(Clone, Copy, Debug, PartialEq, Eq)]
pub struct DiskRoom {
    /// How many bytes the file may have, less than 2^63.
    pub file: usize,
    /// How many bytes may be written in all.
    pub written: usize,
    /// How many writes, cuts and syncs may be made.
    pub calls: usize,
}

/// A file in memory. It keeps a record of the calls that changed it, from which what a crash may leave is told. It takes
/// no memory after it is made: a call that passes its room is `Failed` and changes nothing.
#[derive(Drop)]
pub struct MemDisk {
    first: Vec<u8>,
    bytes: Vec<u8>,
    put: Vec<u8>,
    calls: Vec<DiskCall>,
    room: DiskRoom,
    script: DiskScript,
}

impl Model for MemDisk {
    ghost use Rattle.std.specs.Prelude.{◌≡◌, ◌≤◌, ◌<◌, ◌-◌, ◌^◌, vec_len, vec_capacity};
    ghost use Rattle.record_disk.specs.Memory.{MemState, mem_code};

    ghost Value = { MemState };

    ghost coded = { mem_code };

    ghost use Rattle.record_disk.specs.Disk.{Opened};
    ghost use Rattle.record_disk.specs.Record.{told_by, IsRecorded};

    ghost view = { λ m. record {
      trace = told_by (Opened m.first.items) m.calls.items m.put.items;
      room = m.room.file;
      bytes_left = m.room.written - vec_len m.put;
      calls_left = m.room.calls - vec_len m.calls;
      script = m.script;
    } };

    ghost invariant = { λ m. IsRecorded m.first.items m.calls.items m.put.items m.bytes.items
        × (vec_len m.bytes ≤ m.room.file) × (m.room.file ≤ vec_capacity m.bytes) × (m.room.file < 2 ^ 63)
        × (vec_len m.put ≤ m.room.written) × (m.room.written ≤ vec_capacity m.put)
        × (vec_len m.calls ≤ m.room.calls) × (m.room.calls ≤ vec_capacity m.calls) };
}

impl MemDisk {
    /// A file with these bytes, all of them on the disk.
    pub fn new(
        alloc: Global,
        file: &[u8],
        room: DiskRoom,
        script: DiskScript,
    ) -> Result<MemDisk, NoMemory>
        requires fits { length file.now ≤ room.file }
        requires small { room.file < 2 ^ 63 }
        ensures { IfOk result (λ disk. disk ≡ record { trace = Opened file.now; room = room.file; bytes_left = room.written; calls_left = room.calls; script = script }) }
    {
        let first = Vec::from_slice(alloc, file)?;
        let mut bytes = Vec::with_capacity(alloc, room.file)?;
        bytes.extend_from_slice(file).unwrap();
        Ok(MemDisk {
            first,
            bytes,
            put: Vec::with_capacity(alloc, room.written)?,
            calls: Vec::with_capacity(alloc, room.calls)?,
            room,
            script,
        })
    }

    /// What a read gives.
    pub fn bytes(&self) -> &[u8]
        ensures { result.now ≡ content self.now.trace }
    {
        self.bytes.as_slice()
    }

    /// The file as it was when the disk was made.
    pub fn first(&self) -> &[u8] {
        self.first.as_slice()
    }

    /// The calls that changed the file, or may have. Together they put the bytes of `put` into it, in this order.
    pub fn calls(&self) -> &[DiskCall] {
        self.calls.as_slice()
    }

    /// The bytes that the writes put into the file, one after the other.
    pub fn put(&self) -> &[u8] {
        self.put.as_slice()
    }
}

impl Disk for MemDisk {
    ghost faults = { λ m. m.script.faults };

    ghost trace = { λ m. Some m.trace };

    fn size(&mut self) -> Result<u64, Failed>
        ensures cause { HasCause self.old.script.faults self.new.script.faults result }
        ensures within { IfOk result (λ size. size < 2 ^ 63) }
        ensures told { IfOk result (λ size. size ≡ length (content self.old.trace)) }
        ensures image { IsImage self.old.trace (content self.old.trace) }
        ensures same { self.new.trace ≡ self.old.trace }
        ensures reason { OnErr result (IsDue self.old) }
        ensures due { IsDue self.old → IsErr result }
        ensures script { MatchResult result (λ _. self.new.script ≡ script_passed self.old.script) (λ _. self.new.script ≡ script_failed self.old.script) }
    {
        match self.script.next_call() {
            None => Ok(self.bytes.len() as u64),
            Some(_) => Err(self.script.fail()),
        }
    }

    fn read(&mut self, at: u64, buffer: &mut [u8]) -> Result<(), Failed>
        ensures cause { HasCause self.old.script.faults self.new.script.faults result }
        ensures length { length buffer.new ≡ length buffer.old }
        ensures told { OnOk result (buffer.new ≡ take (length buffer.old) (drop at (content self.old.trace))) }
        ensures same { self.new.trace ≡ self.old.trace }
        ensures reason { OnErr result (IsDue self.old ⊎ (length (content self.old.trace) < at + length buffer.old)) }
        ensures due { IsDue self.old → IsErr result }
        ensures script { MatchResult result (λ _. self.new.script ≡ script_passed self.old.script) (λ _. self.new.script ≡ script_failed self.old.script) }
    {
        let due = self.script.next_call();
        let size = self.bytes.len() as u64;
        if due.is_some() || at > size || buffer.len() as u64 > size - at {
            return Err(self.script.fail());
        }
        let at = at as usize;
        buffer.copy_from_slice(&self.bytes[at..at + buffer.len()]);
        Ok(())
    }

    fn write_at(&mut self, at: u64, bytes: &[u8]) -> Result<(), Failed>
        ensures cause { HasCause self.old.script.faults self.new.script.faults result }
        ensures within { OnOk result (at + length bytes.now < 2 ^ 63) }
        ensures no_gap { OnOk result (at ≤ length (content self.old.trace)) }
        ensures told { MayHave (Write at (length bytes.now)) self.old.trace self.new.trace }
        ensures done { OnOk result (content self.new.trace ≡ written (content self.old.trace) at bytes.now) }
        ensures reason { OnErr result (IsDue self.old ⊎ FindsNoRoom at (length bytes.now) self.old) }
        ensures due { IsDue self.old → IsErr result }
        ensures script { MatchResult result (λ _. self.new.script ≡ script_passed self.old.script) (λ _. self.new.script ≡ script_failed self.old.script) }
    {
        let due = self.script.next_call();
        let size = bytes.len();
        if at > self.bytes.len() as u64
            || size > self.room.file - at as usize
            || size > self.room.written - self.put.len()
            || self.calls.len() == self.room.calls
        {
            return Err(self.script.fail());
        }
        match due {
            None => {
                note_write(
                    &mut self.calls,
                    &mut self.put,
                    &mut self.bytes,
                    at as usize,
                    bytes,
                    size,
                );
                Ok(())
            }
            Some(part) => {
                let part = size.min(part as usize);
                note_write(
                    &mut self.calls,
                    &mut self.put,
                    &mut self.bytes,
                    at as usize,
                    bytes,
                    part,
                );
                Err(self.script.fail())
            }
        }
    }

    fn cut(&mut self, size: u64) -> Result<(), Failed>
        ensures cause { HasCause self.old.script.faults self.new.script.faults result }
        ensures told { MayHave (Cut size) self.old.trace self.new.trace }
        ensures done { OnOk result (content self.new.trace ≡ take size (content self.old.trace)) }
        ensures reason { OnErr result (IsDue self.old ⊎ (self.old.calls_left ≡ 0)) }
        ensures due { IsDue self.old → IsErr result }
        ensures script { MatchResult result (λ _. self.new.script ≡ script_passed self.old.script) (λ _. self.new.script ≡ script_failed self.old.script) }
    {
        let due = self.script.next_call();
        if self.calls.len() == self.room.calls {
            return Err(self.script.fail());
        }
        if due == Some(0) {
            return Err(self.script.fail());
        }
        note_call(&mut self.calls, DiskCall::Cut { size });
        self.bytes.truncate(size as usize);
        match due {
            None => Ok(()),
            Some(_) => Err(self.script.fail()),
        }
    }

    fn sync(&mut self) -> Result<(), Failed>
        ensures cause { HasCause self.old.script.faults self.new.script.faults result }
        ensures told { MatchResult result (λ _. self.new.trace ≡ After Sync (content self.old.trace) self.old.trace)
            (λ _. self.new.trace ≡ self.old.trace) }
        ensures reason { OnErr result (IsDue self.old ⊎ (self.old.calls_left ≡ 0)) }
        ensures due { IsDue self.old → IsErr result }
        ensures script { MatchResult result (λ _. self.new.script ≡ script_passed self.old.script) (λ _. self.new.script ≡ script_failed self.old.script) }
    {
        let due = self.script.next_call();
        if due.is_some() || self.calls.len() == self.room.calls {
            return Err(self.script.fail());
        }
        note_call(&mut self.calls, DiskCall::Sync);
        Ok(())
    }
}
