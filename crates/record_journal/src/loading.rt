//! How the frames of a file build up tables.
ghost use Rattle.std.specs.Prelude.{◌≡◌, ◌<◌, ◌^◌, length, IfOk, OnOk};
ghost use Rattle.record_log.specs.Frames.{IsWhole};
ghost use Rattle.repo_model.specs.Tables.{no_tables};
ghost use Rattle.row_tables.specs.Recorded.{IsBuiltUp};
ghost use Rattle.record_journal.specs.Given.{AppliesFrame, Loads};
ghost use Rattle.row_tables.specs.Loading.{after_frames, loading};

use crate::faults::FrameFault;
use record_log::{Frame, Frames};
use repo_rows::{RowFault, start_of, take};
use row_tables::{ApplyFault, LoadFault, Tables};
use std::alloc::Global;

// Applies the change of a payload.
fn apply_frame(alloc: Global, tables: &mut Tables, payload: &[u8]) -> Result<(), FrameFault>
    ensures applies { AppliesFrame tables.old payload.now tables.new result }
    ensures built { OnOk result (IsBuiltUp tables.old → IsBuiltUp tables.new) }
{
    let (change, size) = match take(alloc, payload) {
        Ok(read) => read,
        Err(RowFault::NoMemory) => return Err(FrameFault::NoMemory),
        Err(RowFault::BadField { at }) => return Err(FrameFault::At(at)),
    };
    if size != payload.len() {
        return Err(FrameFault::At(0));
    }
    let _ = change.items();
    match tables.apply(alloc, &change) {
        Ok(()) => Ok(()),
        Err(ApplyFault::NoMemory) => Err(FrameFault::NoMemory),
        Err(ApplyFault::Misfit { item }) => Err(FrameFault::At(start_of(alloc, &change, item)?)),
    }
}

// The tables after frames.
fn load_frames(alloc: Global, frames: &mut Frames<'_>) -> Result<Tables, LoadFault>
    requires { length frames.old.payloads < 2 ^ 64 }
    ensures loads { Loads (after_frames 0 frames.old.is_cut no_tables frames.old.payloads) result }
    ensures built { IfOk result IsBuiltUp }
{
    let mut tables = Tables::new(alloc);
    let mut frame = 0u64;
    loop {
        match frames.next() {
            Frame::Whole(payload) => match apply_frame(alloc, &mut tables, payload) {
                Ok(()) => frame += 1,
                Err(FrameFault::NoMemory) => return Err(LoadFault::NoMemory),
                Err(FrameFault::At(at)) => return Err(LoadFault::Row { frame, at }),
            },
            Frame::CutShort => return Err(LoadFault::Row { frame, at: 0 }),
            Frame::Closed => return Ok(tables),
        }
    }
}

// How many bytes a file has. It has no more frames, so these can be counted.
fn size_of(file: &[u8]) -> usize
    ensures len { result ≡ length file.now }
    ensures fits { result < 2 ^ 64 }
{
    file.len()
}

/// The tables of a file with these bytes.
pub fn tables_in(alloc: Global, file: &[u8]) -> Result<Tables, LoadFault>
    ensures loads { Loads (loading file.now) result }
    ensures whole { OnOk result (IsWhole file.now) }
    ensures built { IfOk result IsBuiltUp }
{
    let _size = size_of(file);
    match Frames::of(file) {
        None => Err(LoadFault::NotOurs),
        Some(mut frames) => load_frames(alloc, &mut frames),
    }
}
