// The same bytes in a real file, without a journal.
use crate::commits::records_in;
use crate::rows::row_of;
use std::fs::{File, OpenFile};
use std::io::{self, ErrorKind};
use std::os::unix::fs::FileExt;

// How many bytes a payload and the frames in front of it may have.
const PAYLOAD_LIMIT: usize = 1_000;

const FILE_LIMIT: u64 = 1 << 40;

// Writes a frame after the place of its gate, syncs, opens the gate and syncs. Gives the place of the next gate.
fn write_frame(file: &File, gate: u64, payload: &[u8], rt: &HostRuntime) -> io::Result<u64> {
    if payload.len() > PAYLOAD_LIMIT || gate > FILE_LIMIT {
        return Err(ErrorKind::FileTooLarge.into());
    }
    let mut bytes = Vec::new(rt.alloc());
    bytes.extend_from_slice(&(payload.len() as u32).to_be_bytes())?;
    bytes.extend_from_slice(payload)?;
    bytes.push(0)?;
    file.write_all_at(&bytes, gate + 1)?;
    file.sync_data()?;
    file.write_all_at(&[1], gate)?;
    file.sync_data()?;
    Ok(gate + payload.len() as u64 + 5)
}

/// Writes a new file with so many changes.
pub(crate) fn write_all(rt: &HostRuntime, folder: &str, count: u64) -> io::Result<()> {
    let file = records_in(rt, folder)?;
    file.write_all_at(b"MVNROWS1\0", 0)?;
    file.sync_data()?;
    let mut gate = 8u64;
    for number in 0..count {
        gate = write_frame(&file, gate, &row_of(rt.alloc(), number + 1)?, rt)?;
    }
    Ok(())
}
