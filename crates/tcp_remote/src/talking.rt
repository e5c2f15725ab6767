//! What is said over one connection: a request, and the answer up to its end.
ghost use Rattle.std.specs.Prelude.{◌≡◌, ◌<◌, ◌≤◌, ◌+◌, length, IfOk};

use crate::limits::Deadline;
use outside_remote::RemoteFault;
use std::alloc::Global;
use std::io::{ErrorKind, Read, Write};
use std::net::OpenStream;
use std::time::Clock;
use texts::Bytes;

// How often a call that a signal interrupts is tried.
const TRIES: u32 = 1_000_000;

// How many bytes one read takes at most.
const PIECE: usize = 8192;

// One write of a piece that is not empty, tried again where a signal interrupts it. One that takes nothing fails.
fn write_once<N: Write>(stream: &mut N, piece: &[u8]) -> Result<usize, RemoteFault>
    requires { 0 < length piece.now }
    ensures { IfOk result (λ n. (0 < n) × (n ≤ length piece.now)) }
{
    for _ in 0..TRIES {
        match stream.write(piece) {
            Ok(0) => break,
            Ok(count) => return Ok(count),
            Err(error) if error.kind() == ErrorKind::Interrupted => {}
            Err(_) => break,
        }
    }
    Err(RemoteFault::Failed)
}

/// Writes a request whole.
pub(crate) fn say<N: OpenStream + Write>(
    stream: &mut N,
    timer: &impl Clock,
    deadline: &Deadline,
    request: &[u8],
) -> Result<(), RemoteFault> {
    let mut rest = request;
    while !rest.is_empty() {
        let patience = deadline.to_wait(timer).ok_or(RemoteFault::Failed)?;
        if stream.set_write_timeout(Some(patience)).is_err() {
            return Err(RemoteFault::Failed);
        }
        let count = write_once(stream, rest)?;
        rest = &rest[count..];
    }
    Ok(())
}

// One read, tried again where a signal interrupts it.
fn read_once<N: Read>(stream: &mut N, buffer: &mut [u8]) -> Result<usize, RemoteFault>
    ensures { IfOk result (λ n. n ≤ length buffer.new) }
{
    for _ in 0..TRIES {
        match stream.read(buffer) {
            Ok(count) => return Ok(count),
            Err(error) if error.kind() == ErrorKind::Interrupted => {}
            Err(_) => break,
        }
    }
    Err(RemoteFault::Failed)
}

// One read of at most so many bytes, which are added; how many came, 0 at the end.
fn read_piece<N: OpenStream + Read>(
    stream: &mut N,
    timer: &impl Clock,
    deadline: &Deadline,
    most: u64,
    bytes: &mut Vec<u8>,
) -> Result<usize, RemoteFault>
    ensures { IfOk result (λ n. (n ≤ most) × (length bytes.new.items ≡ length bytes.old.items + n)) }
{
    let patience = deadline.to_wait(timer).ok_or(RemoteFault::Failed)?;
    if stream.set_read_timeout(Some(patience)).is_err() {
        return Err(RemoteFault::Failed);
    }
    let mut buffer = [0; PIECE];
    let room = most.min(PIECE as u64) as usize;
    let count = read_once(stream, &mut buffer[..room])?;
    bytes.extend_from_slice(&buffer[..count])?;
    Ok(count)
}

/// The bytes that come up to the peer's end: the first `limit` and one more, where there are so many.
pub(crate) fn listen<N: OpenStream + Read>(
    alloc: Global,
    stream: &mut N,
    timer: &impl Clock,
    deadline: &Deadline,
    limit: u64,
) -> Result<Bytes, RemoteFault>
    ensures { IfOk result (λ bytes. length bytes ≤ limit + 1) }
{
    let most = limit.saturating_add(1);
    let mut bytes = Vec::new(alloc);
    while (bytes.len() as u64) < most {
        let room = most - bytes.len() as u64;
        if read_piece(stream, timer, deadline, room, &mut bytes)? == 0 {
            break;
        }
    }
    Ok(Bytes::from_vec(bytes))
}
