// Bodies of more than one piece, and bodies that are announced and don't come.
use crate::streams::{source_of, word_of};
use case_texts::{Tale, copied, number_of, yes_or_no};
use http_wire::{Wire, WireFault};
use outside_memory::MemSource;
use std::alloc::{AllocError, Global};

const HEAD: &[u8] = b"PUT /a HTTP/1.1\n\n";

/// What comes after a body.
const NEXT: &[u8] = b"next";

/// So many bytes, of which no two pieces are the same.
fn many(alloc: Global, length: u64) -> Result<Vec<u8>, AllocError> {
    let mut bytes: Vec<u8> = Vec::new(alloc);
    for n in 0..length {
        bytes.push((n % 251) as u8)?;
    }
    Ok(bytes)
}

/// A head, a body and what comes after it, at most so many bytes a read.
fn stream_of(
    alloc: Global,
    body: &[u8],
    most: usize,
    fails_at: u64,
) -> Result<MemSource, AllocError> {
    let mut bytes = Vec::from_slice(alloc, HEAD)?;
    bytes.extend_from_slice(body)?;
    bytes.extend_from_slice(NEXT)?;
    source_of(alloc, bytes.as_slice(), most, fails_at)
}

/// Whether the body after the next head is this one, and what comes after it is there too.
fn comes_whole(alloc: Global, body: &[u8], most: usize) -> Result<bool, WireFault> {
    let mut source = stream_of(alloc, body, most, u64::MAX)?;
    let mut wire = Wire::new();
    wire.next_request(alloc, &mut source)?;
    let given = wire.body(alloc, &mut source, body.len() as u64)?;
    let next = wire.body(alloc, &mut source, NEXT.len() as u64)?;
    Ok(given.as_slice() == body && next.as_slice() == NEXT)
}

/// Takes a body of so many bytes piece by piece through a room.
fn take_pieces(
    wire: &mut Wire,
    source: &mut MemSource,
    room: &mut [u8],
    body: &mut Vec<u8>,
    count: u64,
) -> Result<(), WireFault> {
    let mut left = count;
    for _ in 0..count {
        let piece = wire.piece(source, left, room)?;
        body.extend_from_slice(&room[..piece])?;
        left -= piece as u64;
        if left == 0 {
            break;
        }
    }
    Ok(())
}

/// The same where both are taken piece by piece, through a room of 65,536 bytes.
fn comes_in_pieces(alloc: Global, body: &[u8], most: usize) -> Result<bool, WireFault> {
    let mut source = stream_of(alloc, body, most, u64::MAX)?;
    let mut wire = Wire::new();
    wire.next_request(alloc, &mut source)?;
    let mut room = many(alloc, 65_536)?;
    let mut given = Vec::new(alloc);
    take_pieces(
        &mut wire,
        &mut source,
        &mut room,
        &mut given,
        body.len() as u64,
    )?;
    let mut next = Vec::new(alloc);
    take_pieces(
        &mut wire,
        &mut source,
        &mut room,
        &mut next,
        NEXT.len() as u64,
    )?;
    Ok(given.as_slice() == body && next.as_slice() == NEXT)
}

/// Whether a body of so many bytes comes, whole and in pieces.
fn comes(alloc: Global, length: u64, most: usize) -> Result<bool, WireFault> {
    let body = many(alloc, length)?;
    Ok(comes_whole(alloc, body.as_slice(), most)? && comes_in_pieces(alloc, body.as_slice(), most)?)
}

fn told_body(alloc: Global, length: u64, most: usize) -> &'static str {
    match comes(alloc, length, most) {
        Ok(is_so) => yes_or_no(is_so),
        Err(fault) => word_of(fault),
    }
}

/// What a body of so many bytes gives where the stream has ten of them, and whether the stream is at its end then.
fn told_announced(alloc: Global, length: u64) -> Result<String, AllocError> {
    let mut source = source_of(alloc, b"0123456789", 3, u64::MAX)?;
    let mut wire = Wire::new();
    let given: &str = match wire.body(alloc, &mut source, length) {
        Ok(_) => "given",
        Err(fault) => word_of(fault),
    };
    let is_over: &str = yes_or_no(matches!(wire.next_request(alloc, &mut source), Ok(None)));
    format!(in alloc; "{given} {is_over}")
}

/// What a body of three pieces gives where this read fails, the head's being 0.
fn told_failing(alloc: Global, fails_at: u64) -> Result<&'static str, AllocError> {
    let body = many(alloc, 190_000)?;
    let mut source = stream_of(alloc, body.as_slice(), 65_536, fails_at)?;
    let mut wire = Wire::new();
    if wire.next_request(alloc, &mut source).is_err() {
        return Ok("no head");
    }
    Ok(match wire.body(alloc, &mut source, 190_000) {
        Ok(_) => "given",
        Err(fault) => word_of(fault),
    })
}

fn told_piece(alloc: Global, given: Result<usize, WireFault>) -> Result<String, AllocError> {
    match given {
        Ok(count) => format!(in alloc; "{count}"),
        Err(fault) => copied(alloc, word_of(fault)),
    }
}

/// What one piece and the next of these lengths give of a stream that comes three bytes at a time, where this read fails.
fn told_pieces(
    alloc: Global,
    stream: &str,
    lengths: [u64; 2],
    fails_at: u64,
) -> Result<String, AllocError> {
    let mut source = source_of(alloc, stream.as_bytes(), 3, fails_at)?;
    let mut wire = Wire::new();
    let mut room = [0; 8];
    let first: String = told_piece(alloc, wire.piece(&mut source, lengths[0], &mut room))?;
    let second: String = told_piece(alloc, wire.piece(&mut source, lengths[1], &mut room))?;
    format!(in alloc; "{first} {second}")
}

fn number_in(word: &String) -> u64 {
    number_of(word.as_str()).unwrap_or(u64::MAX)
}

/// What is told of a step about bodies.
pub(crate) fn told(alloc: Global, key: &str, words: &[String]) -> Tale {
    Ok(Some(match (key, words) {
        ("body", [length, most]) => copied(
            alloc,
            told_body(
                alloc,
                number_in(length).min(2_000_000),
                number_in(most) as usize,
            ),
        )?,
        ("announced", [length]) => told_announced(alloc, number_in(length))?,
        ("failing", [read]) => copied(alloc, told_failing(alloc, number_in(read))?)?,
        ("pieces", [stream, first, second, read]) => told_pieces(
            alloc,
            stream.as_str(),
            [number_in(first), number_in(second)],
            number_in(read),
        )?,
        _ => return Ok(None),
    }))
}
