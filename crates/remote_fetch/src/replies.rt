//! The body of an answer: by its length, in chunks, or up to the end.
ghost use Rattle.std.specs.Prelude.{◌≡◌, ◌≤◌, ◌+◌, ℕ, List, [], length, drop, take, Ok, IfOk};
ghost use Rattle.remote_fetch.specs.Replies as spec;
ghost use Rattle.remote_fetch.specs.Replies.{IsAnswer, IsAfter, IsBody, IsChunked, without_body};
ghost use Rattle.remote_fetch.specs.Chunks.{IsLineGiven, IsChunkGiven};

use crate::heads::{Front, behind, read_front};
use http_wire::fields::body_length;
use http_wire::{BodyLength, Field};
use httparse::{Status, parse_chunk_size};
use std::alloc::{AllocError, Global};
use texts::Bytes;

/// What one exchange comes to.
#[derive(Drop)]
pub enum Reply {
    /// An answer 200 with this body.
    Body(Bytes),
    /// Nothing is there: an answer 404 or 410.
    Gone,
    /// An answer with another status.
    Refused(u16),
    /// The answer has too many bytes, or its body.
    TooLarge,
    /// The answer does not read, at this byte.
    Bad { at: u64 },
    /// The exchange failed, so there is no answer.
    Fault,
}

/// Whether the body comes in chunks.
fn is_chunked(fields: &[Field]) -> bool
    ensures { result ≡ spec.is_chunked fields.now }
{
    fields.iter().any(|f| {
        f.name.as_slice().eq_ignore_ascii_case(b"Transfer-Encoding")
            && f.value.as_slice().eq_ignore_ascii_case(b"chunked")
    })
}

/// A body that is not chunked, of which these bytes come; they begin at a place of the answer.
fn framed(
    alloc: Global,
    limit: u64,
    at: usize,
    said: BodyLength,
    bytes: &[u8],
) -> Result<Reply, AllocError>
    ensures { IfOk result (λ reply. reply ≡ spec.framed limit at said bytes.now) }
{
    let there = bytes.len() as u64;
    match said {
        BodyLength::Known(length) => {
            if length > limit {
                Ok(Reply::TooLarge)
            } else if there < length {
                Ok(Reply::Bad { at: at as u64 })
            } else {
                let body = Bytes::new(alloc, &bytes[..length as usize])?;
                Ok(Reply::Body(body))
            }
        }
        BodyLength::Missing => {
            if there > limit {
                Ok(Reply::TooLarge)
            } else {
                let body = Bytes::new(alloc, bytes)?;
                Ok(Reply::Body(body))
            }
        }
        BodyLength::Wrong => Ok(Reply::Bad { at: at as u64 }),
    }
}

/// The size line in front of the bytes: its length, and the chunk's size.
fn line_at(bytes: &[u8]) -> Option<(usize, u64)>
    ensures { IsLineGiven bytes.now result }
{
    match parse_chunk_size(bytes) {
        Ok(Status::Complete((length, size))) => Some((length, size)),
        Ok(Status::Partial) => None,
        Err(_) => None,
    }
}

/// A chunk of a size in front of the bytes, after which CR LF stands.
fn chunk_at(bytes: &[u8], size: usize) -> Option<&[u8]>
    requires room { size ≤ 4_294_967_296 }
    ensures { IsChunkGiven size bytes.now result }
{
    if bytes.len() < size + 2 {
        return None;
    }
    if bytes[size] != b'\r' || bytes[size + 1] != b'\n' {
        return None;
    }
    Some(&bytes[..size])
}

/// A chunked body, whose chunks stand from a place of the answer on.
fn chunked(alloc: Global, limit: u64, bytes: &[u8], start: usize) -> Result<Reply, AllocError>
    requires start { start ≤ length bytes.now }
    requires room { length bytes.now ≤ 4_294_967_296 }
    requires limit { limit ≤ 16_777_216 }
    ensures { IfOk result (IsChunked limit start [] (drop start bytes.now)) }
{
    let mut body = Vec::new(alloc);
    let mut at = start;
    loop {
        let rest = behind(bytes, at);
        let (line, size) = match line_at(rest) {
            Some(given) => given,
            None => return Ok(Reply::Bad { at: at as u64 }),
        };
        if size == 0 {
            return Ok(Reply::Body(Bytes::from_vec(body)));
        }
        if size > limit - body.len() as u64 {
            return Ok(Reply::TooLarge);
        }
        let chunk = match chunk_at(behind(rest, line), size as usize) {
            Some(chunk) => chunk,
            None => return Ok(Reply::Bad { at: at as u64 }),
        };
        body.extend_from_slice(chunk)?;
        at += line + size as usize + 2;
    }
}

/// What the bytes after a head come to.
fn body_after(alloc: Global, limit: u64, bytes: &[u8], front: &Front) -> Result<Reply, AllocError>
    requires start { front.now.ends ≤ length bytes.now }
    requires room { length bytes.now ≤ 4_294_967_296 }
    requires limit { limit ≤ 16_777_216 }
    ensures { IfOk result (IsBody limit front.now (drop front.now.ends bytes.now)) }
{
    let fields = front.fields.as_slice();
    if is_chunked(fields) {
        chunked(alloc, limit, bytes, front.ends)
    } else {
        framed(
            alloc,
            limit,
            front.ends,
            body_length(fields),
            behind(bytes, front.ends),
        )
    }
}

/// What a status other than 200 comes to.
fn without_body(status: u16) -> Reply
    ensures { result ≡ without_body status }
{
    if status == 404 || status == 410 {
        Reply::Gone
    } else {
        Reply::Refused(status)
    }
}

/// What comes after a head.
fn behind_head(alloc: Global, limit: u64, bytes: &[u8], front: &Front) -> Result<Reply, AllocError>
    requires start { front.now.ends ≤ length bytes.now }
    requires room { length bytes.now ≤ 4_294_967_296 }
    requires limit { limit ≤ 16_777_216 }
    ensures { IfOk result (IsAfter limit (length bytes.now) (Ok front.now) (drop front.now.ends bytes.now)) }
{
    if front.status != 200 {
        return Ok(without_body(front.status));
    }
    if bytes.len() as u64 > 2 * limit + 65_536 {
        return Ok(Reply::TooLarge);
    }
    body_after(alloc, limit, bytes, front)
}

/// What an answer of a remote comes to, whose body may have so many bytes (RFC 9112, sections 4, 6.3 and 7.1).
///
/// Informational answers are passed over, at most 8. Then the status decides, then the length of the whole answer, then
/// what does not read.
pub fn read_answer(alloc: Global, bytes: &[u8], limit: u64) -> Result<Reply, AllocError>
    requires room { length bytes.now ≤ 4_294_967_296 }
    requires limit { limit ≤ 16_777_216 }
    ensures { IfOk result (IsAnswer limit bytes.now) }
{
    match read_front(alloc, bytes)? {
        Ok(front) => behind_head(alloc, limit, bytes, &front),
        Err(at) => Ok(Reply::Bad { at: at as u64 }),
    }
}
