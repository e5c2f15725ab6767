//! The head of an answer.
ghost use Rattle.std.specs.Prelude.{◌≡◌, ◌≤◌, ◌+◌, ℕ, List, length, drop, map, All, Ok, Err, Some, None, IfOk};
ghost use Rattle.httparse.specs.Grammar.{ResponseHead, print_response, status_code};
ghost use Rattle.httparse.specs.Spans.{IsHeaderWithin};
ghost use Rattle.http_wire.specs.Head.{field_said};
ghost use Rattle.http_wire.specs.Parsed.{field_at};
ghost use Rattle.remote_fetch.specs.Heads.{IsFrontGiven, IsHeadGiven, is_informational};

use http_wire::Field;
use httparse::Status;
use httparse::spans::{EMPTY_HEADER_SPAN, HeaderSpan, parse_response};
use std::alloc::{AllocError, Global};
use std::marker::Model;
use texts::Bytes;

/// The most fields of a head.
const MOST_FIELDS: usize = 64;

/// A head that was read: its status, its fields, and where it ends.
#[derive(Drop)]
pub(crate) struct Front {
    pub(crate) status: u16,
    pub(crate) fields: Vec<Field>,
    pub(crate) ends: usize,
}

impl Model for Front {
    ghost use Rattle.remote_fetch.specs.Heads.{Front};

    ghost Value = { Front };

    ghost view = { λ f. record { status = f.status; fields = f.fields.items; ends = f.ends } };
}

/// The field that the span covers.
fn field_at(alloc: Global, bytes: &[u8], span: &HeaderSpan) -> Result<Field, AllocError>
    requires { IsHeaderWithin (length bytes.now) span.now }
    ensures { IfOk result (λ field. field ≡ field_at bytes.now span.now) }
{
    let name = Bytes::new(alloc, span.name.of(bytes))?;
    let value = Bytes::new(alloc, span.value.of(bytes))?;
    Ok(Field { name, value })
}

/// The fields that the spans cover.
fn fields_at(alloc: Global, bytes: &[u8], spans: &[HeaderSpan]) -> Result<Vec<Field>, AllocError>
    requires { All (IsHeaderWithin (length bytes.now)) spans.now }
    ensures { IfOk result (λ fields. fields.items ≡ map (field_at bytes.now) spans.now) }
{
    let mut fields = Vec::with_capacity(alloc, spans.len())?;
    for span in spans {
        fields.push(field_at(alloc, bytes, span)?)?;
    }
    Ok(fields)
}

/// The head in front of the bytes, which stand at a place of the answer; none where there is no head of at most 64 fields.
fn head_at(alloc: Global, bytes: &[u8], at: usize) -> Result<Option<Front>, AllocError>
    requires room { at + length bytes.now ≤ 9_223_372_036_854_775_807 }
    ensures { IfOk result (IsHeadGiven at bytes.now) }
{
    let mut spans = [EMPTY_HEADER_SPAN; MOST_FIELDS];
    match parse_response(bytes, &mut spans) {
        Ok(Status::Complete(head)) => {
            let fields = fields_at(alloc, bytes, &spans[..head.headers])?;
            Ok(Some(Front {
                status: head.code,
                fields,
                ends: at + head.len,
            }))
        }
        Ok(Status::Partial) => Ok(None),
        Err(_) => Ok(None),
    }
}

/// The bytes from a place on.
pub(crate) fn behind(bytes: &[u8], at: usize) -> &[u8]
    requires { at ≤ length bytes.now }
    ensures { result.now ≡ drop at bytes.now }
{
    &bytes[at..]
}

/// Whether the status is that of an informational answer.
fn is_informational(status: u16) -> bool
    ensures { result ≡ is_informational status }
{
    status >= 100 && status < 200
}

/// The head of an answer that counts, after informational ones, at most 8 of which are passed over; or the place of what is
/// no head.
pub(crate) fn read_front(alloc: Global, bytes: &[u8]) -> Result<Result<Front, usize>, AllocError>
    requires room { length bytes.now ≤ 9_223_372_036_854_775_807 }
    ensures { IfOk result (IsFrontGiven bytes.now) }
{
    let mut at = 0;
    let mut left: u8 = 8;
    loop {
        let head = match head_at(alloc, behind(bytes, at), at)? {
            Some(head) => head,
            None => return Ok(Err(at)),
        };
        if left == 0 {
            return Ok(Ok(head));
        }
        if !is_informational(head.status) {
            return Ok(Ok(head));
        }
        at = head.ends;
        left -= 1;
    }
}
