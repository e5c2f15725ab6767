//! The request that the bytes of a head spell (RFC 9112, sections 3 and 5).
ghost use Rattle.std.specs.Prelude.{◌≡◌, List, ℕ, ◌+◌, ◌≤◌, ◌==◌, All, IfOk, IsSome, OnErr, count_by, length, map};
ghost use Rattle.std.specs.Str.{IsUtf8};
ghost use Rattle.http_header.specs.Token.{IsToken};
ghost use Rattle.httparse.specs.Spans.{IsHeaderWithin};
ghost use Rattle.http_wire.specs.Front.{Whole, judged};
ghost use Rattle.http_wire.specs.Head.{Head, head_of};
ghost use Rattle.http_wire.specs.Parsed.{IsJudged, begins_line, field_at};

use crate::FIELD_LINES;
use crate::faults::HeadFault;
use crate::requests::{Field, Request};
use http::Method;
use httparse::Status;
use httparse::spans::{EMPTY_HEADER_SPAN, HeaderSpan, parse_request};
use std::alloc::{AllocError, Global};
use texts::{Bytes, Text};

/// The field that the span covers.
fn field_at(alloc: Global, bytes: &[u8], span: &HeaderSpan) -> Result<Field, AllocError>
    requires { IsHeaderWithin (length bytes.now) span.now }
    ensures { IfOk result (λ field. field ≡ field_at bytes.now span.now) }
{
    let name = Bytes::new(alloc, span.name.of(bytes))?;
    let value = Bytes::new(alloc, span.value.of(bytes))?;
    Ok(Field { name, value })
}

/// The fields that the spans cover.
fn fields_at(alloc: Global, bytes: &[u8], spans: &[HeaderSpan]) -> Result<Vec<Field>, AllocError>
    requires { All (IsHeaderWithin (length bytes.now)) spans.now }
    ensures { IfOk result (λ fields. fields.items ≡ map (field_at bytes.now) spans.now) }
{
    let mut fields = Vec::with_capacity(alloc, spans.len())?;
    for span in spans {
        fields.push(field_at(alloc, bytes, span)?)?;
    }
    Ok(fields)
}

/// Whether the first byte is CR or LF, at which no head begins.
fn begins_line(bytes: &[u8]) -> bool
    ensures { result ≡ begins_line bytes.now }
{
    match bytes.first() {
        Some(b) => *b == b'\r' || *b == b'\n',
        None => false,
    }
}

/// The head that exactly these bytes spell, if they spell one.
fn head_in(alloc: Global, bytes: &[u8]) -> Result<Option<Request>, AllocError>
    requires { count_by (λ b. b == 10) bytes.now ≤ FIELD_LINES + 2 }
    ensures read { IfOk result (λ head. head_of bytes.now ≡ head) }
    ensures memory { OnErr result (IsSome (head_of bytes.now)) }
{
    if begins_line(bytes) {
        return Ok(None);
    }
    let mut spans = [EMPTY_HEADER_SPAN; FIELD_LINES];
    match parse_request(bytes, &mut spans) {
        Ok(Status::Complete(head)) => {
            if head.len != bytes.len() {
                return Ok(None);
            }
            let fields = fields_at(alloc, bytes, &spans[..head.headers])?;
            let method = head.method.of(bytes);
            let target = head.path.of(bytes);
            let request = Request::new(alloc, method, target, head.version == 0, fields)?;
            Ok(Some(request))
        }
        Ok(Status::Partial) => Ok(None),
        Err(_) => Ok(None),
    }
}

/// Reads a head that ends at its first empty line.
pub(crate) fn read_head(
    alloc: Global,
    bytes: &[u8],
) -> Result<Result<Request, HeadFault>, AllocError>
    ensures judged { IfOk result (IsJudged bytes.now) }
    ensures memory { OnErr result ((head : Head)
        × ((rest : List ℕ) → judged bytes.now rest ≡ Whole head rest)) }
{
    if bytes.iter().filter(|b| **b == b'\n').count() > FIELD_LINES + 2 {
        return Ok(Err(HeadFault::TooLong));
    }
    match head_in(alloc, bytes)? {
        Some(head) => Ok(Ok(head)),
        None => Ok(Err(HeadFault::Broken)),
    }
}
