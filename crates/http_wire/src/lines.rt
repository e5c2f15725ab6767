//! The lines of an answer's head (RFC 9112, sections 4 and 5).
ghost use Rattle.std.specs.Prelude.{◌≡◌, ◌++◌, OnOk};
ghost use Rattle.http_wire.specs.Answer.{allow_line, close_line, content_text, digest_lines, field_line, head_shown, status_line, status_text};

use crate::answers::{Answer, Content, Status};
use mvn_digest::Digests;
use std::alloc::AllocError;
use texts::Text;

/// The status code and the reason phrase. The reasons are fixed texts.
fn status_bytes(status: Status) -> &'static [u8]
    ensures { result.now ≡ status_text status }
{
    match status {
        Status::Ok => b"200 OK",
        Status::Created => b"201 Created",
        Status::BadRequest => b"400 Bad Request",
        Status::Forbidden => b"403 Forbidden",
        Status::NotFound => b"404 Not Found",
        Status::MethodNotAllowed => b"405 Method Not Allowed",
        Status::Conflict => b"409 Conflict",
        Status::LengthRequired => b"411 Length Required",
        Status::PayloadTooLarge => b"413 Payload Too Large",
        Status::UnprocessableEntity => b"422 Unprocessable Entity",
        Status::TooManyRequests => b"429 Too Many Requests",
        Status::RequestHeaderFieldsTooLarge => b"431 Request Header Fields Too Large",
        Status::InternalServerError => b"500 Internal Server Error",
        Status::BadGateway => b"502 Bad Gateway",
        Status::ServiceUnavailable => b"503 Service Unavailable",
        Status::GatewayTimeout => b"504 Gateway Timeout",
        Status::InsufficientStorage => b"507 Insufficient Storage",
    }
}

/// The media type.
fn media_type(content: Content) -> &'static [u8]
    ensures { result.now ≡ content_text content }
{
    match content {
        Content::File => b"application/octet-stream",
        Content::Document => b"text/xml",
        Content::Plain => b"text/plain",
    }
}

fn push_field(bytes: &mut Vec<u8>, name: &[u8], value: &[u8]) -> Result<(), AllocError>
    ensures { OnOk result (bytes.new.items ≡ bytes.old.items ++ field_line name.now value.now) }
{
    bytes.extend_from_slice(name)?;
    bytes.extend_from_slice(b": ")?;
    bytes.extend_from_slice(value)?;
    bytes.extend_from_slice(b"\r\n")?;
    Ok(())
}

fn push_digests(bytes: &mut Vec<u8>, digests: &Option<Digests>) -> Result<(), AllocError>
    ensures { OnOk result (bytes.new.items ≡ bytes.old.items ++ digest_lines digests.now) }
{
    match digests {
        Some(digests) => {
            push_field(bytes, b"X-Checksum-SHA1", digests.sha1_text().as_slice())?;
            push_field(bytes, b"X-Checksum-MD5", digests.md5_text().as_slice())
        }
        None => Ok(()),
    }
}

fn push_allow(bytes: &mut Vec<u8>, allow: &Option<Text>) -> Result<(), AllocError>
    ensures { OnOk result (bytes.new.items ≡ bytes.old.items ++ allow_line allow.now) }
{
    match allow {
        Some(methods) => push_field(bytes, b"Allow", methods.as_str().as_bytes()),
        None => Ok(()),
    }
}

fn push_close(bytes: &mut Vec<u8>, close: bool) -> Result<(), AllocError>
    ensures { OnOk result (bytes.new.items ≡ bytes.old.items ++ close_line close) }
{
    if close {
        push_field(bytes, b"Connection", b"close")
    } else {
        Ok(())
    }
}

fn push_status(bytes: &mut Vec<u8>, status: Status) -> Result<(), AllocError>
    ensures { OnOk result (bytes.new.items ≡ bytes.old.items ++ status_line status) }
{
    bytes.extend_from_slice(b"HTTP/1.1 ")?;
    bytes.extend_from_slice(status_bytes(status))?;
    bytes.extend_from_slice(b"\r\n")?;
    Ok(())
}

/// Puts the head of the answer after the bytes.
pub(crate) fn push_head(bytes: &mut Vec<u8>, answer: &Answer) -> Result<(), AllocError>
    ensures { OnOk result (bytes.new.items ≡ bytes.old.items ++ head_shown answer.now) }
{
    push_status(bytes, answer.status)?;
    push_field(bytes, b"Content-Type", media_type(answer.content))?;
    let mut digits = itoa::Buffer::new();
    push_field(
        bytes,
        b"Content-Length",
        digits.format(answer.length).as_bytes(),
    )?;
    push_digests(bytes, &answer.digests)?;
    push_allow(bytes, &answer.allow)?;
    push_close(bytes, answer.close)?;
    bytes.extend_from_slice(b"\r\n")?;
    Ok(())
}
