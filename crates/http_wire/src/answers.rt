//! An answer, and its bytes (RFC 9112, section 4).
ghost use Rattle.std.specs.Prelude.{◌≡◌, IfOk};
ghost use Rattle.http_wire.specs.Answer.{continue_bytes, no_memory, shown, without_body};

use crate::lines::push_head;
use mvn_digest::Digests;
use std::alloc::{AllocError, Global};
use texts::{Bytes, Text};

/// The status of an answer (RFC 9110, section 15).
#[derive(Clone, Copy, Debug, PartialEq, Eq)]
pub enum Status {
    Ok,
    Created,
    BadRequest,
    Forbidden,
    NotFound,
    MethodNotAllowed,
    Conflict,
    LengthRequired,
    PayloadTooLarge,
    UnprocessableEntity,
    TooManyRequests,
    RequestHeaderFieldsTooLarge,
    InternalServerError,
    BadGateway,
    ServiceUnavailable,
    GatewayTimeout,
    InsufficientStorage,
}

/// What the content of an answer is, as its media type says (RFC 9110, section 8.3).
#[derive(Clone, Copy, Debug, PartialEq, Eq)]
pub enum Content {
    /// A stored file, `application/octet-stream`.
    File,
    /// A metadata document, `text/xml`.
    Document,
    /// A line or a few lines of text, `text/plain`.
    Plain,
}

/// An answer to a request (RFC 9112, sections 4 and 5).
#[derive(Drop)]
pub struct Answer {
    pub status: Status,
    pub content: Content,
    /// The length of the content in bytes. The content may be sent apart from the answer, or not at all, as
    /// in the answer to HEAD.
    pub length: u64,
    /// The digests of the content, which a file and a document have.
    pub digests: Option<Digests>,
    /// The methods of the target, which an answer with the status 405 tells.
    pub allow: Option<Text>,
    /// Whether the connection ends after the answer.
    pub close: bool,
    /// The bytes that are sent right after the head.
    pub body: Bytes,
}

/// How many bytes are made room for beside a body, so that the head of most answers is written without asking for more memory.
const HEAD_ROOM: usize = 256;

/// The bytes of the answer: its head and its body.
pub fn render(alloc: Global, answer: &Answer) -> Result<Bytes, AllocError>
    ensures ok { IfOk result (λ bytes. bytes ≡ shown answer.now) }
{
    let room = answer.body.as_slice().len().saturating_add(HEAD_ROOM);
    let mut bytes = Vec::with_capacity(alloc, room)?;
    push_head(&mut bytes, answer)?;
    bytes.extend_from_slice(answer.body.as_slice())?;
    Ok(Bytes::from_vec(bytes))
}

/// The answer where there is no memory for another: 507, the text `memory`, and the connection ends.
pub const NO_MEMORY: &[u8; 108] =
    b"HTTP/1.1 507 Insufficient Storage\r\nContent-Type: text/plain\r\nContent-Length: 7\r\nConnection: close\r\n\r\nmemory\n";

/// The bytes of the answer where there is no memory for another. They take none.
pub fn no_memory_answer() -> &'static [u8]
    ensures { result.now ≡ shown no_memory }
{
    NO_MEMORY.as_slice()
}

/// The same answer to HEAD: its head alone (RFC 9110, section 9.3.2).
pub const NO_MEMORY_HEAD: &[u8; 101] =
    b"HTTP/1.1 507 Insufficient Storage\r\nContent-Type: text/plain\r\nContent-Length: 7\r\nConnection: close\r\n\r\n";

/// The bytes of the answer to HEAD where there is no memory for another. They take none.
pub fn no_memory_head() -> &'static [u8]
    ensures { result.now ≡ shown (without_body no_memory) }
{
    NO_MEMORY_HEAD.as_slice()
}

/// The interim answer that asks for the body of a request (RFC 9110, section 15.2.1).
pub const CONTINUE: &[u8; 25] = b"HTTP/1.1 100 Continue\r\n\r\n";

/// The bytes of the interim answer that asks for the body of a request. They take no memory.
pub fn continue_answer() -> &'static [u8]
    ensures { result.now ≡ continue_bytes }
{
    CONTINUE.as_slice()
}
