//! What is fetched, what servers answer, and what comes of it, as the table writes it.

use fetch_plan::{Outcome, Plan};
use remote_fetch::Content;
use std::alloc::{AllocError, Global};
use texts::Text;

/// A plan for a file of at most 100 bytes, at a host and port.
pub fn plan(alloc: Global, host: &str, port: u16) -> Result<Plan, AllocError> {
    Ok(Plan {
        proxy: Text::new(alloc, "central")?,
        member: 0,
        host: Text::new(alloc, host)?,
        port,
        prefix: Text::new(alloc, "/m2")?,
        path: Text::new(alloc, "org/acme/lib/1.0/lib-1.0.jar")?,
        draft: Some(1),
        limit: 100,
    })
}

// The literal bytes of a text, in which `|` stands for CR LF.
fn lines(alloc: Global, text: &str) -> Result<Vec<u8>, AllocError> {
    let mut bytes = Vec::new(alloc);
    for byte in text.as_bytes() {
        if *byte == b'|' {
            bytes.extend_from_slice(b"\r\n")?;
        } else {
            bytes.push(*byte)?;
        }
    }
    Ok(bytes)
}

// An answer 200 with the body `abc` that has so many bytes in all, by a field that says nothing.
fn padded(alloc: Global, count: usize) -> Result<Vec<u8>, AllocError> {
    let behind = b"\r\nContent-Length: 3\r\n\r\nabc";
    let mut bytes = Vec::from_slice(alloc, b"HTTP/1.1 200 OK\r\nX: ")?;
    let room = count
        .saturating_sub(bytes.len())
        .saturating_sub(behind.len());
    for _ in 0..room {
        bytes.push(b'x')?;
    }
    bytes.extend_from_slice(behind)?;
    Ok(bytes)
}

/// The bytes of an answer: `whole N` is one with the body `abc` that has N bytes, `A` one with the SHA-1 digest of `abc`, `B` one
/// with its MD5 digest; any other text is literal, `|` being CR LF.
pub fn answer(alloc: Global, text: &str) -> Result<Vec<u8>, AllocError> {
    if let Some(count) = text.strip_prefix("whole ") {
        return padded(alloc, count.parse::<usize>().unwrap_or(0));
    }
    match text {
        "A" => lines(
            alloc,
            "HTTP/1.1 200 OK|Content-Length: 40||a9993e364706816aba3e25717850c26c9cd0d89d",
        ),
        "B" => lines(
            alloc,
            "HTTP/1.1 200 OK|Content-Length: 32||900150983cd24fb0d6963f7d28e17f72",
        ),
        text => lines(alloc, text),
    }
}

/// What came of a fetch, as text.
pub fn outcome(alloc: Global, outcome: &Outcome<Content>) -> Result<String, AllocError> {
    match outcome {
        Outcome::Got(Content::File(checked)) => {
            let text = str::from_utf8(checked.bytes.as_slice()).unwrap_or("no text");
            format!(in alloc; "got {text}")
        }
        Outcome::BadAnswer { at } => format!(in alloc; "bad-answer {}", *at),
        Outcome::TooLarge => String::from_str(alloc, "too-large"),
        Outcome::Fault => String::from_str(alloc, "fault"),
        _ => String::from_str(alloc, "another"),
    }
}
