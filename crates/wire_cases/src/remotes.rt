//! What a remote answers, as the steps write it.
use case_texts::{bytes_of, joined};
use std::alloc::{AllocError, Global};

// These bytes, CR LF in the place of each `|`.
fn lines(alloc: Global, text: &[u8]) -> Result<Vec<u8>, AllocError> {
    let mut bytes: Vec<u8> = Vec::new(alloc);
    for byte in text {
        match *byte {
            b'|' => bytes.extend_from_slice(b"\r\n")?,
            other => bytes.push(other)?,
        }
    }
    Ok(bytes)
}

// An answer 200 with this body.
fn with_body(alloc: Global, body: &[u8]) -> Result<Vec<u8>, AllocError> {
    let head: String = format!(in alloc;
        "HTTP/1.1 200 OK\r\nContent-Length: {}\r\n\r\n",
        body.len()
    )?;
    let mut bytes: Vec<u8> = Vec::from_slice(alloc, head.as_bytes())?;
    bytes.extend_from_slice(body)?;
    Ok(bytes)
}

/// The bytes of an answer of these words. Nothing for an exchange that fails.
pub fn answer(alloc: Global, words: &[String]) -> Result<Option<Vec<u8>>, AllocError> {
    if joined(alloc, words)?.as_str() == "!" {
        return Ok(None);
    }
    let bytes: Vec<u8> = bytes_of(alloc, words)?;
    match bytes.as_slice() {
        [b'=', body @ ..] => Ok(Some(with_body(alloc, body)?)),
        text => Ok(Some(lines(alloc, text)?)),
    }
}
