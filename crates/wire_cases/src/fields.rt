// What requests say of their fields.
use crate::streams::source_of;
use case_texts::{Tale, bytes_of, copied, text_of};
use http_wire::{BodyLength, Request, Wire};
use std::alloc::{AllocError, Global};

fn host_of(alloc: Global, request: &Request) -> Result<String, AllocError> {
    match request.first(b"host") {
        Some(host) => {
            let host: String = text_of(alloc, host)?;
            format!(in alloc; "<{host}>")
        }
        None => copied(alloc, "none"),
    }
}

fn length_of(alloc: Global, request: &Request) -> Result<String, AllocError> {
    match request.body_length() {
        BodyLength::Known(length) => format!(in alloc; "{length}"),
        BodyLength::Wrong => copied(alloc, "wrong"),
        BodyLength::Missing => copied(alloc, "missing"),
    }
}

/// The version, how many Host fields there are and the first of them, whether the connection is to close, and the length of the body.
fn told_fields(alloc: Global, request: &Request) -> Result<String, AllocError> {
    let version: &str = if request.is_old() { "1.0" } else { "1.1" };
    let hosts: usize = request.count(b"Host");
    let host: String = host_of(alloc, request)?;
    let close: &str = if request.asks_close() {
        "closes"
    } else {
        "goes-on"
    };
    let length: String = length_of(alloc, request)?;
    format!(in alloc; "{version} {hosts} {host} {close} {length}")
}

/// What is told of a step about fields.
pub(crate) fn told(alloc: Global, key: &str, words: &[String]) -> Tale {
    if key != "fields" {
        return Ok(None);
    }
    let bytes: Vec<u8> = bytes_of(alloc, words)?;
    let mut source = source_of(alloc, bytes.as_slice(), 9000, u64::MAX)?;
    Ok(Some(match Wire::new().next_request(alloc, &mut source) {
        Ok(Some(request)) => told_fields(alloc, &request)?,
        _ => copied(alloc, "no head")?,
    }))
}
