//! The requests.
ghost use Rattle.std.specs.Prelude.{◌≡◌, ◌≤◌, ◌+◌, ◌/◌, ◌%◌, ◌++◌, codes, IfOk, OnOk};
ghost use Rattle.httparse.specs.Ascii.{crlf_bytes};
ghost use Rattle.demo_requests.specs.Requests as spec;

use crate::NoMemory;
use crate::paths::{push_build, push_directory, push_number, push_release, push_snapshot};
use std::alloc::Global;

/// The moment of the place 0, 2024-02-29T12:00:00Z, in seconds since 1970 in UTC.
pub(crate) const FIRST_MOMENT: u64 = 1_709_208_000;

/// Ends the line of a request, and pushes the fields that each request has.
fn push_fields(text: &mut Vec<u8>) -> Result<(), NoMemory>
    ensures { OnOk result (text.new.items ≡ text.old.items ++ spec.fields) }
{
    text.extend_from_slice(b" HTTP/1.1\r\nHost: x\r\nConnection: close\r\n")
}

fn push_length(alloc: Global, text: &mut Vec<u8>, length: u64) -> Result<(), NoMemory>
    ensures { OnOk result (text.new.items ≡ text.old.items ++ spec.length_field length) }
{
    text.extend_from_slice(b"Content-Length: ")?;
    push_number(alloc, text, length)?;
    text.extend_from_slice(b"\r\n")
}

/// Ends the head of a request with the length of its body, and pushes the body.
fn push_body(alloc: Global, text: &mut Vec<u8>, body: &[u8]) -> Result<(), NoMemory>
    ensures { OnOk result (text.new.items ≡ text.old.items ++ spec.with_body body.now) }
{
    push_fields(text)?;
    push_length(alloc, text, body.len() as u64)?;
    text.extend_from_slice(b"\r\n")?;
    text.extend_from_slice(body)
}

/// A release's file is put, with the digits of its artifact and of its version.
fn put_release(alloc: Global, artifact: u64, version: u64) -> Result<Vec<u8>, NoMemory>
    ensures { IfOk result (λ text. text.items ≡ spec.puts_release artifact version) }
{
    let mut body = Vec::new(alloc);
    push_number(alloc, &mut body, artifact)?;
    push_number(alloc, &mut body, version)?;
    let mut text = Vec::from_slice(alloc, b"PUT /repository/releases/")?;
    push_release(alloc, &mut text, artifact, version)?;
    push_body(alloc, &mut text, &body)?;
    Ok(text)
}

/// A build's file is put, with the digits of the number.
fn put_build(
    alloc: Global,
    artifact: u64,
    version: u64,
    number: u64,
    place: u32,
) -> Result<Vec<u8>, NoMemory>
    ensures { IfOk result (λ text. text.items ≡ spec.puts_build artifact version number place) }
{
    let mut text = Vec::from_slice(alloc, b"PUT /repository/snapshots/")?;
    push_build(alloc, &mut text, artifact, version, place)?;
    push_body(alloc, &mut text, number.to_string(alloc)?.as_bytes())?;
    Ok(text)
}

/// The document of an artifact.
fn get_versions(alloc: Global, artifact: u64) -> Result<Vec<u8>, NoMemory>
    ensures { IfOk result (λ text. text.items ≡ spec.gets_versions artifact) }
{
    let mut text = Vec::from_slice(alloc, b"GET /repository/public/")?;
    push_directory(alloc, &mut text, artifact)?;
    text.extend_from_slice(b"maven-metadata.xml")?;
    push_fields(&mut text)?;
    text.extend_from_slice(b"\r\n")?;
    Ok(text)
}

/// The document of a snapshot.
fn get_builds(alloc: Global, artifact: u64, version: u64) -> Result<Vec<u8>, NoMemory>
    ensures { IfOk result (λ text. text.items ≡ spec.gets_builds artifact version) }
{
    let mut text = Vec::from_slice(alloc, b"GET /repository/public/")?;
    push_snapshot(alloc, &mut text, artifact, version)?;
    text.extend_from_slice(b"/maven-metadata.xml")?;
    push_fields(&mut text)?;
    text.extend_from_slice(b"\r\n")?;
    Ok(text)
}

fn get_release(alloc: Global, artifact: u64, version: u64) -> Result<Vec<u8>, NoMemory>
    ensures { IfOk result (λ text. text.items ≡ spec.gets_release artifact version) }
{
    let mut text = Vec::from_slice(alloc, b"GET /repository/public/")?;
    push_release(alloc, &mut text, artifact, version)?;
    push_fields(&mut text)?;
    text.extend_from_slice(b"\r\n")?;
    Ok(text)
}

fn clean(alloc: Global) -> Result<Vec<u8>, NoMemory>
    ensures { IfOk result (λ text. text.items ≡ spec.cleans) }
{
    let mut text = Vec::from_slice(alloc, b"POST /api/clean")?;
    push_fields(&mut text)?;
    text.extend_from_slice(b"\r\n")?;
    Ok(text)
}

/// The bytes of the request of a number at a place: a file put to `releases` or to `snapshots`, a document or a
/// file got from `public`, or a cleaning; each asks that its connection is closed.
pub fn request(alloc: Global, number: u64, place: u32) -> Result<Vec<u8>, NoMemory>
    ensures { IfOk result (λ text. text.items ≡ spec.request number place) }
{
    let artifact = number / 10 % 7;
    let version = number / 70 % 9;
    match number % 10 {
        0 | 1 | 2 => put_release(alloc, artifact, version),
        3 | 4 | 5 => put_build(alloc, artifact, version, number, place),
        6 => get_versions(alloc, artifact),
        7 => get_builds(alloc, artifact, version),
        8 => get_release(alloc, artifact, version),
        _ => clean(alloc),
    }
}
