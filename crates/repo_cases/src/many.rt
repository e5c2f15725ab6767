// Many files of `abc` that an older program recorded.
use case_texts::{Stored, push_line};
use std::alloc::{AllocError, Global};

/// The bytes that a word stands for. Where it has another escape than a line of text, none.
fn bytes_in(alloc: Global, word: &str) -> Result<Vec<u8>, AllocError> {
    let mut bytes: Vec<u8> = Vec::new(alloc);
    if push_line(&mut bytes, word.as_bytes(), b"", 1).is_err() {
        bytes.clear();
    }
    Ok(bytes)
}

/// The item of the file of a number, between what stands before its path and after its number.
fn push_item(
    alloc: Global,
    bytes: &mut Vec<u8>,
    number: u64,
    front: &[u8],
    behind: &[u8],
) -> Result<(), AllocError> {
    let path: String = format!(in alloc; "org/acme/lib/1.0/lib-1.0-{number}.jar")?;
    let path: &[u8] = path.as_str().as_bytes();
    bytes.extend_from_slice(front)?;
    bytes.push(0)?;
    bytes.push((path.len() % 256) as u8)?;
    bytes.extend_from_slice(path)?;
    bytes.extend_from_slice(&number.to_be_bytes())?;
    bytes.extend_from_slice(behind)
}

/// A journal with one change of the first version of so many files, their numbers from 1,000 on.
pub(crate) fn file_of(
    alloc: Global,
    count: u32,
    front: &str,
    behind: &str,
) -> Result<Vec<u8>, AllocError> {
    let front: Vec<u8> = bytes_in(alloc, front)?;
    let behind: Vec<u8> = bytes_in(alloc, behind)?;
    let mut items: Vec<u8> = Vec::new(alloc);
    for number in 0..count {
        push_item(alloc, &mut items, number as u64 + 1_000, &front, &behind)?;
    }
    let size = (items.len() % 4_000_000_000) as u32;
    let mut bytes: Vec<u8> = Vec::new(alloc);
    bytes.extend_from_slice(b"MVNROWS1\x01")?;
    bytes.extend_from_slice(&size.wrapping_add(5).to_be_bytes())?;
    bytes.push(1)?;
    bytes.extend_from_slice(&count.to_be_bytes())?;
    bytes.extend_from_slice(&items)?;
    bytes.push(0)?;
    Ok(bytes)
}

/// Their blobs.
pub(crate) fn stored_with(alloc: Global, count: u32) -> Result<Vec<Stored>, AllocError> {
    let mut all: Vec<Stored> = Vec::new(alloc);
    for number in 0..count {
        let bytes: Vec<u8> = Vec::from_slice(alloc, b"abc")?;
        let blob: u64 = number as u64 + 1_000;
        all.push(Stored { blob, bytes })?;
    }
    Ok(all)
}
