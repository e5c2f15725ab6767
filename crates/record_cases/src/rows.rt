// The changes of the bench, as bytes.
use std::alloc::{AllocError, Global};

// SHA-1, MD5, SHA-256 and SHA-512 of `abc`.
const DIGESTS: &[u8] =
    b"\xa9\x99\x3e\x36\x47\x06\x81\x6a\xba\x3e\x25\x71\x78\x50\xc2\x6c\x9c\xd0\xd8\x9d\x90\x01\
    \x50\x98\x3c\xd2\x4f\xb0\xd6\x96\x3f\x7d\x28\xe1\x7f\x72\xba\x78\x16\xbf\x8f\x01\xcf\xea\
    \x41\x41\x40\xde\x5d\xae\x22\x23\xb0\x03\x61\xa3\x96\x17\x7a\x9c\xb4\x10\xff\x61\xf2\x00\
    \x15\xad\xdd\xaf\x35\xa1\x93\x61\x7a\xba\xcc\x41\x73\x49\xae\x20\x41\x31\x12\xe6\xfa\x4e\
    \x89\xa9\x7e\xa2\x0a\x9e\xee\xe6\x4b\x55\xd3\x9a\x21\x92\x99\x2a\x27\x4f\xc1\xa8\x36\xba\
    \x3c\x23\xa3\xfe\xeb\xbd\x45\x4d\x44\x23\x64\x3c\xe8\x0e\x2a\x9a\xc9\x4f\xa5\x4c\xa4\x9f";

/// The change, as bytes, that records a file of its own path with the blob of this number.
pub(crate) fn row_of(alloc: Global, number: u64) -> Result<Vec<u8>, AllocError> {
    let path = format!(in alloc; "org/acme/lib/1.{number}/lib-1.{number}.jar")?;
    let path = path.as_str().as_bytes();
    let mut bytes = Vec::new(alloc);
    bytes.extend_from_slice(b"\x02\0\0\0\x01\x01\0\x08releases\0")?;
    // It has fewer than 256 bytes.
    bytes.push((path.len() % 256) as u8)?;
    bytes.extend_from_slice(path)?;
    bytes.extend_from_slice(&number.to_be_bytes())?;
    bytes.extend_from_slice(&3u64.to_be_bytes())?;
    bytes.extend_from_slice(DIGESTS)?;
    bytes.extend_from_slice(&1_709_208_000u64.to_be_bytes())?;
    Ok(bytes)
}
