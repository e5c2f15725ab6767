// Words of steps, and what is told in words.
use crate::escapes::push_line;
use std::alloc::{AllocError, Global};

/// A text of its own.
pub fn copied(alloc: Global, text: &str) -> Result<String, AllocError> {
    String::from_str(alloc, text)
}

/// The number that a word is.
pub fn number_of(word: &str) -> Option<u64> {
    word.parse::<u64>().ok()
}

/// The words, with a blank between two.
pub fn joined(alloc: Global, words: &[String]) -> Result<String, AllocError> {
    let mut text: String = String::new(alloc);
    for (n, word) in words.iter().enumerate() {
        text.push_str(if n == 0 { "" } else { " " })?;
        text.push_str(word.as_str())?;
    }
    Ok(text)
}

/// The bytes that the words stand for, with a blank between two: escapes are those of a line of text. Where there is another one,
/// none.
pub fn bytes_of(alloc: Global, words: &[String]) -> Result<Vec<u8>, AllocError> {
    let text: String = joined(alloc, words)?;
    let mut bytes: Vec<u8> = Vec::new(alloc);
    if push_line(&mut bytes, text.as_bytes(), b"", 1).is_err() {
        bytes.clear();
    }
    Ok(bytes)
}

/// The bytes that the words stand for, one after the other, by the same escapes. Where a word has another one, none from there on.
pub fn run_together(alloc: Global, words: &[String]) -> Result<Vec<u8>, AllocError> {
    let mut bytes: Vec<u8> = Vec::new(alloc);
    for word in words {
        if push_line(&mut bytes, word.as_bytes(), b"", 1).is_err() {
            break;
        }
    }
    Ok(bytes)
}

/// Bytes as they are written in a step: those that are no visible ASCII as `\x` and two digits.
pub fn shown(alloc: Global, bytes: &[u8]) -> Result<String, AllocError> {
    let mut text: String = String::new(alloc);
    for byte in bytes {
        match byte {
            b'!'..=b'~' if *byte != b'\\' => text.push(*byte as char)?,
            _ => write!(text, "\\x{byte:02x}")?,
        }
    }
    Ok(text)
}

/// Text of bytes.
pub fn text_of(alloc: Global, bytes: &[u8]) -> Result<String, AllocError> {
    String::from_utf8_lossy(alloc, bytes)
}

/// How a fact is told.
pub fn yes_or_no(is_so: bool) -> &'static str {
    if is_so { "yes" } else { "no" }
}
