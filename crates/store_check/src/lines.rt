//! The lines of a check.
ghost use Rattle.std.specs.Prelude.{◌≡◌, ◌≤◌, ◌++◌, IfOk, OnOk, length};
ghost use Rattle.std.specs.List.{flat_map};
ghost use Rattle.mvn_digest.specs.Hex.{hex_text};
ghost use Rattle.store_check.specs.Lines.{checked_line, damaged_line, damaged_text, found_text, recorded_text, report_text, row_line, stopped_line, sums_text};

use blob_audit::{Audit, Damaged};
use mvn_digest::SHA1_DIGITS;
use repo_model::{Print, Recorded};
use std::alloc::{AllocError, Global};

/// Adds a digest of at most 20 bytes in small hexadecimal digits.
fn push_digest(text: &mut Vec<u8>, digest: &[u8]) -> Result<(), AllocError>
    requires { length digest.now ≤ 20 }
    ensures { OnOk result (text.new.items ≡ text.old.items ++ hex_text digest.now) }
{
    let mut digits = [0; SHA1_DIGITS];
    let len = 2 * digest.len();
    let _ = hex::encode_to_slice(digest, &mut digits[..len]);
    text.extend_from_slice(&digits[..len])
}

/// Adds length, SHA-1 and MD5 of a content.
fn push_sums(
    alloc: Global,
    text: &mut Vec<u8>,
    length: u64,
    sha1: &[u8; 20],
    md5: &[u8; 16],
) -> Result<(), AllocError>
    ensures { OnOk result (text.new.items ≡ text.old.items ++ sums_text length sha1.now md5.now) }
{
    text.extend_from_slice(length.to_string(alloc)?.as_bytes())?;
    text.push(b' ')?;
    push_digest(text, sha1)?;
    text.push(b' ')?;
    push_digest(text, md5)
}

/// Adds what was recorded of a content.
fn push_recorded(alloc: Global, text: &mut Vec<u8>, recorded: &Recorded) -> Result<(), AllocError>
    ensures { OnOk result (text.new.items ≡ text.old.items ++ recorded_text recorded.now) }
{
    let known = &recorded.digests;
    push_sums(alloc, text, recorded.length, &known.sha1, &known.md5)
}

/// Adds what was found of a content, or that there was none.
fn push_found(alloc: Global, text: &mut Vec<u8>, found: &Option<Print>) -> Result<(), AllocError>
    ensures { OnOk result (text.new.items ≡ text.old.items ++ found_text found.now) }
{
    match found {
        Some(print) => {
            let digests = &print.digests;
            push_sums(alloc, text, print.length, &digests.sha1, &digests.md5)
        }
        None => text.extend_from_slice(b"none"),
    }
}

/// Adds what is wrong with a recorded file.
fn push_damaged(alloc: Global, text: &mut Vec<u8>, damaged: &Damaged) -> Result<(), AllocError>
    ensures { OnOk result (text.new.items ≡ text.old.items ++ damaged_text damaged.now) }
{
    text.extend_from_slice(b"damaged ")?;
    text.extend_from_slice(damaged.repo.as_str().as_bytes())?;
    text.push(b'/')?;
    text.extend_from_slice(damaged.path.as_str().as_bytes())?;
    text.extend_from_slice(b" recorded ")?;
    push_recorded(alloc, text, &damaged.recorded)?;
    text.extend_from_slice(b" found ")?;
    push_found(alloc, text, &damaged.found)
}

/// The lines of damaged files.
fn damaged_lines(alloc: Global, damages: &[Damaged]) -> Result<Vec<u8>, AllocError>
    ensures { IfOk result (λ text. text.items ≡ flat_map damaged_line damages.now) }
{
    let mut text = Vec::new(alloc);
    for damaged in damages {
        push_damaged(alloc, &mut text, damaged)?;
        text.push(b'\n')?;
    }
    Ok(text)
}

/// The lines of damaged files, and how many files were looked at.
pub(crate) fn report_text(alloc: Global, found: &Audit) -> Result<Vec<u8>, AllocError>
    ensures { IfOk result (λ text. text.items ≡ report_text found.now.damaged.items found.now.looked) }
{
    let mut text = damaged_lines(alloc, &found.damaged)?;
    text.extend_from_slice(b"checked ")?;
    text.extend_from_slice(found.looked.to_string(alloc)?.as_bytes())?;
    text.push(b'\n')?;
    Ok(text)
}

/// The line of a repository that is not opened, since a file is damaged.
pub(crate) fn stopped_line(alloc: Global, damaged: &Damaged) -> Result<Vec<u8>, AllocError>
    ensures { IfOk result (λ line. line.items ≡ stopped_line damaged.now) }
{
    let mut line = Vec::from_slice(alloc, b"mvnrepod: ")?;
    push_damaged(alloc, &mut line, damaged)?;
    line.push(b'\n')?;
    Ok(line)
}

/// The line of records in which a frame cannot be read at a place of it.
pub(crate) fn row_line(alloc: Global, frame: u64, at: u64) -> Result<Vec<u8>, AllocError>
    ensures { IfOk result (λ line. line.items ≡ row_line frame at) }
{
    let mut line = Vec::from_slice(alloc, b"mvnrepod: row ")?;
    line.extend_from_slice(frame.to_string(alloc)?.as_bytes())?;
    line.push(b' ')?;
    line.extend_from_slice(at.to_string(alloc)?.as_bytes())?;
    line.push(b'\n')?;
    Ok(line)
}
