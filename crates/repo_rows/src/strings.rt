//! Fields that are texts.
ghost use Rattle.std.specs.Prelude.{◌≡◌, is_some, length, IfOk};
ghost use Rattle.std.specs.Int.{w16};
ghost use Rattle.std.specs.Str.{IsUtf8};
ghost use Rattle.repo_rows.specs.Given.{Gives};
ghost use Rattle.row_tables.specs.Reading.{bytes_at, counted_at, id_at, file_path_at, document_path_at, place_at};
ghost use Rattle.std.specs.List.{list_all};
ghost use Rattle.row_tables.specs.Items.{is_id, is_id_byte, is_file_path, directory_at};

use crate::faults::ReadFault;
use crate::numbers::{Read, read_u16};
use mvn_coords::{Kind, kind_of};
use std::alloc::{AllocError, Global};
use std::str;
use texts::Text;

/// So many bytes.
#[tactic(auto, unfolding(row_tables::specs::Reading::bytes_at))]
pub fn read_bytes(bytes: &[u8], count: usize) -> Read<'_, &[u8]>
    ensures given { Gives (λ x. (x.0.now, x.1.now)) result (bytes_at count bytes.now) }
    ensures count { IfOk result (λ x. length x.0.now ≡ count) }
{
    if bytes.len() < count {
        return Err(ReadFault::Refused(bytes.len()));
    }
    let (front, rest) = bytes.split_at(count);
    Ok((front, rest))
}

/// A length in 2 bytes, and so many bytes.
#[tactic(auto, unfolding(row_tables::specs::Reading::counted_at))]
fn read_short(bytes: &[u8]) -> Read<'_, &[u8]>
    ensures { Gives (λ x. (x.0.now, x.1.now)) result (counted_at w16 bytes.now) }
{
    let (count, rest) = read_u16(bytes)?;
    let count = count as usize;
    if rest.len() < count {
        return Err(ReadFault::Refused(bytes.len()));
    }
    let (front, rest) = rest.split_at(count);
    Ok((front, rest))
}

fn text_of(alloc: Global, bytes: &[u8]) -> Result<Text, AllocError>
    requires { IsUtf8 bytes.now }
    ensures { IfOk result (λ t. t ≡ bytes.now) }
{
    match str::from_utf8(bytes) {
        Ok(text) => Text::new(alloc, text),
        Err(_) => unreachable!(),
    }
}

fn are_id_bytes(bytes: &[u8]) -> bool
    ensures { result ≡ list_all is_id_byte bytes.now }
{
    bytes.iter().all(|b| b.is_ascii_lowercase() || b.is_ascii_digit() || *b == b'-')
}

fn is_id(id: &[u8]) -> bool
    ensures { result ≡ is_id id.now }
{
    !id.is_empty() && id.len() <= 64 && are_id_bytes(id)
}

fn is_file_path(path: &[u8]) -> bool
    ensures { result ≡ is_file_path path.now }
{
    match str::from_utf8(path) {
        Ok(path) => matches!(kind_of(path), Ok(Kind::File(_))),
        Err(_) => false,
    }
}

fn is_document_path(path: &[u8]) -> bool
    ensures { result ≡ is_some (directory_at path.now) }
{
    match str::from_utf8(path) {
        Ok(path) => matches!(kind_of(path), Ok(Kind::Doc(_))),
        Err(_) => false,
    }
}

/// The id of a repository.
#[tactic(auto, unfolding(row_tables::specs::Reading::id_at))]
pub fn read_id(alloc: Global, bytes: &[u8]) -> Read<'_, Text>
    ensures { Gives (λ x. (x.0, x.1.now)) result (id_at bytes.now) }
{
    let (id, rest) = read_short(bytes)?;
    if !is_id(id) {
        return Err(ReadFault::Refused(bytes.len()));
    }
    Ok((text_of(alloc, id)?, rest))
}

/// The path of a file.
#[tactic(auto, unfolding(row_tables::specs::Reading::file_path_at))]
pub fn read_file_path(alloc: Global, bytes: &[u8]) -> Read<'_, Text>
    ensures { Gives (λ x. (x.0, x.1.now)) result (file_path_at bytes.now) }
{
    let (path, rest) = read_short(bytes)?;
    if !is_file_path(path) {
        return Err(ReadFault::Refused(bytes.len()));
    }
    Ok((text_of(alloc, path)?, rest))
}

/// The path of a document.
#[tactic(auto, unfolding(row_tables::specs::Reading::document_path_at))]
pub fn read_document_path(alloc: Global, bytes: &[u8]) -> Read<'_, Text>
    ensures { Gives (λ x. (x.0, x.1.now)) result (document_path_at bytes.now) }
{
    let (path, rest) = read_short(bytes)?;
    if !is_document_path(path) {
        return Err(ReadFault::Refused(bytes.len()));
    }
    Ok((text_of(alloc, path)?, rest))
}

/// The id of a repository and the path of a file in it.
#[tactic(auto, unfolding(row_tables::specs::Reading::place_at))]
pub fn read_place(alloc: Global, bytes: &[u8]) -> Read<'_, (Text, Text)>
    ensures { Gives (λ x. (x.0, x.1.now)) result (place_at bytes.now) }
{
    let (repo, rest) = read_id(alloc, bytes)?;
    let (path, rest) = read_file_path(alloc, rest)?;
    Ok(((repo, path), rest))
}
