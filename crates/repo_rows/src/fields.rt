//! What items have after their tags.
ghost use Rattle.std.specs.Prelude.{◌≡◌, IfOk};
ghost use Rattle.repo_rows.specs.Given.{Gives};
ghost use Rattle.row_tables.specs.Reading.{further_at, short_at, whole_at, print_at, file_at, kept_in, written_at, document_at, kept_at, result_at};
ghost use Rattle.row_tables.specs.Items.{directory_at};

use crate::faults::ReadFault;
use crate::numbers::{Read, read_count, read_moment, read_serial, read_u32, read_u64};
use crate::strings::{read_bytes, read_document_path, read_id, read_place};
use mvn_coords::{Kind, kind_of};
use mvn_digest::{Further, Known};
use mvn_doc::{DocFault, read, write};
use mvn_metadata::{Doc, settle};
use repo_model::{Recorded, SessionResult};
use row_tables::Version;
use std::alloc::{AllocError, Global};
use texts::Text;

/// A repository and a path in it.
pub type Place = (Text, Text);

/// The place of a file, its blob's number, what is recorded of its content, and the moment when it was accepted.
pub type FileFields = (Place, (u64, (Recorded, u64)));

/// The place of a document, the moment when it was asked for, and the document.
pub type KeptFields = (Place, (u64, Doc));

/// SHA-256 and SHA-512.
#[tactic(auto, unfolding(row_tables::specs::Reading::further_at))]
pub fn read_further(bytes: &[u8]) -> Read<'_, Further>
    ensures { Gives (λ x. (x.0, x.1.now)) result (further_at bytes.now) }
{
    let (front, rest) = read_bytes(bytes, 32)?;
    let mut sha256 = [0; 32];
    sha256.copy_from_slice(front);
    let (front, rest) = read_bytes(rest, 64)?;
    let mut sha512 = [0; 64];
    sha512.copy_from_slice(front);
    Ok((Further { sha256, sha512 }, rest))
}

// What the first version records of a content.
#[tactic(auto, unfolding(row_tables::specs::Reading::short_at))]
fn read_short(bytes: &[u8]) -> Read<'_, Recorded>
    ensures { Gives (λ x. (x.0, x.1.now)) result (short_at bytes.now) }
{
    let (length, rest) = read_count(bytes)?;
    let (front, rest) = read_bytes(rest, 20)?;
    let mut sha1 = [0; 20];
    sha1.copy_from_slice(front);
    let (front, rest) = read_bytes(rest, 16)?;
    let mut md5 = [0; 16];
    md5.copy_from_slice(front);
    let digests = Known {
        sha1,
        md5,
        further: None,
    };
    Ok((Recorded { length, digests }, rest))
}

// What the second version records of a content.
#[tactic(auto, unfolding(row_tables::specs::Reading::whole_at))]
fn read_whole(bytes: &[u8]) -> Read<'_, Recorded>
    ensures { Gives (λ x. (x.0, x.1.now)) result (whole_at bytes.now) }
{
    let (length, rest) = read_count(bytes)?;
    let (front, rest) = read_bytes(rest, 20)?;
    let mut sha1 = [0; 20];
    sha1.copy_from_slice(front);
    let (front, rest) = read_bytes(rest, 16)?;
    let mut md5 = [0; 16];
    md5.copy_from_slice(front);
    let (further, rest) = read_further(rest)?;
    let digests = Known {
        sha1,
        md5,
        further: Some(further),
    };
    Ok((Recorded { length, digests }, rest))
}

fn read_print(version: Version, bytes: &[u8]) -> Read<'_, Recorded>
    ensures { Gives (λ x. (x.0, x.1.now)) result (print_at version bytes.now) }
{
    match version {
        Version::First => read_short(bytes),
        Version::Second => read_whole(bytes),
    }
}

/// What a file's item has.
#[tactic(auto, unfolding(row_tables::specs::Reading::file_at))]
pub fn read_file(alloc: Global, version: Version, bytes: &[u8]) -> Read<'_, FileFields>
    ensures { Gives (λ x. (x.0, x.1.now)) result (file_at version bytes.now) }
{
    let (place, rest) = read_place(alloc, bytes)?;
    let (blob, rest) = read_serial(rest)?;
    let (print, rest) = read_print(version, rest)?;
    let (accepted, rest) = read_moment(rest)?;
    Ok(((place, (blob, (print, accepted))), rest))
}

// The document of a text, where it is settled for the directory of a path and in its written form.
fn kept_document(alloc: Global, path: &str, written: &[u8]) -> Result<Option<Doc>, AllocError>
    ensures { IfOk result (λ d. d ≡ kept_in (directory_at path.now) written.now) }
{
    let Ok(Kind::Doc(dir)) = kind_of(path) else {
        return Ok(None);
    };
    let doc = match read(alloc, written) {
        Ok(doc) => doc,
        Err(DocFault::NoMemory) => return Err(AllocError),
        Err(DocFault::BadDocument { .. }) => return Ok(None),
    };
    let settled = settle(alloc, doc, &dir)?;
    let text = write(alloc, &settled)?;
    if text.as_slice() == written {
        Ok(Some(settled))
    } else {
        Ok(None)
    }
}

#[tactic(auto, unfolding(row_tables::specs::Reading::written_at))]
fn read_written<'a>(alloc: Global, path: &Text, size: usize, bytes: &'a [u8]) -> Read<'a, Doc>
    ensures { Gives (λ x. (x.0, x.1.now)) result (written_at path.now size bytes.now) }
{
    let (written, rest) = read_bytes(bytes, size)?;
    if written.len() > 4_100_000 {
        return Err(ReadFault::Refused(bytes.len()));
    }
    match kept_document(alloc, path.as_str(), written)? {
        Some(document) => Ok((document, rest)),
        None => Err(ReadFault::Refused(bytes.len())),
    }
}

#[tactic(auto, unfolding(row_tables::specs::Reading::document_at))]
fn read_document<'a>(alloc: Global, path: &Text, bytes: &'a [u8]) -> Read<'a, Doc>
    ensures { Gives (λ x. (x.0, x.1.now)) result (document_at path.now bytes.now) }
{
    let (size, rest) = read_u32(bytes)?;
    read_written(alloc, path, size as usize, rest)
}

/// What a document's item has.
#[tactic(auto, unfolding(row_tables::specs::Reading::kept_at))]
pub fn read_kept(alloc: Global, bytes: &[u8]) -> Read<'_, KeptFields>
    ensures { Gives (λ x. (x.0, x.1.now)) result (kept_at bytes.now) }
{
    let (repo, rest) = read_id(alloc, bytes)?;
    let (path, rest) = read_document_path(alloc, rest)?;
    let (checked, rest) = read_moment(rest)?;
    let (document, rest) = read_document(alloc, &path, rest)?;
    Ok((((repo, path), (checked, document)), rest))
}

/// How a session ended.
#[tactic(auto, unfolding(row_tables::specs::Reading::result_at))]
pub fn read_result(bytes: &[u8]) -> Read<'_, SessionResult>
    ensures { Gives (λ x. (x.0, x.1.now)) result (result_at bytes.now) }
{
    match bytes {
        [] => Err(ReadFault::Refused(0)),
        [0, rest @ ..] => {
            let (count, after) = read_u64(rest)?;
            if count != 0 {
                return Err(ReadFault::Refused(rest.len()));
            }
            Ok((SessionResult::Aborted, after))
        }
        [1, rest @ ..] => {
            let (count, after) = read_count(rest)?;
            Ok((SessionResult::Done(count), after))
        }
        [_, ..] => Err(ReadFault::Refused(bytes.len())),
    }
}
