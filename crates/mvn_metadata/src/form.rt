//! Tests of the values that a document may have.
ghost use Rattle.std.specs.Prelude.{◌≡◌, ◌++◌, codes, is_some};
ghost use Rattle.std.specs.List.{list_all};
ghost use Rattle.mvn_coords.specs.FileName.{base_of};
ghost use Rattle.mvn_coords.specs.Segment.{is_group_segment};
ghost use Rattle.mvn_metadata.specs.Form as spec;

use crate::{Pair, SnapshotBuild};
use mvn_coords::laws::build_is_fit;
use mvn_coords::{are_path_bytes, is_path_byte, is_version_directory};
use std::str;

/// Whether bytes are a group with `.` between its segments, which are 1 to 255 letters, digits, `_` and `-`.
pub fn is_group(bytes: &[u8]) -> bool
    ensures { result ≡ spec.is_group bytes.now }
{
    bytes.split(|b| *b == b'.').all(|part| is_group_part(part))
}

fn is_group_part(bytes: &[u8]) -> bool
    ensures { result ≡ is_group_segment bytes.now }
{
    match str::from_utf8(bytes) {
        Ok(text) => mvn_coords::is_group_segment(text),
        Err(_) => false,
    }
}

/// Whether a text is a version directory X-SNAPSHOT.
pub fn is_base_version(text: &str) -> bool
    ensures { result ≡ spec.is_base_version text.now }
{
    is_version_directory(text) && has_base(text)
}

/// Whether a version directory is X-SNAPSHOT, for some X.
#[tactic(auto, using(std::proofs::lemmas::Str::Pattern::ends_text))]
fn has_base(text: &str) -> bool
    ensures { result ≡ is_some (base_of text.now) }
{
    text.len() > 9 && text.ends_with("-SNAPSHOT")
}

fn is_classifier_byte(b: u8) -> bool
    ensures { result ≡ spec.is_classifier_byte b }
{
    is_path_byte(b) && b != b'.'
}

fn are_classifier_bytes(text: &str) -> bool
    ensures { result ≡ list_all spec.is_classifier_byte text.now }
{
    text.bytes().all(is_classifier_byte)
}

/// Whether a text may be a classifier: up to 255 bytes of `A-Z a-z 0-9 _ + -`; none where there is no classifier.
pub fn is_classifier(text: &str) -> bool
    ensures { result ≡ spec.is_classifier text.now }
{
    text.len() <= 255 && are_classifier_bytes(text)
}

/// Whether a text may be an extension: 1 to 255 bytes of `A-Z a-z 0-9 . _ + -`.
pub fn is_extension(text: &str) -> bool
    ensures { result ≡ spec.is_extension text.now }
{
    !text.is_empty() && text.len() <= 255 && are_path_bytes(text)
}

/// Whether a pair and its build fit a document: classifier, extension, and a base X whose X-SNAPSHOT is a version
/// directory.
pub fn is_entry(pair: &Pair, snapshot: &SnapshotBuild) -> bool
    ensures { result ≡ spec.is_entry (pair.now, snapshot.now) }
{
    build_is_fit(snapshot.build);
    is_classifier(pair.classifier.as_str())
        && is_extension(pair.extension.as_str())
        && is_base(snapshot.base.as_str())
}

/// Whether X-SNAPSHOT is a version directory, for this X: 1 to 119 bytes of `A-Z a-z 0-9 . _ + -`.
#[tactic(auto, using(crate::proofs::Bases::base_told))]
pub fn is_base(base: &str) -> bool
    ensures { result ≡ spec.is_base_version (base.now ++ codes "-SNAPSHOT") }
{
    !base.is_empty() && base.len() <= 119 && are_path_bytes(base)
}
