//! The values of a document: which text fits where.
ghost use Rattle.std.specs.Prelude.{◌≡◌, MatchOption, IfOk, IfSome, IsTrue};
ghost use Rattle.std.specs.Option.{option_copied, option_map};
ghost use Rattle.std.specs.Str.{IsUtf8};
ghost use Rattle.mvn_coords.specs.Civil.{time_of};
ghost use Rattle.mvn_coords.specs.FileName.{is_build_number, number_of};
ghost use Rattle.mvn_coords.specs.Segment as segment;
ghost use Rattle.mvn_metadata.specs.Form as form;
ghost use Rattle.mvn_doc.specs.Picked as picked;

use mvn_coords::{Build, Stamp, build_number, is_artifact, is_version_directory};
use mvn_metadata::{
    NoMemory, SnapshotBuild, is_base, is_base_version, is_classifier, is_extension, is_group,
};
use std::alloc::Global;
use std::str;
use texts::Text;

/// The bytes as text, where they are UTF-8.
fn text_of(bytes: &[u8]) -> Option<&str>
    ensures { MatchOption result (¬ (IsUtf8 bytes.now)) (λ t. t.now ≡ bytes.now) }
{
    match str::from_utf8(bytes) {
        Ok(text) => Some(text),
        Err(_) => None,
    }
}

/// The text, where it is a version directory.
pub(crate) fn version(bytes: &[u8]) -> Option<&str>
    ensures { option_copied result ≡ picked.fitting segment.is_version_directory bytes.now }
{
    let text = text_of(bytes)?;
    if is_version_directory(text) {
        Some(text)
    } else {
        None
    }
}

/// The text, where it is a version directory X-SNAPSHOT.
pub(crate) fn base_version(bytes: &[u8]) -> Option<&str>
    ensures { option_copied result ≡ picked.fitting form.is_base_version bytes.now }
{
    let text = text_of(bytes)?;
    if is_base_version(text) {
        Some(text)
    } else {
        None
    }
}

/// The text, where it is an artifact.
pub(crate) fn artifact(bytes: &[u8]) -> Option<&str>
    ensures { option_copied result ≡ picked.fitting segment.is_artifact bytes.now }
{
    let text = text_of(bytes)?;
    if is_artifact(text) { Some(text) } else { None }
}

/// The bytes, where they are group segments with `.` between them.
pub(crate) fn group(bytes: &[u8]) -> Option<&[u8]>
    ensures { option_copied result ≡ picked.fitting form.is_group bytes.now }
{
    if is_group(bytes) { Some(bytes) } else { None }
}

/// The text, where it is a classifier or has no bytes.
pub(crate) fn classifier(bytes: &[u8]) -> Option<&str>
    ensures { option_copied result ≡ picked.fitting form.is_classifier bytes.now }
{
    let text = text_of(bytes)?;
    if is_classifier(text) {
        Some(text)
    } else {
        None
    }
}

/// The text, where it is an extension.
pub(crate) fn extension(bytes: &[u8]) -> Option<&str>
    ensures { option_copied result ≡ picked.fitting form.is_extension bytes.now }
{
    let text = text_of(bytes)?;
    if is_extension(text) { Some(text) } else { None }
}

/// The civil time that the bytes write as a timestamp.
pub(crate) fn timestamp(bytes: &[u8]) -> Option<Stamp>
    ensures { result ≡ time_of bytes.now }
{
    let text = text_of(bytes)?;
    Stamp::parse(text)
}

/// The build number that the bytes write.
pub(crate) fn number(bytes: &[u8]) -> Option<u32>
    ensures value { result ≡ number_of bytes.now }
    ensures range { IfSome result (λ n. IsTrue (is_build_number n)) }
{
    let text = text_of(bytes)?;
    build_number(text)
}

/// The civil time that 14 digits write.
pub(crate) fn moment(bytes: &[u8]) -> Option<Stamp>
    ensures { result ≡ picked.moment_of bytes.now }
{
    if bytes.len() != 14 {
        return None;
    }
    let mut text = [b'.'; 15];
    text[..8].copy_from_slice(&bytes[..8]);
    text[9..].copy_from_slice(&bytes[8..]);
    timestamp(&text)
}

/// The build with this stamp and number, where both are there.
pub(crate) fn build(stamp: Option<Stamp>, number: Option<u32>) -> Option<Build>
    requires { IfSome number (λ n. IsTrue (is_build_number n)) }
    ensures { result ≡ picked.build_by stamp number }
{
    Build::new(stamp?, number?)
}

/// What stands before the last `-`, and after it.
fn last_cut(bytes: &[u8]) -> Option<(&[u8], &[u8])>
    ensures { option_map (λ cut. (cut.0.now, cut.1.now)) result ≡ picked.last_cut bytes.now }
{
    let mut end = bytes.len();
    while end > 0 {
        end -= 1;
        if bytes[end] == b'-' {
            return Some((&bytes[..end], &bytes[end + 1..]));
        }
    }
    None
}

/// X and the build that the bytes write as `X-timestamp-number`, where X-SNAPSHOT is a version directory.
pub(crate) fn snapshot_build(alloc: Global, bytes: &[u8]) -> Result<Option<SnapshotBuild>, NoMemory>
    ensures { IfOk result (λ h. h ≡ picked.build_value bytes.now) }
{
    let Some((front, end)) = last_cut(bytes) else {
        return Ok(None);
    };
    let Some((base, stamp)) = last_cut(front) else {
        return Ok(None);
    };
    match build(timestamp(stamp), number(end)) {
        Some(build) => based(alloc, base, build),
        None => Ok(None),
    }
}

/// The build with its base X, where X-SNAPSHOT is a version directory.
fn based(alloc: Global, base: &[u8], build: Build) -> Result<Option<SnapshotBuild>, NoMemory>
    ensures { IfOk result (λ h. h ≡ picked.snapshot_build_of base.now (Some build)) }
{
    match text_of(base) {
        Some(base) if is_base(base) => {
            let base = Text::new(alloc, base)?;
            Ok(Some(SnapshotBuild { base, build }))
        }
        _ => Ok(None),
    }
}
