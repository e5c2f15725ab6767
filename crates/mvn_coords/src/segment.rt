//! Which segments may stand in a path, and where.
ghost use Rattle.std.specs.Prelude.{◌≡◌};
ghost use Rattle.std.specs.List.{list_all};
ghost use Rattle.mvn_coords.specs.Segment as spec;

use byte_cuts::text::is;

fn is_group_byte(b: u8) -> bool
    ensures { result ≡ spec.is_group_byte b }
{
    b.is_ascii_alphanumeric() || b == b'_' || b == b'-'
}

fn is_artifact_byte(b: u8) -> bool
    ensures { result ≡ spec.is_artifact_byte b }
{
    is_group_byte(b) || b == b'.'
}

/// Whether a byte may stand in a segment of a path: one of `A-Z a-z 0-9 . _ + -`.
pub fn is_path_byte(b: u8) -> bool
    ensures { result ≡ spec.is_path_byte b }
{
    is_artifact_byte(b) || b == b'+'
}

/// Whether a text may stand between two slashes of a path: 1 to 255 bytes of
/// `A-Z a-z 0-9 . _ + -`, and neither `.` nor `..`.
pub fn is_segment(text: &str) -> bool
    ensures { result ≡ spec.is_segment text.now }
{
    if text.is_empty() || text.len() > 255 || is(text, ".") || is(text, "..") {
        return false;
    }
    are_path_bytes(text)
}

/// Whether each byte may stand in a segment of a path.
pub fn are_path_bytes(text: &str) -> bool
    ensures { result ≡ list_all spec.is_path_byte text.now }
{
    text.bytes().all(is_path_byte)
}

/// Whether each byte may stand in a segment of a group.
pub(crate) fn are_group_bytes(text: &str) -> bool
    ensures { result ≡ spec.are_group_bytes text.now }
{
    text.bytes().all(is_group_byte)
}

/// Whether each byte may stand in an artifact.
pub(crate) fn are_artifact_bytes(text: &str) -> bool
    ensures { result ≡ spec.are_artifact_bytes text.now }
{
    text.bytes().all(is_artifact_byte)
}

/// Whether a segment may be a version directory.
pub(crate) fn fits_version(segment: &str) -> bool
    ensures { result ≡ spec.fits_version segment.now }
{
    segment.len() <= 128 && !is(segment, "SNAPSHOT") && !is(segment, "-SNAPSHOT")
}

/// Whether a text is a segment of a group: 1 to 255 letters, digits, `_` and `-`.
pub fn is_group_segment(text: &str) -> bool
    ensures { result ≡ spec.is_group_segment text.now }
{
    is_segment(text) && are_group_bytes(text)
}

/// Whether a text is an artifact: a segment of letters, digits, `_`, `-` and `.`.
pub fn is_artifact(text: &str) -> bool
    ensures { result ≡ spec.is_artifact text.now }
{
    is_segment(text) && are_artifact_bytes(text)
}

/// Whether a text is a version directory: a segment of at most 128 bytes, and neither `SNAPSHOT` nor `-SNAPSHOT`.
pub fn is_version_directory(text: &str) -> bool
    ensures { result ≡ spec.is_version_directory text.now }
{
    is_segment(text) && fits_version(text)
}
