//! Which texts are patterns.
ghost use Rattle.std.specs.Prelude.{◌≡◌};
ghost use Rattle.std.specs.List.{list_all};
ghost use Rattle.path_patterns.specs.Pattern as spec;

use crate::segments::{is_run, split_segment};
use mvn_coords::is_path_byte;

/// Whether a text is a pattern: 1 to 256 bytes, segments of at least one byte between single slashes, each byte one of
/// `A-Z a-z 0-9 . _ + -` or `*`, and `**` nowhere but as a whole segment.
pub fn is_pattern(text: &str) -> bool
    ensures { result ≡ spec.is_pattern text.now }
{
    !text.is_empty() && text.len() <= 256 && are_pattern_segments(text.as_bytes())
}

fn are_pattern_segments(text: &[u8]) -> bool
    ensures { result ≡ spec.are_pattern_segments text.now }
{
    let mut left = Some(text);
    'segments: while let Some(parts) = left {
        let (segment, rest) = split_segment(parts);
        if !is_pattern_segment(segment) {
            return false;
        }
        left = rest;
    }
    true
}

fn is_pattern_segment(segment: &[u8]) -> bool
    ensures { result ≡ spec.is_pattern_segment segment.now }
{
    if segment.is_empty() || !are_pattern_bytes(segment) {
        return false;
    }
    is_run(segment) || !has_two_stars(segment)
}

fn are_pattern_bytes(segment: &[u8]) -> bool
    ensures { result ≡ list_all spec.is_pattern_byte segment.now }
{
    segment.iter().all(|byte| is_pattern_byte(*byte))
}

fn is_pattern_byte(byte: u8) -> bool
    ensures { result ≡ spec.is_pattern_byte byte }
{
    is_path_byte(byte) || byte == b'*'
}

fn has_two_stars(segment: &[u8]) -> bool
    ensures { result ≡ spec.has_two_stars segment.now }
{
    let mut rest = segment;
    'places: while let Some((_, behind)) = rest.split_first() {
        if rest.starts_with(b"**") {
            return true;
        }
        rest = behind;
    }
    false
}
