//! Cuts at the front of a text. Each gives what follows; `None` says that the text does not begin so.

ghost use Rattle.std.specs.Prelude.{◌≡◌, Some, None, ◌≤◌, length, take_while, drop, reverse};
ghost use Rattle.std.specs.Option.{option_map, option_copied};
ghost use Rattle.std.specs.List.{list_all, prefix_len};
ghost use Rattle.xml_subset.specs.Cut as spec;
ghost use Rattle.xml_subset.specs.Name as spec_name;

use byte_cuts::bytes::behind;

fn is_white(byte: u8) -> bool
    ensures { result ≡ spec.is_white byte }
{
    matches!(byte, b' ' | b'\t' | b'\r' | b'\n')
}

/// Whether the text begins with white space.
pub(crate) fn begins_white(text: &[u8]) -> bool
    ensures { result ≡ spec.begins spec.is_white text.now }
{
    match text {
        [first, ..] => is_white(*first),
        [] => false,
    }
}

/// Whether the text is white space alone.
pub(crate) fn is_all_white(text: &[u8]) -> bool
    ensures { result ≡ list_all spec.is_white text.now }
{
    text.iter().all(|c| is_white(*c))
}

/// The text without the white space at its front.
pub(crate) fn without_white(mut text: &[u8]) -> &[u8]
    ensures { result.now ≡ spec.without_white text.entry.now }
{
    while let [first, rest @ ..] = text
        && is_white(*first)
    {
        text = rest;
    }
    text
}

/// The text without the white space at its end.
fn without_white_end(mut text: &[u8]) -> &[u8]
    ensures { result.now ≡ reverse (spec.without_white (reverse text.entry.now)) }
{
    while let [rest @ .., last] = text
        && is_white(*last)
    {
        text = rest;
    }
    text
}

/// The text without the white space at both ends.
pub(crate) fn trimmed(text: &[u8]) -> &[u8]
    ensures { result.now ≡ spec.trimmed text.now }
{
    without_white_end(without_white(text))
}

/// What follows the first place of a mark.
pub(crate) fn after<'a>(mark: &[u8], mut text: &'a [u8]) -> Option<&'a [u8]>
    ensures { option_copied result ≡ spec.after mark.now text.entry.now }
{
    while let [_, rest @ ..] = text {
        if let Some(found) = behind(mark, text) {
            return Some(found);
        }
        text = rest;
    }
    None
}

fn is_name_start(byte: u8) -> bool
    ensures { result ≡ spec_name.is_name_start byte }
{
    byte.is_ascii_alphabetic() || matches!(byte, b'_' | b':') || byte >= 0x80
}

fn is_name_byte(byte: u8) -> bool
    ensures { result ≡ spec_name.is_name_byte byte }
{
    is_name_start(byte) || byte.is_ascii_digit() || matches!(byte, b'.' | b'-')
}

fn name_len(text: &[u8]) -> usize
    ensures value { result ≡ prefix_len spec_name.is_name_byte text.now }
    ensures bound { result ≤ length text.now }
{
    text.iter().take_while(|b| is_name_byte(**b)).count()
}

/// The longest name at the front.
pub(crate) fn name(text: &[u8]) -> Option<(&[u8], &[u8])>
    ensures { option_map (λ cut. (cut.0.now, cut.1.now)) result ≡ spec_name.name text.now }
{
    let first = text.first()?;
    if !is_name_start(*first) {
        return None;
    }
    Some(text.split_at(name_len(text)))
}
