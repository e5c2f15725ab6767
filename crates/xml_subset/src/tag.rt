//! Tags with attributes.

ghost use Rattle.std.specs.Prelude.{◌≡◌, ◌≤◌, length, ◌∷◌, ◌||◌, ◌==◌, []};
ghost use Rattle.std.specs.Option.{option_copied, option_map};
ghost use Rattle.std.specs.List.{position_or_len};
ghost use Rattle.xml_subset.specs.Tag as spec;

use crate::cut::{begins_white, name, without_white};
use byte_cuts::bytes::behind;

/// How many bytes stand before the first quote or `<`.
fn value_len(quote: u8, text: &[u8]) -> usize
    ensures value { result ≡ position_or_len (λ c. c == quote || c == 60) text.now }
    ensures bound { result ≤ length text.now }
{
    text.iter()
        .take_while(|c| !(**c == quote || **c == b'<'))
        .count()
}

/// What follows the value, up to this quote.
fn value_end(quote: u8, text: &[u8]) -> Option<&[u8]>
    ensures { option_copied result ≡ spec.value_end quote text.now }
{
    behind(&[quote], &text[value_len(quote, text)..])
}

/// What follows a value in quotes.
fn value(text: &[u8]) -> Option<&[u8]>
    ensures { option_copied result ≡ spec.value text.now }
{
    match text {
        [b'"', rest @ ..] => value_end(b'"', rest),
        [b'\'', rest @ ..] => value_end(b'\'', rest),
        _ => None,
    }
}

/// What follows an attribute.
fn attribute(text: &[u8]) -> Option<&[u8]>
    ensures { option_copied result ≡ spec.attribute text.now }
{
    let (_, rest) = name(text)?;
    let rest = behind(b"=", without_white(rest))?;
    value(without_white(rest))
}

/// The end of a tag, and whether it is an empty one.
fn tag_end(text: &[u8]) -> Option<(bool, &[u8])>
    ensures { option_map (λ cut. (cut.0, cut.1.now)) result ≡ spec.tag_end text.now }
{
    match text {
        [b'>', rest @ ..] => Some((false, rest)),
        [b'/', b'>', rest @ ..] => Some((true, rest)),
        _ => None,
    }
}

/// The attributes and the end of a tag, and whether it is an empty one.
pub(crate) fn tag_rest(mut text: &[u8]) -> Option<(bool, &[u8])>
    ensures { option_map (λ cut. (cut.0, cut.1.now)) result ≡ spec.tag_rest (length text.entry.now) text.entry.now }
{
    'attributes: loop {
        let more = without_white(text);
        if let Some(end) = tag_end(more) {
            return Some(end);
        }
        if !begins_white(text) {
            return None;
        }
        text = attribute(more)?;
    }
}
