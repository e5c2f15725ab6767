//! What the fields of a head say (RFC 9110, section 5).
ghost use Rattle.std.specs.Prelude.{◌≡◌, ◌++◌, ◌∷◌, [], codes, count_by, find, reverse, if◌then◌else◌, Some, None};
ghost use Rattle.std.specs.Option.{option_map};
ghost use Rattle.httparse.specs.Grammar.{skip_ows, trim_ows};
ghost use Rattle.http_wire.specs.Fields.{asks_close, body_length, has_close, is_close, is_length, is_named, number_of};
ghost use Rattle.http_wire.specs.FieldSteps.{joined};

use crate::requests::{BodyLength, Field};
use httparse::is_space_or_tab;

/// The most digits of a length.
const LENGTH_DIGITS: usize = 18;

fn is_named(field: &Field, name: &[u8]) -> bool
    ensures { result ≡ is_named name.now field.now }
{
    field.name.as_slice().eq_ignore_ascii_case(name)
}

/// How many fields have the name. The case of letters does not count (RFC 9110, section 5.1).
pub fn count(fields: &[Field], name: &[u8]) -> usize
    ensures { result ≡ count_by (is_named name.now) fields.now }
{
    fields.iter().filter(|f| is_named(f, name)).count()
}

pub(crate) fn first<'a>(fields: &'a [Field], name: &[u8]) -> Option<&'a [u8]>
    ensures { option_map (λ v. v.now) result
        ≡ option_map (λ f. f.value) (find (is_named name.now) fields.now) }
{
    fields
        .iter()
        .find(|f| is_named(f, name))
        .map(|f| f.value.as_slice())
}

/// The bytes from the first that is no space or tab.
fn trimmed_front(mut bytes: &[u8]) -> &[u8]
    ensures { result.now ≡ skip_ows bytes.now }
{
    while let [first, rest @ ..] = bytes
        && is_space_or_tab(*first)
    {
        bytes = rest;
    }
    bytes
}

/// The bytes up to the last that is no space or tab.
fn trimmed_back(mut bytes: &[u8]) -> &[u8]
    ensures { result.now ≡ reverse (skip_ows (reverse bytes.now)) }
{
    while let [rest @ .., last] = bytes
        && is_space_or_tab(*last)
    {
        bytes = rest;
    }
    bytes
}

/// The bytes without the spaces and tabs at their ends (RFC 9110, section 5.6.3).
pub fn trimmed(bytes: &[u8]) -> &[u8]
    ensures { result.now ≡ trim_ows bytes.now }
{
    trimmed_back(trimmed_front(bytes))
}

/// Whether the member of a list is `close`, blanks at its ends left out.
fn is_close(member: &[u8]) -> bool
    ensures { result ≡ is_close member.now }
{
    trimmed(member).eq_ignore_ascii_case(b"close")
}

fn has_close(value: &[u8]) -> bool
    ensures { result ≡ has_close value.now }
{
    value.split(|b| *b == b',').any(|member| is_close(member))
}

/// Whether an option of a `Connection` field is `close`, in either case (RFC 9110, section 7.6.1).
pub fn asks_close(fields: &[Field]) -> bool
    ensures { result ≡ asks_close fields.now }
{
    fields.iter().any(|f| is_named(f, b"Connection") && has_close(f.value.as_slice()))
}

/// The number, where the value is 1 to 18 digits.
fn length_in(value: &[u8]) -> Option<u64>
    ensures { result ≡ (if is_length value.now then Some (number_of value.now) else None) }
{
    if value.is_empty() || value.len() > LENGTH_DIGITS {
        return None;
    }
    let mut number: u64 = 0;
    for b in value {
        if !b.is_ascii_digit() {
            return None;
        }
        number = number * 10 + u64::from(*b - b'0');
    }
    Some(number)
}

/// What the values so far say, and one more.
fn joined(said: BodyLength, value: &[u8]) -> BodyLength
    ensures { result ≡ joined said value.now }
{
    match (said, length_in(value)) {
        (BodyLength::Missing, Some(number)) => BodyLength::Known(number),
        (BodyLength::Known(number), Some(other)) if other == number => said,
        _ => BodyLength::Wrong,
    }
}

/// The length of the body by the `Content-Length` fields (RFC 9110, section 8.6): each has 1 to 18 digits, and all have
/// the same number.
pub fn body_length(fields: &[Field]) -> BodyLength
    ensures { result ≡ body_length fields.now }
{
    let mut said = BodyLength::Missing;
    for f in fields {
        if is_named(f, b"Content-Length") {
            said = joined(said, f.value.as_slice());
        }
    }
    said
}
