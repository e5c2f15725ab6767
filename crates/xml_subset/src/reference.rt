//! References to characters.

ghost use Rattle.std.specs.Prelude.{◌≡◌, ◌==◌, ◌≤◌, length};
ghost use Rattle.std.specs.Option.{option_map};
ghost use Rattle.std.specs.List.{position_or_len};
ghost use Rattle.xml_subset.specs.Reference as spec;

use byte_cuts::bytes::behind;

/// The most digits of a number.
const DIGITS: usize = 8;

/// The number that 1 to 8 digits give.
fn number(radix: u32, digits: &[u8]) -> Option<u32>
    requires at_least { 2 ≤ radix }
    requires at_most { radix ≤ 16 }
    ensures { result ≡ spec.number radix digits.now }
{
    if digits.is_empty() || digits.len() > DIGITS {
        return None;
    }
    let mut number: u64 = 0;
    for c in digits {
        let digit = char::from(*c).to_digit(radix)?;
        number = number * u64::from(radix) + u64::from(digit);
    }
    Some(number as u32)
}

/// The character of a number.
fn character(number: u32) -> Option<char>
    ensures { result ≡ spec.character number }
{
    if number == 0 {
        return None;
    }
    char::from_u32(number)
}

/// A character by its number.
fn numbered(inner: &[u8]) -> Option<char>
    ensures { result ≡ spec.numbered inner.now }
{
    let number = match behind(b"#x", inner) {
        Some(digits) => number(16, digits)?,
        None => number(10, behind(b"#", inner)?)?,
    };
    character(number)
}

/// A predefined character.
fn predefined(inner: &[u8]) -> Option<char>
    ensures { result ≡ spec.predefined inner.now }
{
    match inner {
        b"lt" => Some('<'),
        b"gt" => Some('>'),
        b"amp" => Some('&'),
        b"quot" => Some('"'),
        b"apos" => Some('\''),
        _ => None,
    }
}

/// How many bytes stand before the first `;`.
fn inner_len(text: &[u8]) -> usize
    ensures value { result ≡ position_or_len (λ c. c == 59) text.now }
    ensures bound { result ≤ length text.now }
{
    text.iter().take_while(|c| **c != b';').count()
}

/// The character whose reference the text goes on with, after a `&`.
pub(crate) fn reference(text: &[u8]) -> Option<(char, &[u8])>
    ensures { option_map (λ cut. (cut.0, cut.1.now)) result ≡ spec.reference text.now }
{
    let (inner, rest) = text.split_at(inner_len(text));
    let rest = behind(b";", rest)?;
    let found = match predefined(inner) {
        Some(found) => found,
        None => numbered(inner)?,
    };
    Some((found, rest))
}
