//! Side files: the text that is written beside a file, and the digest that such a text says.
ghost use Rattle.std.specs.Prelude.{◌≡◌, ◌≤◌, IfSome, filter, find, length, not};
ghost use Rattle.std.specs.List.{last_or, list_all};
ghost use Rattle.std.specs.Option.{option_copied, option_map};
ghost use Rattle.mvn_digest.specs.Hex.{hex_text};
ghost use Rattle.mvn_digest.specs.Sides as spec;
ghost use Rattle.mvn_digest.specs.Sides.{bytes_in, side_in};

use crate::digests::{Digest, Digests, SHA512_DIGITS};
use hex::FromHex;
use mvn_coords::Side;
use std::marker::Model;

/// The text of a side file: a digest in lower case hexadecimal, 40 digits of SHA-1, 32 of MD5, 64 of SHA-256 or 128 of
/// SHA-512, without a line end.
///
/// Contracts see the text's bytes.
#[derive(Drop)]
pub struct SideText {
    digits: [u8; SHA512_DIGITS],
    len: usize,
}

impl Model for SideText {
    ghost use Rattle.std.specs.Prelude.{◌≤◌, List, ℕ, take};

    ghost Value = { List ℕ };

    ghost view = { λ t. take t.len t.digits };

    ghost invariant = { λ t. t.len ≤ 128 };
}

impl SideText {
    /// The text's bytes, lent.
    pub fn as_bytes(&self) -> &[u8]
        ensures { result.now ≡ self.now }
    {
        &self.digits[..self.len]
    }
}

// The text of a digest of at most 64 bytes.
fn text_of(digest: &[u8]) -> SideText
    requires { length digest.now ≤ 64 }
    ensures { result ≡ hex_text digest.now }
{
    let mut digits = [0; SHA512_DIGITS];
    let len = 2 * digest.len();
    let _ = hex::encode_to_slice(digest, &mut digits[..len]);
    SideText { digits, len }
}

/// The text that the side file of these digests has.
pub fn side_text(digests: &Digests, side: Side) -> SideText
    ensures { result ≡ spec.side_text side digests.now }
{
    text_of(digests.of(side).bytes())
}

/// The digest that the text of a side file says: hexadecimal digits of either case, 40 of SHA-1, 32 of MD5, 64 of SHA-256
/// or 128 of SHA-512, as the first word of the first line that is not blank, or as its last word where the line has ` = ` (as in
/// `MD5 (lib.jar) = ..`). Lines end at LF, words at blank, tab and CR. `None` where no digest of the side stands there.
pub fn read_side(text: &[u8], side: Side) -> Option<Digest>
    ensures digest { option_map bytes_in result ≡ spec.read_side side text.now }
    ensures side { IfSome result (λ d. side_in d ≡ side) }
{
    digest_in(digest_word(first_line(text)?)?, side)
}

fn is_blank(b: u8) -> bool
    ensures { result ≡ spec.is_blank b }
{
    matches!(b, b' ' | b'\t' | b'\r')
}

fn is_blank_line(line: &[u8]) -> bool
    ensures { result ≡ spec.is_blank_line line.now }
{
    line.iter().all(|b| is_blank(*b))
}

/// The first line that has more than blanks.
fn first_line(text: &[u8]) -> Option<&[u8]>
    ensures { option_copied result ≡ spec.first_line text.now }
{
    text.split(|b| *b == b'\n')
        .find(|line| !is_blank_line(line))
}

fn first_word(line: &[u8]) -> Option<&[u8]>
    ensures { option_copied result ≡ spec.first_word line.now }
{
    line.split(|b| is_blank(*b)).find(|word| !word.is_empty())
}

fn last_word(line: &[u8]) -> Option<&[u8]>
    ensures { option_copied result ≡ spec.last_word line.now }
{
    line.split(|b| is_blank(*b))
        .filter(|word| !word.is_empty())
        .last()
}

/// Whether ` = ` stands in a line.
fn has_sign(mut line: &[u8]) -> bool
    ensures { result ≡ spec.has_sign line.entry.now }
{
    while let [_, rest @ ..] = line {
        if line.starts_with(b" = ") {
            return true;
        }
        line = rest;
    }
    false
}

/// The word of a line that is to be the digest.
fn digest_word(line: &[u8]) -> Option<&[u8]>
    ensures { option_copied result ≡ spec.digest_word line.now }
{
    if has_sign(line) {
        last_word(line)
    } else {
        first_word(line)
    }
}

/// The digest that a word writes.
fn digest_in(word: &[u8], side: Side) -> Option<Digest>
    ensures digest { option_map bytes_in result ≡ spec.digest_in side word.now }
    ensures side { IfSome result (λ d. side_in d ≡ side) }
{
    match side {
        Side::Sha1 => Some(Digest::Sha1(<[u8; 20] as FromHex>::from_hex(word).ok()?)),
        Side::Md5 => Some(Digest::Md5(<[u8; 16] as FromHex>::from_hex(word).ok()?)),
        Side::Sha256 => Some(Digest::Sha256(<[u8; 32] as FromHex>::from_hex(word).ok()?)),
        Side::Sha512 => Some(Digest::Sha512(<[u8; 64] as FromHex>::from_hex(word).ok()?)),
    }
}
