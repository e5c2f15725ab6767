//! Builds of a snapshot: a timestamp and a number.
ghost use Rattle.std.specs.Prelude.{◌≡◌, ◌≤◌, ◌++◌, ◌∷◌, length, Some, None, if◌then◌else◌, IsTrue, IfSome};
ghost use Rattle.mvn_coords.specs.Civil.{digits};
ghost use Rattle.mvn_coords.specs.FileName.{number_of, is_build_number};
ghost use Rattle.mvn_coords.specs.Layout.{text_of_build, text_of_number};

use crate::Stamp;
use crate::stamp::{are_digits, decimal, digit};
use byte_cuts::bytes::significant;
use std::marker::Model;

/// The build of a unique snapshot: when it was deployed, and its number, from 1 to 999,999,999.
/// A later timestamp is greater, and at one timestamp a greater number.
#[derive(Clone, Copy, Debug, PartialEq, Eq, PartialOrd, Ord)]
pub struct Build {
    stamp: Stamp,
    number: u32,
}

impl Model for Build {
    ghost use Rattle.std.specs.Prelude.{IsTrue};
    ghost use Rattle.mvn_coords.specs.FileName.{BuildOf, is_build_number};

    ghost Value = { BuildOf };

    ghost view = { λ b. record { stamp = b.stamp; number = b.number } };

    ghost invariant = { λ b. IsTrue (is_build_number b.number) };

    ghost inverse = { λ b. record { stamp = b.stamp; number = b.number } };
}

impl Build {
    /// The build with this stamp and number, if the number is from 1 to 999,999,999.
    pub fn new(stamp: Stamp, number: u32) -> Option<Build>
        ensures { result ≡ (if is_build_number number
            then Some (record { stamp = stamp; number = number }) else None) }
    {
        if number == 0 || number > 999_999_999 {
            return None;
        }
        Some(Build { stamp, number })
    }

    /// When the build was deployed.
    pub fn stamp(self) -> Stamp
        ensures { result ≡ self.stamp }
    {
        self.stamp
    }

    /// The build's number, from 1 to 999,999,999.
    pub fn number(self) -> u32
        ensures value { result ≡ self.number }
        ensures range { IsTrue (is_build_number result) }
    {
        self.number
    }

    /// The number's text: decimal digits, the first not `0`.
    pub fn number_text(self) -> NumberText
        ensures { result ≡ text_of_number self.number }
    {
        NumberText {
            digits: nine_digits(self.number),
        }
    }

    /// The build's text, `yyyyMMdd.HHmmss-number`.
    pub fn text(self) -> BuildText
        ensures { result ≡ text_of_build self }
    {
        build_text(&self.stamp.text(), self.number_text().as_bytes())
    }
}

/// The text of a build's number, without leading zeros. Contracts see its bytes.
#[derive(Drop)]
pub struct NumberText {
    digits: [u8; 9],
}

impl Model for NumberText {
    ghost use Rattle.std.specs.Prelude.{List, ℕ};
    ghost use Rattle.byte_cuts.specs.Cuts.{significant};

    ghost Value = { List ℕ };

    ghost view = { λ t. significant t.digits };
}

impl NumberText {
    /// The text's bytes, lent.
    pub fn as_bytes(&self) -> &[u8]
        ensures text { result.now ≡ self.now }
        ensures short { length result.now ≤ 9 }
    {
        significant(&self.digits)
    }
}

/// The text of a build, `yyyyMMdd.HHmmss-number`, at most 25 bytes. Contracts see its bytes.
#[derive(Drop)]
pub struct BuildText {
    bytes: [u8; 25],
    len: usize,
}

impl Model for BuildText {
    ghost use Rattle.std.specs.Prelude.{◌≤◌, List, ℕ, take};

    ghost Value = { List ℕ };

    ghost view = { λ t. take t.len t.bytes };

    ghost invariant = { λ t. t.len ≤ 25 };
}

impl BuildText {
    /// The text's bytes, lent.
    pub fn as_bytes(&self) -> &[u8]
        ensures { result.now ≡ self.now }
    {
        &self.bytes[..self.len]
    }
}

/// A timestamp's text, `-` and a number's text.
fn build_text(stamp: &[u8], number: &[u8]) -> BuildText
    requires stamp { length stamp.now ≡ 15 }
    requires number { length number.now ≤ 9 }
    ensures { result ≡ stamp.now ++ 45 ∷ number.now }
{
    let mut bytes = [b'-'; 25];
    bytes[..15].copy_from_slice(stamp);
    let len = 16 + number.len();
    bytes[16..len].copy_from_slice(number);
    BuildText { bytes, len }
}

/// The nine last decimal digits of a number.
fn nine_digits(number: u32) -> [u8; 9]
    ensures { result ≡ digits 9 number }
{
    let (low, high) = (number, number / 10 / 10 / 10 / 10);
    [
        digit(high / 10 / 10 / 10 / 10),
        digit(high / 10 / 10 / 10),
        digit(high / 10 / 10),
        digit(high / 10),
        digit(high),
        digit(low / 10 / 10 / 10),
        digit(low / 10 / 10),
        digit(low / 10),
        digit(low),
    ]
}

/// The number that a text of 1 to 9 digits writes, the first of them not `0`.
pub fn build_number(text: &str) -> Option<u32>
    ensures value { result ≡ number_of text.now }
    ensures range { IfSome result (λ n. IsTrue (is_build_number n)) }
{
    let digits = text.as_bytes();
    if digits.is_empty() || digits.len() > 9 || !are_digits(digits) || text.starts_with("0") {
        return None;
    }
    Some(decimal(digits))
}
