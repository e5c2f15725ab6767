//! Timestamps: civil times and their text.
ghost use Rattle.std.specs.Prelude.{◌≡◌, ◌≤◌, ◌+◌, ◌%◌, ◌^◌, ◌<◌, pos, ◌≤ℤ◌, length, slice_range, IsTrue};
ghost use Rattle.mvn_coords.specs.Civil as spec;
ghost use Rattle.mvn_coords.specs.Calendar.{civil_of};

use jiff::Timestamp;
use jiff::civil::DateTime;
use jiff::tz::Offset;
use std::marker::Model;

/// A civil date and time of the years 0000 to 9999, to the second; written `yyyyMMdd.HHmmss`.
/// A later one is greater.
#[derive(Clone, Copy, Debug, PartialEq, Eq, PartialOrd, Ord)]
pub struct Stamp {
    year: u16,
    month: u8,
    day: u8,
    hour: u8,
    minute: u8,
    second: u8,
}

impl Model for Stamp {
    ghost use Rattle.std.specs.Prelude.{IsTrue};
    ghost use Rattle.mvn_coords.specs.Civil.{CivilTime, is_civil};

    ghost Value = { CivilTime };

    ghost view = { λ s. record {
      year = s.year;
      month = s.month;
      day = s.day;
      hour = s.hour;
      minute = s.minute;
      second = s.second;
    } };

    ghost invariant = { λ s. IsTrue (is_civil (record {
      year = s.year;
      month = s.month;
      day = s.day;
      hour = s.hour;
      minute = s.minute;
      second = s.second;
    })) };

    ghost inverse = { λ t. record {
      year = t.year;
      month = t.month;
      day = t.day;
      hour = t.hour;
      minute = t.minute;
      second = t.second;
    } };
}

impl Stamp {
    ghost use Rattle.mvn_coords.specs.Civil.{text_of_time, time_of, if_civil, fields_of, shown};

    /// The greatest moment that `from_moment` takes, in seconds since 1970-01-01T00:00:00Z.
    pub const LAST_MOMENT: u64 = 253_402_207_200;

    /// Reads `yyyyMMdd.HHmmss`: a day of the Gregorian calendar (ISO 8601) and a time of day.
    pub fn parse(text: &str) -> Option<Stamp>
        ensures { result ≡ time_of text.now }
    {
        let bytes = text.as_bytes();
        if bytes.len() != 15 || bytes[8] != b'.' {
            return None;
        }
        let (date, time) = (&bytes[..8], &bytes[9..]);
        if !are_digits(date) || !are_digits(time) {
            return None;
        }
        Stamp::from_digits(date, time)
    }

    /// The stamp that the eight digits of a date and the six of a time write.
    fn from_digits(date: &[u8], time: &[u8]) -> Option<Stamp>
        requires date_length { length date.now ≡ 8 }
        requires time_length { length time.now ≡ 6 }
        requires date { IsTrue (spec.are_digits date.now) }
        requires time { IsTrue (spec.are_digits time.now) }
        ensures { result ≡ if_civil (fields_of date.now time.now) }
    {
        let civil = DateTime::new(
            four_digits(date),
            two_digits(date, 4),
            two_digits(date, 6),
            two_digits(time, 0),
            two_digits(time, 2),
            two_digits(time, 4),
            0,
        );
        match civil {
            Ok(civil) => Some(Stamp::from_civil(civil)),
            Err(_) => None,
        }
    }

    fn from_civil(civil: DateTime) -> Stamp
        requires { pos 0 ≤ℤ civil.date.year }
        ensures { result ≡ shown civil }
    {
        Stamp {
            year: civil.year() as u16,
            month: civil.month() as u8,
            day: civil.day() as u8,
            hour: civil.hour() as u8,
            minute: civil.minute() as u8,
            second: civil.second() as u8,
        }
    }

    /// The stamp's text, `yyyyMMdd.HHmmss`.
    pub fn text(&self) -> [u8; 15]
        ensures text { result ≡ text_of_time self.now }
        ensures civil { IsTrue (spec.is_civil self.now) }
    {
        let year = u32::from(self.year);
        let (month, day) = (u32::from(self.month), u32::from(self.day));
        let (hour, minute) = (u32::from(self.hour), u32::from(self.minute));
        let second = u32::from(self.second);
        [
            digit(year / 10 / 10 / 10),
            digit(year / 10 / 10),
            digit(year / 10),
            digit(year),
            digit(month / 10),
            digit(month),
            digit(day / 10),
            digit(day),
            b'.',
            digit(hour / 10),
            digit(hour),
            digit(minute / 10),
            digit(minute),
            digit(second / 10),
            digit(second),
        ]
    }

    /// The civil time in UTC of a moment, in seconds since 1970-01-01T00:00:00Z, at most `LAST_MOMENT`.
    pub fn from_moment(moment: u64) -> Stamp
        requires { moment ≤ Self.LAST_MOMENT }
        ensures { result ≡ civil_of moment }
    {
        match Timestamp::from_second(moment as i64) {
            Ok(instant) => Stamp::from_civil(Offset::UTC.to_datetime(instant)),
            Err(_) => unreachable!(),
        }
    }
}

/// The last decimal digit of a number, in ASCII.
pub(crate) fn digit(number: u32) -> u8
    ensures { result ≡ 48 + number % 10 }
{
    b'0' + (number % 10) as u8
}

/// Whether each byte is a decimal digit.
pub(crate) fn are_digits(bytes: &[u8]) -> bool
    ensures { result ≡ spec.are_digits bytes.now }
{
    bytes.iter().all(|b| b.is_ascii_digit())
}

/// The number that up to nine digits write.
pub(crate) fn decimal(digits: &[u8]) -> u32
    requires digits { IsTrue (spec.are_digits digits.now) }
    requires short { length digits.now ≤ 9 }
    ensures value { result ≡ spec.decimal digits.now }
    ensures bound { result < 10 ^ length digits.now }
{
    let mut number = 0;
    for digit in digits {
        number = number * 10 + u32::from(*digit - b'0');
    }
    number
}

/// The number that the first four digits write.
fn four_digits(digits: &[u8]) -> i16
    requires digits { IsTrue (spec.are_digits digits.now) }
    requires four { 4 ≤ length digits.now }
    ensures { result ≡ pos (spec.decimal (slice_range digits.now 0 4)) }
{
    decimal(&digits[0..4]) as i16
}

/// The number that two digits write, the first of them `at` this index.
fn two_digits(digits: &[u8], at: usize) -> i8
    requires digits { IsTrue (spec.are_digits digits.now) }
    requires two { at + 2 ≤ length digits.now }
    ensures { result ≡ pos (spec.decimal (slice_range digits.now at (at + 2))) }
{
    decimal(&digits[at..at + 2]) as i8
}
