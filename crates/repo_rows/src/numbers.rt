//! Fields that are numbers.
ghost use Rattle.std.specs.Prelude.{◌≡◌};
ghost use Rattle.std.specs.Int.{w16, w32, w64};
ghost use Rattle.repo_rows.specs.Given.{Gives};
ghost use Rattle.row_tables.specs.Reading.{number_at, moment_at, count_at, serial_at};

use crate::faults::ReadFault;

/// A field and the bytes after it.
pub type Read<'a, T> = Result<(T, &'a [u8]), ReadFault>;

#[tactic(auto, unfolding(row_tables::specs::Reading::number_at))]
pub fn read_u16(bytes: &[u8]) -> Read<'_, u16>
    ensures { Gives (λ x. (x.0, x.1.now)) result (number_at w16 bytes.now) }
{
    if bytes.len() < 2 {
        return Err(ReadFault::Refused(bytes.len()));
    }
    let (front, rest) = bytes.split_at(2);
    Ok((u16::from_be_bytes([front[0], front[1]]), rest))
}

#[tactic(auto, unfolding(row_tables::specs::Reading::number_at))]
pub fn read_u32(bytes: &[u8]) -> Read<'_, u32>
    ensures { Gives (λ x. (x.0, x.1.now)) result (number_at w32 bytes.now) }
{
    if bytes.len() < 4 {
        return Err(ReadFault::Refused(bytes.len()));
    }
    let (front, rest) = bytes.split_at(4);
    let number = u32::from_be_bytes([front[0], front[1], front[2], front[3]]);
    Ok((number, rest))
}

#[tactic(auto, unfolding(row_tables::specs::Reading::number_at))]
pub fn read_u64(bytes: &[u8]) -> Read<'_, u64>
    ensures { Gives (λ x. (x.0, x.1.now)) result (number_at w64 bytes.now) }
{
    if bytes.len() < 8 {
        return Err(ReadFault::Refused(bytes.len()));
    }
    let (front, rest) = bytes.split_at(8);
    let number = u64::from_be_bytes([
        front[0], front[1], front[2], front[3], front[4], front[5], front[6], front[7],
    ]);
    Ok((number, rest))
}

/// Seconds since 1970, up to the end of the year 9999.
#[tactic(auto, unfolding(row_tables::specs::Reading::moment_at))]
pub fn read_moment(bytes: &[u8]) -> Read<'_, u64>
    ensures { Gives (λ x. (x.0, x.1.now)) result (moment_at bytes.now) }
{
    let (number, rest) = read_u64(bytes)?;
    if number > 253_402_207_200 {
        return Err(ReadFault::Refused(bytes.len()));
    }
    Ok((number, rest))
}

/// A length or a count, up to 2^63 - 1.
#[tactic(auto, unfolding(row_tables::specs::Reading::count_at))]
pub fn read_count(bytes: &[u8]) -> Read<'_, u64>
    ensures { Gives (λ x. (x.0, x.1.now)) result (count_at bytes.now) }
{
    let (number, rest) = read_u64(bytes)?;
    if number > 9_223_372_036_854_775_807 {
        return Err(ReadFault::Refused(bytes.len()));
    }
    Ok((number, rest))
}

/// The number of a blob or a session, from 1 to 2^63 - 1.
#[tactic(auto, unfolding(row_tables::specs::Reading::serial_at))]
pub fn read_serial(bytes: &[u8]) -> Read<'_, u64>
    ensures { Gives (λ x. (x.0, x.1.now)) result (serial_at bytes.now) }
{
    let (number, rest) = read_u64(bytes)?;
    if number == 0 || number > 9_223_372_036_854_775_807 {
        return Err(ReadFault::Refused(bytes.len()));
    }
    Ok((number, rest))
}
