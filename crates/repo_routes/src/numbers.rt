//! The number of a session in a path.
ghost use Rattle.std.specs.Prelude.{◌≡◌, if◌then◌else◌, Some, None};
ghost use Rattle.std.specs.Str.Parse.{digits_value};
ghost use Rattle.repo_routes.specs.Numbers as spec;

use crate::refusal::Refusal;
use repo_model::NUMBER_END;

/// The most digits of a number below 2^63.
const NUMBER_DIGITS: usize = 19;

/// The number that digits without a leading zero write, at most 19 of them.
fn numeral(text: &[u8]) -> Option<u64>
    ensures { result ≡ (if spec.is_numeral text.now then Some (digits_value 10 text.now) else None) }
{
    if text.is_empty() || text.len() > NUMBER_DIGITS || text.starts_with(b"0") {
        return None;
    }
    let mut number: u64 = 0;
    for b in text {
        if !b.is_ascii_digit() {
            return None;
        }
        number = number * 10 + u64::from(*b - b'0');
    }
    Some(number)
}

/// The number, from 1 to 2^63 - 1.
#[tactic(auto, unfolding(crate::specs::Numbers::number_in))]
fn number_in(text: &str) -> Option<u64>
    ensures { result ≡ spec.number_in text.now }
{
    let number = numeral(text.as_bytes())?;
    if number < NUMBER_END {
        Some(number)
    } else {
        None
    }
}

/// The session that a number names, open or not.
#[tactic(auto, unfolding(crate::specs::Numbers::session_of))]
pub(crate) fn session_of(number: &str) -> Result<u64, Refusal>
    ensures { result ≡ spec.session_of number.now }
{
    number_in(number).ok_or(Refusal::NoSession)
}
