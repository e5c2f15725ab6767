//! The numbers of the requests.
ghost use Rattle.std.specs.Prelude.{◌≡◌, ◌<◌};
ghost use Rattle.demo_requests.specs.Numbers.{next};

/// The numbers are those below this one.
pub const NUMBERS: u64 = 65_537;

/// The number after this one.
pub fn next_number(number: u64) -> u64
    requires { number < NUMBERS }
    ensures next { result ≡ next number }
    ensures range { result < NUMBERS }
{
    (75 * number + 74) % NUMBERS
}
