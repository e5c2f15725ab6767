//! The moment of a turn.
ghost use Rattle.std.specs.Prelude.{◌≡◌, ◌≤◌, max, min, IfSome};
ghost use Rattle.std.specs.Option.{option_map};
ghost use Rattle.outside.specs.Moments.{moments_after};
ghost use Rattle.repo_model.specs.History.{latest_moment};

use mvn_coords::Stamp;
use outside::Clock;

/// The moment of a turn: what the clock gives, but no moment before the last turn's, and none after
/// `Stamp::LAST_MOMENT`. Reads the clock once.
pub fn next_moment<C: Clock>(clock: &mut C, last: u64) -> u64
    requires { last ≤ latest_moment }
    ensures given { IfSome (C.moments clock.old) (λ moments. result ≡ max last (min latest_moment moments.next)) }
    ensures order { last ≤ result }
    ensures limit { result ≤ latest_moment }
    ensures clock { C.moments clock.new ≡ option_map moments_after (C.moments clock.old) }
{
    clock.now().min(Stamp::LAST_MOMENT).max(last)
}
