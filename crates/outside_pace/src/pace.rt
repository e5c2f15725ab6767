ghost use Rattle.std.specs.Prelude.{◌≡◌, Option, None, IfSome};
ghost use Rattle.std.specs.Option.{option_map};
ghost use Rattle.outside_pace.specs.Pauses.{Pauses, first_answer, paused};

/// A timer that tells the cleaner when to make its next pass. It doesn't fail.
pub trait Pace {
    // The answers that it will give, and the pauses that it has kept.
    ghost pauses: { Self → Option Pauses } = { λ _. None };

    /// Waits for so many seconds. `false` says that no pass is wanted any more; the pause may then have been shorter.
    fn pause(&mut self, seconds: u64) -> bool
        ensures given { IfSome (pauses self.old) (λ p. result ≡ first_answer p.left) }
        ensures left { pauses self.new ≡ option_map (paused seconds) (pauses self.old) };
}
