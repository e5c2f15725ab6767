//! Objects that are repositories.
ghost use Rattle.std.specs.Prelude.{IsTrue};
ghost use Rattle.repo_model.specs.Command.{meets};
ghost use Rattle.turn_seats.specs.Seated.{Sight, IsTurnOf};

use turn_lock::Thing;

/// A sequential object whose turns are those of a repository.
pub trait Repository: Thing {
    // How the object, and what is asked of it and answered, is seen.
    ghost sight: { Sight Self Self.Call Self.Reply };

    // A call that meets its condition may be asked.
    ghost takes: { (object : Self) (call : Self.Call) → IsTrue (meets (sight.settings object) (sight.asked call)) → Self.may_ask (Self.fixed object) call };

    // Each turn is an entry that fits the state in which it is made, and the settings stay.
    ghost is_turn: { (before after : Self) (call : Self.Call) (reply : Self.Reply) → Self.turned before call reply after
        → IsTurnOf sight before call reply after };
}
