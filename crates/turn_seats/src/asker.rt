//! A seat at the turns of a repository, as one who takes commands.
ghost use Rattle.std.specs.Prelude.{◌≡◌};

use crate::repository::Repository;
use repo_model::Ask;
use std::sync::Wait;
use turn_lock::{Seat, Thing, Turns};

/// A seat with its turns. It waits for its turn, and then asks the object once.
#[derive(Drop)]
pub struct Asker<'a, T: Thing, W: Wait> {
    pub rt: &'a W,
    pub turns: &'a Turns<T>,
    pub seat: Seat<T>,
}

impl<T: Repository, W: Wait> Ask for Asker<'_, T, W> {
    ghost use Rattle.std.specs.Prelude.{◌≡◌};
    ghost use Rattle.turn_lock.specs.History.{IsStep, end_of};
    ghost use Rattle.turn_lock.specs.Seats.{opening, IsSeatOf, seen};
    ghost use Rattle.turn_seats.specs.Seated.{SeatTurn};
    ghost use Rattle.turn_seats.specs.Histories.{seat_due};

    type Call = T::Call;

    type Given = T::Reply;

    ghost asked = { T.sight.asked };

    ghost answered = { T.sight.answered };

    ghost settings = { λ asker. T.sight.settings (opening asker.turns.now) };

    ghost state = { λ asker. T.sight.state (end_of (opening asker.turns.now) (seen asker.seat)) };

    ghost ready = { λ asker. IsSeatOf (IsStep T.fixed T.may_ask T.turned) asker.turns.now asker.seat };

    ghost asks = { λ old entry new. SeatTurn T.sight (IsStep T.fixed T.may_ask T.turned) old.turns.now old.seat entry new.seat × (new.turns.now ≡ old.turns.now) };

    ghost due = { λ old entry new turn. seat_due T.sight (IsStep T.fixed T.may_ask T.turned) (λ before after call reply step. T.is_turn before after call reply step.1) old.turns.now new.turns.now old.seat entry new.seat turn.0 turn.1 };

    fn ask(&mut self, call: T::Call) -> T::Reply {
        self.seat.call(self.rt, self.turns, call)
    }
}
