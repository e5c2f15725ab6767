//! The cleaner makes a pass over the repositories from time to time, with a seat of its own.
ghost use Rattle.std.specs.Prelude.{◌≡◌};
ghost use Rattle.seat_server.specs.Passages.{KeptClean};
ghost use Rattle.seat_server.specs.Rules.{rules};
ghost use Rattle.repo_model.specs.Shown.{shown_command, shown_reply};
ghost use Rattle.run_desks.specs.Seen.{cleaner_resources};
ghost use Rattle.turn_lock.specs.History.{IsStep};
ghost use Rattle.turn_lock.specs.Seats.{opening, IsSeatOf};

use crate::cleaning::clean_with;
use outside::Blobs;
use outside_pace::Pace;
use repo_config::Settings;
use repo_model::{Command, Reply};
use run_desks::Cleaner;
use std::sync::Wait;
use turn_lock::{Seat, Thing, Turns};
use turn_seats::Repository;

/// Pauses for the settings' seconds between two cleanings, and makes one pass over the repositories after each pause that
/// answers true, until one answers false. A fault in a pass ends that pass alone. The settings are those of the repository.
pub fn keep_clean<
    B: Blobs,
    Q: Pace,
    T: Repository<Call = Command<B::Held>, Reply = Reply<B::Held>>,
    W: Wait,
>(
    rt: &W,
    settings: &Settings,
    turns: &Turns<T>,
    mut seat: Seat<T>,
    cleaner: &mut Cleaner<B, Q>,
) -> Seat<T>
    requires asked { (call : _) → T.sight.asked call ≡ shown_command call }
    requires answered { (reply : _) → T.sight.answered reply ≡ shown_reply reply }
    requires seat { IsSeatOf (IsStep T.fixed T.may_ask T.turned) turns.now seat }
    requires settings { T.sight.settings (opening turns.now) ≡ settings.now }
    ensures { KeptClean (rules ⟦<T as Thing>⟧ T.sight) settings.now turns.now seat result
        (cleaner_resources ⟦<B as Blobs>⟧ ⟦<Q as Pace>⟧ cleaner.old) (cleaner_resources ⟦<B as Blobs>⟧ ⟦<Q as Pace>⟧ cleaner.new) }
{
    let seconds = settings.clean_seconds();
    for _ in rt.forever() {
        if !cleaner.pace.pause(seconds) {
            return seat;
        }
        let (next, _) = clean_with(rt, settings, turns, seat, &mut cleaner.blobs);
        seat = next;
    }
    unreachable!()
}
