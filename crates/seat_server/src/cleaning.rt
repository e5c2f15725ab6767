//! A pass over the repositories with a seat.
ghost use Rattle.std.specs.Prelude.{◌≡◌, List};
ghost use Rattle.repo_course.specs.Cleaning.{PassesAll, store};
ghost use Rattle.repo_model.specs.History.{Entry};
ghost use Rattle.repo_model.specs.Shown.{shown_command, shown_reply};
ghost use Rattle.seat_server.specs.Gained.{Gained};
ghost use Rattle.turn_lock.specs.History.{IsStep};
ghost use Rattle.turn_lock.specs.Seats.{opening, IsSeatOf};

use outside::Blobs;
use repo_config::Settings;
use repo_course::{CleanFault, Cleaned};
use repo_model::{Command, Reply};
use repo_server::clean_pass;
use std::sync::Wait;
use turn_lock::{Seat, Turns};
use turn_seats::{Asker, Repository};

/// Makes a pass over all hosted repositories as `clean_pass` does, with a seat, which waits for its turn at each command.
///
/// The pass's entries are those that the seat gained: its own calls, one after another, in the one history, which begins with
/// all that the seat had seen. The settings are those of the repository.
pub fn clean_with<
    B: Blobs,
    T: Repository<Call = Command<B::Held>, Reply = Reply<B::Held>>,
    W: Wait,
>(
    rt: &W,
    settings: &Settings,
    turns: &Turns<T>,
    seat: Seat<T>,
    blobs: &mut B,
) -> (Seat<T>, Result<Cleaned, CleanFault>)
    requires asked { (call : _) → T.sight.asked call ≡ shown_command call }
    requires answered { (reply : _) → T.sight.answered reply ≡ shown_reply reply }
    requires seat { IsSeatOf (IsStep T.fixed T.may_ask T.turned) turns.now seat }
    requires settings { T.sight.settings (opening turns.now) ≡ settings.now }
    ensures passes { (entries : List Entry)
        × Gained T.sight (IsStep T.fixed T.may_ask T.turned) turns.now seat entries result.0
        × PassesAll settings.now entries (store (B.shelf blobs.old) (B.faults blobs.old)) (store (B.shelf blobs.new) (B.faults blobs.new)) result.1 }
{
    let mut asker = Asker { rt, turns, seat };
    let cleaned = clean_pass(settings, &mut asker, blobs);
    let Asker {
        rt: _,
        turns: _,
        seat,
    } = asker;
    (seat, cleaned)
}
