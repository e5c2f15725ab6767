//! A stream served with a seat.
ghost use Rattle.std.specs.Prelude.{◌≡◌, ℕ, List, []};
ghost use Rattle.repo_course.specs.Serving.{AllTell, outside, ServesStream};
ghost use Rattle.repo_model.specs.History.{Entry};
ghost use Rattle.repo_model.specs.Shown.{shown_command, shown_reply};
ghost use Rattle.seat_server.specs.Gained.{Gained};
ghost use Rattle.turn_lock.specs.History.{IsStep};
ghost use Rattle.turn_lock.specs.Seats.{opening, IsSeatOf};

use outside::{Blobs, Stream, Tells};
use outside_remote::Remote;
use repo_config::Settings;
use repo_course::End;
use repo_model::{Command, Reply};
use repo_routes::Routes;
use repo_server::serve_stream_by;
use std::alloc::Global;
use std::sync::Wait;
use turn_lock::{Seat, Turns};
use turn_seats::{Asker, Repository};

/// Serves the requests of a stream as `serve_stream` does, with a seat, which waits for its turn at each command.
///
/// The stream's entries are those that the seat gained: its own calls, one after another, in the one history, which begins with
/// all that the seat had seen. The settings are those of the repository.
pub fn serve_with<
    B: Blobs,
    R: Remote,
    T: Repository<Call = Command<B::Held>, Reply = Reply<B::Held>>,
    S: Stream,
    W: Wait,
>(
    rt: &W,
    alloc: Global,
    settings: &Settings,
    routes: &Option<Routes>,
    turns: &Turns<T>,
    seat: Seat<T>,
    blobs: &mut B,
    remote: &mut R,
    stream: &mut S,
) -> (Seat<T>, End)
    requires asked { (call : _) → T.sight.asked call ≡ shown_command call }
    requires answered { (reply : _) → T.sight.answered reply ≡ shown_reply reply }
    requires seat { IsSeatOf (IsStep T.fixed T.may_ask T.turned) turns.now seat }
    requires settings { T.sight.settings (opening turns.now) ≡ settings.now }
    ensures serves { (held : List ℕ) × (entries : List Entry)
        × Gained T.sight (IsStep T.fixed T.may_ask T.turned) turns.now seat entries result.0
        × ServesStream settings.now (AllTell B.Held.bytes) 1000 entries
        (outside ⟦<S as Tells>⟧ [] stream.old (B.faults blobs.old) (B.shelf blobs.old) (R.sees remote.old))
        (outside ⟦<S as Tells>⟧ held stream.new (B.faults blobs.new) (B.shelf blobs.new) (R.sees remote.new)) result.1 }
{
    let mut asker = Asker { rt, turns, seat };
    let end = serve_stream_by(alloc, settings, routes, &mut asker, blobs, remote, stream);
    let Asker {
        rt: _,
        turns: _,
        seat,
    } = asker;
    (seat, end)
}
