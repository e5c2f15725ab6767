//! A desk serves the connections of its port with a seat of its own.
ghost use Rattle.std.specs.Prelude.{◌≡◌};
ghost use Rattle.seat_server.specs.Rules.{rules};
ghost use Rattle.desk_work.specs.Visits.{Attended, IsOver};
ghost use Rattle.repo_model.specs.Shown.{shown_command, shown_reply};
ghost use Rattle.run_desks.specs.Seen.{looks};
ghost use Rattle.turn_lock.specs.History.{IsStep};
ghost use Rattle.turn_lock.specs.Seats.{opening, IsSeatOf};

use outside::{Blobs, Held, Port, Tells};
use outside_remote::Remote;
use repo_config::Settings;
use repo_model::{Command, Reply};
use repo_routes::Routes;
use run_desks::Desk;
use seat_server::serve_with;
use std::alloc::Global;
use std::sync::Wait;
use turn_lock::{Seat, Thing, Turns};
use turn_seats::Repository;

/// The table of routes that is kept, or, where none is, one made now: a desk for which memory ran out tries again before its
/// next connection.
fn or_made(alloc: Global, kept: Option<Routes>) -> Option<Routes> {
    match kept {
        Some(routes) => Some(routes),
        None => Routes::new(alloc).ok(),
    }
}

/// Serves the connections of a desk's port, one after another, each as a stream, until none is left or the port fails. Each is
/// given back. It says whether the port failed, which is so exactly where the port's count rose. The settings are those of the
/// repository.
pub fn serve_desk<
    P: Port,
    B: Blobs,
    R: Remote,
    T: Repository<Call = Command<B::Held>, Reply = Reply<B::Held>>,
    W: Wait,
>(
    rt: &W,
    alloc: Global,
    settings: &Settings,
    turns: &Turns<T>,
    mut seat: Seat<T>,
    desk: &mut Desk<P, B, R>,
) -> (Seat<T>, bool)
    requires asked { (call : _) → T.sight.asked call ≡ shown_command call }
    requires answered { (reply : _) → T.sight.answered reply ≡ shown_reply reply }
    requires seat { IsSeatOf (IsStep T.fixed T.may_ask T.turned) turns.now seat }
    requires settings { T.sight.settings (opening turns.now) ≡ settings.now }
    ensures attended { Attended (looks ⟦<P as Port>⟧ ⟦<P::Link as Tells>⟧ ⟦<B as Blobs>⟧ ⟦<B::Held as Held>⟧ ⟦<R as Remote>⟧) (rules ⟦<T as Thing>⟧ T.sight)
        settings.now turns.now seat result.0 desk.old desk.new }
    ensures over { IsOver result.1 (P.left desk.new.port) (P.faults desk.old.port) (P.faults desk.new.port) }
{
    let mut routes = None;
    for _ in rt.forever() {
        match desk.port.next() {
            Ok(Some(mut link)) => {
                routes = or_made(alloc, routes);
                let (next, _) = serve_with(
                    rt,
                    alloc,
                    settings,
                    &routes,
                    turns,
                    seat,
                    &mut desk.blobs,
                    &mut desk.remote,
                    &mut link,
                );
                seat = next;
                desk.port.back(link);
            }
            Ok(None) => return (seat, false),
            Err(_) => return (seat, true),
        }
    }
    unreachable!()
}
