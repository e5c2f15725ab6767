//! Work as a whole: from the desks to the end of the history.
ghost use Rattle.std.specs.Prelude.{◌≡◌, ◌+◌, ◌^◌, ◌≤◌, [], false, All, IfOk, IsTrue, IsFalse, map, sum_by, vec_len, vec_capacity};
ghost use Rattle.std.specs.List.{list_any};
ghost use Rattle.seat_server.specs.Rules.{rules};
ghost use Rattle.desk_work.specs.Working.{IsReady, Works};
ghost use Rattle.repo_model.specs.Shown.{shown_command, shown_reply};
ghost use Rattle.run_desks.specs.Seen.{run_resources, looks};
ghost use Rattle.turn_lock.specs.History.{IsStep};
ghost use Rattle.turn_lock.specs.Seats.{parts_of, Closes, IsSeatOf};
ghost use Rattle.turn_seats.specs.Ending.{Ended};

use crate::jobs::House;
use crate::running::{parted, serve_all};
use outside::{Blobs, Held, Port, Tells};
use outside_pace::Pace;
use outside_remote::Remote;
use repo_config::Settings;
use repo_model::{Command, Reply};
use run_desks::{Cleaner, Desk};
use std::alloc::{AllocError, Global};
use std::sync::Wait;
use std::thread::Threads;
use turn_lock::{Seat, Thing, Turns, close};
use turn_seats::{Repository, end_all, what_is_seen_is_a_history};

/// What comes of work.
#[derive(Drop)]
pub struct Worked<P: Port, B: Blobs, R: Remote, Q: Pace, T> {
    /// The desks, in their order.
    pub desks: Vec<Desk<P, B, R>>,
    pub cleaner: Cleaner<B, Q>,
    /// The repository as the last call left it.
    pub repository: T,
    /// How many calls there were in all.
    pub calls: u64,
    /// Memory was wanted before any connection was served.
    pub refused: bool,
    /// A port failed.
    pub failed: bool,
}

// Nothing was served: all comes back.
fn refuse<P: Port + Drop, B: Blobs + Drop, R: Remote + Drop, Q: Pace + Drop, T: Thing>(
    turns: Turns<T>,
    seat: Seat<T>,
    desks: Vec<Desk<P, B, R>>,
    cleaner: Cleaner<B, Q>,
) -> Worked<P, B, R, Q, T>
    requires seat { IsSeatOf (IsStep T.fixed T.may_ask T.turned) turns seat }
    requires parts { parts_of seat ≡ 2 ^ 64 }
    ensures desks { result.desks.items ≡ desks.items }
    ensures cleaner { result.cleaner ≡ cleaner }
    ensures closes { Closes (IsStep T.fixed T.may_ask T.turned) turns seat result.repository result.calls }
    ensures flags { IsTrue result.refused × IsFalse result.failed }
{
    let (repository, calls) = close(turns, seat);
    Worked {
        desks,
        cleaner,
        repository,
        calls,
        refused: true,
        failed: false,
    }
}

// All was served: the seats are joined, and the history ends.
fn finish<P: Port + Drop, B: Blobs + Drop, R: Remote + Drop, Q: Pace + Drop, T: Thing>(
    turns: Turns<T>,
    seat: Seat<T>,
    outs: Vec<(Seat<T>, (Desk<P, B, R>, bool))>,
    cleaner: Cleaner<B, Q>,
    back: Vec<(Desk<P, B, R>, bool)>,
    room: Vec<Desk<P, B, R>>,
) -> Worked<P, B, R, Q, T>
    requires seat { IsSeatOf (IsStep T.fixed T.may_ask T.turned) turns seat }
    requires others { All (λ out. IsSeatOf (IsStep T.fixed T.may_ask T.turned) turns out.0) outs.items }
    requires parts { parts_of seat + sum_by parts_of (map (λ out. out.0) outs.items) ≡ 2 ^ 64 }
    requires back { (back.items ≡ []) × (vec_len outs ≤ vec_capacity back) }
    requires room { (room.items ≡ []) × (vec_len outs ≤ vec_capacity room) }
    ensures ended { Ended (IsStep T.fixed T.may_ask T.turned) turns seat (map (λ out. out.0) outs.items) result.repository result.calls }
    ensures desks { result.desks.items ≡ map (λ out. out.1.0) outs.items }
    ensures failed { result.failed ≡ list_any (λ out. out.1.1) outs.items }
    ensures cleaner { result.cleaner ≡ cleaner }
    ensures refused { IsFalse result.refused }
{
    let (repository, calls, back) = end_all(turns, seat, outs, back);
    let (desks, failed) = parted(back, room);
    Worked {
        desks,
        cleaner,
        repository,
        calls,
        refused: false,
        failed,
    }
}

// Rooms for so many desks and what comes back of them.
fn rooms<P: Port + Drop, B: Blobs + Drop, R: Remote + Drop, T: Thing>(
    alloc: Global,
    count: usize,
) -> Result<
    (
        Vec<(Seat<T>, (Desk<P, B, R>, bool))>,
        Vec<(Desk<P, B, R>, bool)>,
        Vec<Desk<P, B, R>>,
    ),
    AllocError,
>
    ensures outs { IfOk result (λ r. (r.0.items ≡ []) × (count ≤ vec_capacity r.0)) }
    ensures back { IfOk result (λ r. (r.1.items ≡ []) × (count ≤ vec_capacity r.1)) }
    ensures desks { IfOk result (λ r. (r.2.items ≡ []) × (count ≤ vec_capacity r.2)) }
{
    let outs = Vec::with_capacity(alloc, count)?;
    let back = Vec::with_capacity(alloc, count)?;
    let desks = Vec::with_capacity(alloc, count)?;
    Ok((outs, back, desks))
}

/// Serves all desks at once, each with a seat of its own, until none of their ports hands out a connection any more, and cleans
/// beside them, until the timer says that no pass is wanted; then ends the history.
///
/// A desk for which no thread can be made is served by the caller, after its own, and a cleaner for which none can be made
/// makes its passes after all desks. `refused` says that memory ran out before any connection was served: then nothing was
/// done. `failed` says that a port failed, which is so exactly where its count rose. The seat has all parts, and the settings
/// are those of the repository. The entries of all connections and all passes, and no others, lie in one legal history that
/// goes on from what the seat had seen; the repository is left as it says,
/// and the number of calls is its length.
pub fn work<
    P: Port + Drop + Send,
    B: Blobs + Drop + Send,
    R: Remote + Drop + Send,
    Q: Pace + Drop + Send,
    T: Repository<Call = Command<B::Held>, Reply = Reply<B::Held>> + Send,
    W: Threads + Wait + Sync,
>(
    rt: &W,
    alloc: Global,
    settings: Settings,
    turns: Turns<T>,
    seat: Seat<T>,
    desks: Vec<Desk<P, B, R>>,
    cleaner: Cleaner<B, Q>,
) -> Worked<P, B, R, Q, T>
where
    P::Link: Send,
    B::Held: Send,
    B::Pen: Send,
    requires ready { IsReady (rules ⟦<T as Thing>⟧ T.sight) shown_command shown_reply settings turns seat }
    requires parts { parts_of seat ≡ 2 ^ 64 }
    ensures refused { IsTrue result.refused → (result.desks.items ≡ desks.items) × (result.cleaner ≡ cleaner) × IsFalse result.failed
        × Closes (IsStep T.fixed T.may_ask T.turned) turns seat result.repository result.calls }
    ensures works { IsFalse result.refused → Works (looks ⟦<P as Port>⟧ ⟦<P::Link as Tells>⟧ ⟦<B as Blobs>⟧ ⟦<B::Held as Held>⟧ ⟦<R as Remote>⟧) (rules ⟦<T as Thing>⟧ T.sight) settings turns seat
        (run_resources ⟦<B as Blobs>⟧ ⟦<Q as Pace>⟧ desks.items cleaner) (run_resources ⟦<B as Blobs>⟧ ⟦<Q as Pace>⟧ result.desks.items result.cleaner)
        result.repository result.calls result.failed }
{
    // The history that all make is one of the repository.
    what_is_seen_is_a_history::<T>();
    let Ok((outs, back, room)) = rooms(alloc, desks.len()) else {
        return refuse(turns, seat, desks, cleaner);
    };
    let house = House { turns, settings };
    let served = serve_all(rt, alloc, &house, seat, desks, cleaner, outs);
    let House { turns, settings: _ } = house;
    match served {
        Ok((outs, (seat, cleaner))) => finish(turns, seat, outs, cleaner, back, room),
        Err((seat, desks, cleaner)) => refuse(turns, seat, desks, cleaner),
    }
}
