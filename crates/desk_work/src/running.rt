//! All desks at once, and the cleaner beside them.
ghost use Rattle.std.specs.Prelude.{◌≡◌, ◌+◌, ◌<◌, ◌≤◌, [], All, IfOk, IfErr, map, vec_len, vec_capacity};
ghost use Rattle.std.specs.List.{AllZip, list_any};
ghost use Rattle.seat_server.specs.Passages.{KeptClean};
ghost use Rattle.seat_server.specs.Rules.{rules};
ghost use Rattle.desk_work.specs.Working.{CleanedBeside, DeskDone, DeskServes, IsReady};
ghost use Rattle.repo_model.specs.Shown.{shown_command, shown_reply};
ghost use Rattle.run_desks.specs.Seen.{cleaner_resources, looks};
ghost use Rattle.turn_lock.specs.Seats.{parts_of};

use crate::jobs::{CleanerJob, DeskJob, House};
use crate::seating::seated;
use outside::{Blobs, Held, Port, Tells};
use outside_pace::Pace;
use outside_remote::Remote;
use repo_model::{Command, Reply};
use run_desks::{Cleaner, Desk};
use std::alloc::Global;
use std::sync::Wait;
use std::thread::Threads;
use thread_jobs::run_beside;
use turn_lock::{Seat, Thing};
use turn_seats::Repository;

// Runs all desks at once, each in a thread of its own where one can be made and the last in this one, and the cleaner beside
// them, which ends only once they have: where threads are wanting it is the cleaner that waits, and no desk.
fn run_jobs<
    'a,
    P: Port + Drop + Send,
    B: Blobs + Drop + Send,
    R: Remote + Drop + Send,
    Q: Pace + Drop + Send,
    T: Repository<Call = Command<B::Held>, Reply = Reply<B::Held>> + Send,
    W: Threads + Wait + Sync,
>(
    rt: &W,
    jobs: Vec<DeskJob<'a, P, B, R, T>>,
    last: CleanerJob<'a, B, Q, T>,
    room: Vec<(Seat<T>, (Desk<P, B, R>, bool))>,
) -> (
    Vec<(Seat<T>, (Desk<P, B, R>, bool))>,
    (Seat<T>, Cleaner<B, Q>),
)
where
    P::Link: Send,
    B::Held: Send,
    B::Pen: Send,
    requires jobs { All (λ job. IsReady (rules ⟦<T as Thing>⟧ T.sight) shown_command shown_reply job.house.now.settings job.house.now.turns job.seat) jobs.items }
    requires last { IsReady (rules ⟦<T as Thing>⟧ T.sight) shown_command shown_reply last.house.now.settings last.house.now.turns last.seat }
    requires room { (room.items ≡ []) × (vec_len jobs ≤ vec_capacity room) }
    ensures served { AllZip (λ job out. DeskServes (looks ⟦<P as Port>⟧ ⟦<P::Link as Tells>⟧ ⟦<B as Blobs>⟧ ⟦<B::Held as Held>⟧ ⟦<R as Remote>⟧) (rules ⟦<T as Thing>⟧ T.sight)
        job.house.now.settings job.house.now.turns job.seat job.desk out) jobs.entry.items result.0.items }
    ensures cleaned { KeptClean (rules ⟦<T as Thing>⟧ T.sight) last.entry.house.now.settings last.entry.house.now.turns last.entry.seat result.1.0
        (cleaner_resources ⟦<B as Blobs>⟧ ⟦<Q as Pace>⟧ last.entry.cleaner) (cleaner_resources ⟦<B as Blobs>⟧ ⟦<Q as Pace>⟧ result.1.1) }
    ensures len { vec_len result.0 ≡ vec_len jobs.entry }
{
    run_beside(rt, last, jobs, room)
}

// The desks in their order, in a room that was made before and is empty, and whether a port failed.
pub fn parted<P: Port + Drop, B: Blobs + Drop, R: Remote + Drop>(
    back: Vec<(Desk<P, B, R>, bool)>,
    mut room: Vec<Desk<P, B, R>>,
) -> (Vec<Desk<P, B, R>>, bool)
    requires room { (room.items ≡ []) × (vec_len back ≤ vec_capacity room) }
    ensures desks { result.0.items ≡ map (λ one. one.0) back.items }
    ensures failed { result.1 ≡ list_any (λ one. one.1) back.items }
{
    let mut failed = false;
    for (desk, has_failed) in back {
        failed = failed || has_failed;
        room.push_reserved(desk);
    }
    (room, failed)
}

// Gives each desk a seat, serves all of them at once, and cleans beside them with what is left of the seat. When
// memory runs out nothing is done.
pub fn serve_all<
    P: Port + Drop + Send,
    B: Blobs + Drop + Send,
    R: Remote + Drop + Send,
    Q: Pace + Drop + Send,
    T: Repository<Call = Command<B::Held>, Reply = Reply<B::Held>> + Send,
    W: Threads + Wait + Sync,
>(
    rt: &W,
    alloc: Global,
    house: &House<T>,
    mut seat: Seat<T>,
    desks: Vec<Desk<P, B, R>>,
    cleaner: Cleaner<B, Q>,
    room: Vec<(Seat<T>, (Desk<P, B, R>, bool))>,
) -> Result<
    (
        Vec<(Seat<T>, (Desk<P, B, R>, bool))>,
        (Seat<T>, Cleaner<B, Q>),
    ),
    (Seat<T>, Vec<Desk<P, B, R>>, Cleaner<B, Q>),
>
where
    P::Link: Send,
    B::Held: Send,
    B::Pen: Send,
    requires ready { IsReady (rules ⟦<T as Thing>⟧ T.sight) shown_command shown_reply house.now.settings house.now.turns seat }
    requires parts { vec_len desks < parts_of seat }
    requires room { (room.items ≡ []) × (vec_len desks ≤ vec_capacity room) }
    ensures done { IfOk result (λ r. AllZip (DeskDone (looks ⟦<P as Port>⟧ ⟦<P::Link as Tells>⟧ ⟦<B as Blobs>⟧ ⟦<B::Held as Held>⟧ ⟦<R as Remote>⟧) (rules ⟦<T as Thing>⟧ T.sight)
        house.now.settings house.now.turns seat) desks.items r.0.items) }
    ensures cleaned { IfOk result (λ r. CleanedBeside (rules ⟦<T as Thing>⟧ T.sight) house.now.settings house.now.turns seat r.1.0
        (cleaner_resources ⟦<B as Blobs>⟧ ⟦<Q as Pace>⟧ cleaner) (cleaner_resources ⟦<B as Blobs>⟧ ⟦<Q as Pace>⟧ r.1.1)) }
    ensures parts { IfOk result (λ r. parts_of r.1.0 + vec_len r.0 ≡ parts_of seat) }
    ensures len { IfOk result (λ r. vec_len r.0 ≡ vec_len desks) }
    ensures refused { IfErr result (λ r. (r.0 ≡ seat) × (r.1.items ≡ desks.items) × (r.2 ≡ cleaner)) }
{
    let Ok(jobs) = Vec::with_capacity(alloc, desks.len()) else {
        return Err((seat, desks, cleaner));
    };
    let jobs = seated(alloc, house, &mut seat, desks, jobs);
    let last = CleanerJob {
        house,
        seat,
        cleaner,
    };
    Ok(run_jobs(rt, jobs, last, room))
}
