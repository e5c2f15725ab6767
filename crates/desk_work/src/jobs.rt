//! Desks and the cleaner as jobs, each with its seat.
use crate::desk::serve_desk;
use outside::{Blobs, Held, Port, Tells};
use outside_pace::Pace;
use outside_remote::Remote;
use repo_config::Settings;
use repo_model::{Command, Reply};
use run_desks::{Cleaner, Desk};
use seat_server::keep_clean;
use std::alloc::Global;
use std::sync::Wait;
use thread_jobs::Job;
use turn_lock::{Seat, Thing, Turns};
use turn_seats::Repository;

/// The turns of a repository, and its settings.
#[derive(Drop)]
pub struct House<T: Thing> {
    pub turns: Turns<T>,
    pub settings: Settings,
}

/// A desk with its seat.
#[derive(Drop)]
pub struct DeskJob<'a, P: Port, B: Blobs, R: Remote, T: Thing> {
    pub house: &'a House<T>,
    pub seat: Seat<T>,
    pub desk: Desk<P, B, R>,
    pub alloc: Global,
}

impl<
    P: Port + Drop,
    B: Blobs + Drop,
    R: Remote + Drop,
    T: Repository<Call = Command<B::Held>, Reply = Reply<B::Held>>,
> Job for DeskJob<'_, P, B, R, T> {
    ghost use Rattle.seat_server.specs.Rules.{rules};
    ghost use Rattle.desk_work.specs.Working.{DeskServes, IsReady};
    ghost use Rattle.repo_model.specs.Shown.{shown_command, shown_reply};
    ghost use Rattle.run_desks.specs.Seen.{looks};

    type Out = (Seat<T>, (Desk<P, B, R>, bool));

    ghost ready = { λ job. IsReady (rules ⟦<T as Thing>⟧ T.sight) shown_command shown_reply job.house.now.settings job.house.now.turns job.seat };

    ghost gives = { λ job out. DeskServes (looks ⟦<P as Port>⟧ ⟦<P::Link as Tells>⟧ ⟦<B as Blobs>⟧ ⟦<B::Held as Held>⟧ ⟦<R as Remote>⟧) (rules ⟦<T as Thing>⟧ T.sight)
        job.house.now.settings job.house.now.turns job.seat job.desk out };

    fn run<W: Wait>(self, rt: &W) -> (Seat<T>, (Desk<P, B, R>, bool)) {
        let DeskJob {
            house,
            seat,
            mut desk,
            alloc,
        } = self;
        let (seat, failed) = serve_desk(rt, alloc, &house.settings, &house.turns, seat, &mut desk);
        (seat, (desk, failed))
    }
}

/// The cleaner with its seat.
#[derive(Drop)]
pub struct CleanerJob<'a, B: Blobs, Q: Pace, T: Thing> {
    pub house: &'a House<T>,
    pub seat: Seat<T>,
    pub cleaner: Cleaner<B, Q>,
}

impl<
    B: Blobs + Drop,
    Q: Pace + Drop,
    T: Repository<Call = Command<B::Held>, Reply = Reply<B::Held>>,
> Job for CleanerJob<'_, B, Q, T> {
    ghost use Rattle.seat_server.specs.Passages.{KeptClean};
    ghost use Rattle.seat_server.specs.Rules.{rules};
    ghost use Rattle.desk_work.specs.Working.{IsReady};
    ghost use Rattle.repo_model.specs.Shown.{shown_command, shown_reply};
    ghost use Rattle.run_desks.specs.Seen.{cleaner_resources};

    type Out = (Seat<T>, Cleaner<B, Q>);

    ghost ready = { λ job. IsReady (rules ⟦<T as Thing>⟧ T.sight) shown_command shown_reply job.house.now.settings job.house.now.turns job.seat };

    ghost gives = { λ job out. KeptClean (rules ⟦<T as Thing>⟧ T.sight) job.house.now.settings job.house.now.turns job.seat out.0
        (cleaner_resources ⟦<B as Blobs>⟧ ⟦<Q as Pace>⟧ job.cleaner) (cleaner_resources ⟦<B as Blobs>⟧ ⟦<Q as Pace>⟧ out.1) };

    fn run<W: Wait>(self, rt: &W) -> (Seat<T>, Cleaner<B, Q>) {
        let CleanerJob {
            house,
            seat,
            mut cleaner,
        } = self;
        let seat = keep_clean(rt, &house.settings, &house.turns, seat, &mut cleaner);
        (seat, cleaner)
    }
}
