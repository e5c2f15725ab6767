//! A seat for each desk.
ghost use Rattle.std.specs.Prelude.{◌≡◌, ◌+◌, ◌<◌, ◌≤◌, [], All, map, vec_len, vec_capacity};
ghost use Rattle.desk_work.specs.Working.{IsBegun};
ghost use Rattle.turn_lock.specs.History.{IsStep};
ghost use Rattle.turn_lock.specs.Seats.{parts_of, IsSeatOf, Same};

use crate::jobs::{DeskJob, House};
use outside::{Blobs, Port};
use outside_remote::Remote;
use run_desks::Desk;
use std::alloc::Global;
use turn_lock::{Seat, Thing};

// A desk with a seat, as a job.
fn desk_job<P: Port, B: Blobs, R: Remote, T: Thing>(
    alloc: Global,
    house: &House<T>,
    seat: Seat<T>,
    desk: Desk<P, B, R>,
) -> DeskJob<'_, P, B, R, T>
    ensures { (result.house.now ≡ house.now) × (result.seat ≡ seat) × (result.desk ≡ desk) }
{
    DeskJob {
        house,
        seat,
        desk,
        alloc,
    }
}

/// A job for each desk, in their order, each with a seat of one part that is split off, in a room that was made before and is
/// empty. It takes no memory.
pub fn seated<'a, P: Port + Drop, B: Blobs + Drop, R: Remote + Drop, T: Thing>(
    alloc: Global,
    house: &'a House<T>,
    seat: &mut Seat<T>,
    desks: Vec<Desk<P, B, R>>,
    mut room: Vec<DeskJob<'a, P, B, R, T>>,
) -> Vec<DeskJob<'a, P, B, R, T>>
    requires seat { IsSeatOf (IsStep T.fixed T.may_ask T.turned) house.now.turns seat.old }
    requires parts { vec_len desks < parts_of seat.old }
    requires room { (room.items ≡ []) × (vec_len desks ≤ vec_capacity room) }
    ensures seat { IsSeatOf (IsStep T.fixed T.may_ask T.turned) house.now.turns seat.new × Same seat.old seat.new × (parts_of seat.new + vec_len desks ≡ parts_of seat.old) }
    ensures jobs { All (λ job. (job.house.now ≡ house.now) × IsSeatOf (IsStep T.fixed T.may_ask T.turned) house.now.turns job.seat × IsBegun seat.old job.seat) result.items }
    ensures desks { map (λ job. job.desk) result.items ≡ desks.items }
    ensures len { vec_len result ≡ vec_len desks }
{
    for desk in desks {
        let own = seat.split(&house.turns, 1);
        room.push_reserved(desk_job(alloc, house, own, desk));
    }
    room
}
