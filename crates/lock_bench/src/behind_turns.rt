ghost use Rattle.std.specs.Prelude.{◌≡◌, ◌+◌, ◌<◌, ◌≤◌, [], All, IfOk, vec_len, vec_capacity};
ghost use Rattle.turn_lock.specs.History.{IsStep};
ghost use Rattle.turn_lock.specs.Seats.{opening, parts_of, IsSeatOf};

use crate::counter::Counter;
use std::alloc::{AllocError, Global};
use std::sync::Wait;
use std::thread::Threads;
use thread_jobs::{Job, run_all};
use turn_lock::{Seat, Thing, Turns, split_many};

// So many calls of a seat, which comes back.
#[derive(Drop)]
struct Caller<'a, T: Thing<Call = u64, Reply = u64>> {
    turns: &'a Turns<T>,
    seat: Seat<T>,
    calls: u64,
}

impl<T: Thing<Call = u64, Reply = u64>> Job for Caller<'_, T> {
    type Out = Seat<T>;

    ghost ready = { λ job. IsSeatOf (IsStep T.fixed T.may_ask T.turned) job.turns.now job.seat × T.may_ask (T.fixed (opening job.turns.now)) 1 };

    ghost gives = { λ job out. IsSeatOf (IsStep T.fixed T.may_ask T.turned) job.turns.now out };

    fn run<R: Wait>(self, rt: &R) -> Seat<T> {
        let Caller {
            turns,
            mut seat,
            calls,
        } = self;
        for _ in 0..calls {
            seat.call(rt, turns, 1);
        }
        seat
    }
}

/// The count after so many calls of each of so many threads and of this one.
pub fn count<R: Threads + Wait + Sync>(
    rt: &R,
    alloc: Global,
    others: usize,
    calls: u64,
) -> Result<u64, AllocError> {
    let Ok((turns, seat)) = Turns::begin(alloc, Counter::new()) else {
        return Err(AllocError);
    };
    all_call(rt, alloc, &turns, seat, others, calls)
}

// Gives what a call after all others is answered.
fn all_call<T: Thing<Call = u64, Reply = u64> + Send, R: Threads + Wait + Sync>(
    rt: &R,
    alloc: Global,
    turns: &Turns<T>,
    mut seat: Seat<T>,
    others: usize,
    calls: u64,
) -> Result<u64, AllocError>
    requires seat { IsSeatOf (IsStep T.fixed T.may_ask T.turned) turns.now seat }
    requires parts { others < parts_of seat }
    requires one { T.may_ask (T.fixed (opening turns.now)) 1 }
    requires zero { T.may_ask (T.fixed (opening turns.now)) 0 }
{
    let seats = split_many(turns, &mut seat, others, Vec::with_capacity(alloc, others)?);
    let jobs = callers(turns, seats, calls, Vec::with_capacity(alloc, others)?);
    let last = Caller { turns, seat, calls };
    let (_, mut seat) = run_all(rt, jobs, last, Vec::with_capacity(alloc, others)?);
    Ok(seat.call(rt, turns, 0))
}

fn callers<'a, T: Thing<Call = u64, Reply = u64>>(
    turns: &'a Turns<T>,
    mut seats: Vec<Seat<T>>,
    calls: u64,
    mut room: Vec<Caller<'a, T>>,
) -> Vec<Caller<'a, T>>
    requires seats { All (λ seat. IsSeatOf (IsStep T.fixed T.may_ask T.turned) turns.now seat) seats.items }
    requires one { T.may_ask (T.fixed (opening turns.now)) 1 }
    requires room { (room.items ≡ []) × (vec_len seats ≤ vec_capacity room) }
    ensures ready { All (λ job. IsSeatOf (IsStep T.fixed T.may_ask T.turned) job.turns.now job.seat × T.may_ask (T.fixed (opening job.turns.now)) 1) result.items }
    ensures len { vec_len result ≡ vec_len seats }
{
    while let Some(seat) = seats.pop() {
        room.push_reserved(Caller { turns, seat, calls });
    }
    room
}
