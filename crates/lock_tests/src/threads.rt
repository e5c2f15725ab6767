ghost use Rattle.std.specs.Prelude.{◌≡◌, ℕ, ◌+◌, ◌-◌, ◌%◌, ◌^◌, ◌<◌, ◌≤◌, [], All, IfOk, length, slice_index, slice_set, sum_by, vec_len, vec_capacity};
ghost use Rattle.std.proofs.Common.{length-set};
ghost use Rattle.turn_lock.specs.History.{IsStep};
ghost use Rattle.turn_lock.specs.Seats.{opening, parts_of, IsSeatOf, IsNoteOf};

use std::alloc::{AllocError, Global};
use std::hint::spin_loop;
use std::sync::Wait;
use std::test::*;
use std::thread::Threads;
use thread_jobs::{Job, run_all};
use turn_lock::{Note, Seat, Thing, Turns, close};

// A call adds, and is told the sum before it.
#[derive(Drop)]
struct Counter {
    sum: u64,
}

impl Thing for Counter {
    type Call = u64;

    type Reply = u64;

    ghost Fixed = { Unit {0} };

    ghost fixed = { λ c. tt };

    ghost may_ask = { λ f n. Unit {0} };

    ghost turned = { λ a n reply b. (reply ≡ a.sum) × (b.sum ≡ (a.sum + n) % 2 ^ 64) };

    ghost stays_fixed = { λ a b n reply t i. tt };

    fn turn(&mut self, call: u64) -> u64 {
        let before = self.sum;
        self.sum = before.wrapping_add(call);
        before
    }
}

// A small map from places to numbers. A call stores a number at a place, and is told the one before.
#[derive(Drop)]
struct Shelf {
    places: Vec<u64>,
}

impl Thing for Shelf {
    type Call = (usize, u64);

    type Reply = u64;

    ghost Fixed = { ℕ };

    ghost fixed = { λ s. length s.places.items };

    ghost may_ask = { λ n call. call.0 < n };

    ghost turned = { λ a call reply b. (reply ≡ slice_index a.places.items call.0) × (b.places.items ≡ slice_set a.places.items call.0 call.1) };

    ghost stays_fixed = { λ a b call reply t. Prim.simp (t.1, length-set) };

    fn turn(&mut self, call: (usize, u64)) -> u64 {
        let before = self.places[call.0];
        self.places[call.0] = call.1;
        before
    }
}

// A note, and the sum of what was answered before it was made.
#[derive(Drop)]
struct Told<N> {
    note: N,
    sum: u64,
}

// A call takes as long as it says, and is told how many were made before it.
#[derive(Drop)]
struct Slow {
    calls: u64,
}

impl Thing for Slow {
    type Call = u64;

    type Reply = u64;

    ghost Fixed = { Unit {0} };

    ghost fixed = { λ s. tt };

    ghost may_ask = { λ f n. Unit {0} };

    ghost turned = { λ a n reply b. (reply ≡ a.calls) × (b.calls ≡ (a.calls + 1) % 2 ^ 64) };

    ghost stays_fixed = { λ a b n reply t i. tt };

    fn turn(&mut self, call: u64) -> u64 {
        for _ in 0..call {
            spin_loop();
        }
        let before = self.calls;
        self.calls = before.wrapping_add(1);
        before
    }
}

// A seat that takes a note in, makes the same call so often, and makes a note. Gives the seat, and with it that note and the sum of what was answered.
#[derive(Drop)]
struct Caller<'a, C: Copy, T: Thing<Call = C, Reply = u64>> {
    turns: &'a Turns<T>,
    seat: Seat<T>,
    heard: Note<T>,
    call: C,
    times: u64,
}

impl<C: Copy, T: Thing<Call = C, Reply = u64>> Job for Caller<'_, C, T> {
    type Out = (Seat<T>, Told<Note<T>>);

    ghost ready = { λ d. IsSeatOf (IsStep T.fixed T.may_ask T.turned) d.turns.now d.seat × IsNoteOf (IsStep T.fixed T.may_ask T.turned) d.turns.now d.heard × T.may_ask (T.fixed (opening d.turns.now)) d.call };

    ghost gives = { λ d out. IsSeatOf (IsStep T.fixed T.may_ask T.turned) d.turns.now out.0 × IsNoteOf (IsStep T.fixed T.may_ask T.turned) d.turns.now out.1.note × (parts_of out.0 ≡ parts_of d.seat) };

    fn run<R: Wait>(self, rt: &R) -> (Seat<T>, Told<Note<T>>) {
        let Caller {
            turns,
            mut seat,
            heard,
            call,
            times,
        } = self;
        seat.learn(turns, heard);
        let (mut seat, sum) = repeat(rt, turns, seat, call, times);
        let note = seat.note(turns);
        (seat, Told { note, sum })
    }
}

fn repeat<C: Copy, T: Thing<Call = C, Reply = u64>, R: Wait>(
    rt: &R,
    turns: &Turns<T>,
    mut seat: Seat<T>,
    call: C,
    times: u64,
) -> (Seat<T>, u64)
    requires seat { IsSeatOf (IsStep T.fixed T.may_ask T.turned) turns.now seat }
    requires call { T.may_ask (T.fixed (opening turns.now)) call }
    ensures { IsSeatOf (IsStep T.fixed T.may_ask T.turned) turns.now result.0 × (parts_of result.0 ≡ parts_of seat) }
{
    let mut sum: u64 = 0;
    for _ in 0..times {
        sum = sum.wrapping_add(seat.call(rt, turns, call));
    }
    (seat, sum)
}

// Callers of the same turns at once, the last one in this thread. What they give comes in their order.
fn all_call<'a, C: Copy + Send, T: Thing<Call = C, Reply = u64> + Send, R: Threads + Wait + Sync>(
    rt: &R,
    jobs: Vec<Caller<'a, C, T>>,
    last: Caller<'a, C, T>,
    room: Vec<(Seat<T>, Told<Note<T>>)>,
) -> (Vec<(Seat<T>, Told<Note<T>>)>, (Seat<T>, Told<Note<T>>))
    requires jobs { All (λ d. (d.turns.now ≡ last.turns.now) × IsSeatOf (IsStep T.fixed T.may_ask T.turned) last.turns.now d.seat × IsNoteOf (IsStep T.fixed T.may_ask T.turned) last.turns.now d.heard × T.may_ask (T.fixed (opening last.turns.now)) d.call) jobs.items }
    requires last { IsSeatOf (IsStep T.fixed T.may_ask T.turned) last.turns.now last.seat × IsNoteOf (IsStep T.fixed T.may_ask T.turned) last.turns.now last.heard × T.may_ask (T.fixed (opening last.turns.now)) last.call }
    requires room { (room.items ≡ []) × (vec_len jobs ≤ vec_capacity room) }
    ensures outs { All (λ out. IsSeatOf (IsStep T.fixed T.may_ask T.turned) last.entry.turns.now out.0 × IsNoteOf (IsStep T.fixed T.may_ask T.turned) last.entry.turns.now out.1.note) result.0.items }
    ensures parts { sum_by (λ out. parts_of out.0) result.0.items ≡ sum_by (λ d. parts_of d.seat) jobs.entry.items }
    ensures len { vec_len result.0 ≡ vec_len jobs.entry }
    ensures last { IsSeatOf (IsStep T.fixed T.may_ask T.turned) last.entry.turns.now result.1.0 × IsNoteOf (IsStep T.fixed T.may_ask T.turned) last.entry.turns.now result.1.1.note × (parts_of result.1.0 ≡ parts_of last.entry.seat) }
{
    run_all(rt, jobs, last, room)
}

// Two seats call at once, each so often as it is told. Gives the seats, their notes and the sums of their answers.
fn both_call<C: Copy + Send, T: Thing<Call = C, Reply = u64> + Send, R: Threads + Wait + Sync>(
    rt: &R,
    alloc: Global,
    turns: &Turns<T>,
    first: (Seat<T>, Note<T>),
    second: (Seat<T>, Note<T>),
    calls: (C, C),
    times: (u64, u64),
) -> Result<((Seat<T>, Told<Note<T>>), (Seat<T>, Told<Note<T>>)), AllocError>
    requires seats { IsSeatOf (IsStep T.fixed T.may_ask T.turned) turns.now first.0 × IsSeatOf (IsStep T.fixed T.may_ask T.turned) turns.now second.0 }
    requires notes { IsNoteOf (IsStep T.fixed T.may_ask T.turned) turns.now first.1 × IsNoteOf (IsStep T.fixed T.may_ask T.turned) turns.now second.1 }
    requires calls { T.may_ask (T.fixed (opening turns.now)) calls.0 × T.may_ask (T.fixed (opening turns.now)) calls.1 }
    ensures seats { IfOk result (λ r. IsSeatOf (IsStep T.fixed T.may_ask T.turned) turns.now r.0.0 × IsSeatOf (IsStep T.fixed T.may_ask T.turned) turns.now r.1.0) }
    ensures notes { IfOk result (λ r. IsNoteOf (IsStep T.fixed T.may_ask T.turned) turns.now r.0.1.note × IsNoteOf (IsStep T.fixed T.may_ask T.turned) turns.now r.1.1.note) }
    ensures parts { IfOk result (λ r. (parts_of r.0.0 ≡ parts_of first.0) × (parts_of r.1.0 ≡ parts_of second.0)) }
{
    let (seat, heard) = first;
    let one = Caller {
        turns,
        seat,
        heard,
        call: calls.0,
        times: times.0,
    };
    let (seat, heard) = second;
    let two = Caller {
        turns,
        seat,
        heard,
        call: calls.1,
        times: times.1,
    };
    let mut jobs = Vec::with_capacity(alloc, 1)?;
    jobs.push_reserved(one);
    let (mut outs, two) = all_call(rt, jobs, two, Vec::with_capacity(alloc, 1)?);
    let Some(one) = outs.pop() else {
        unreachable!()
    };
    Ok((one, two))
}

// Two seats and a note of each, which have all parts.
fn two_seats<T: Thing>(
    turns: &Turns<T>,
    mut seat: Seat<T>,
) -> ((Seat<T>, Note<T>), (Seat<T>, Note<T>))
    requires seat { IsSeatOf (IsStep T.fixed T.may_ask T.turned) turns.now seat }
    requires parts { parts_of seat ≡ 2 ^ 64 }
    ensures seats { IsSeatOf (IsStep T.fixed T.may_ask T.turned) turns.now result.0.0 × IsSeatOf (IsStep T.fixed T.may_ask T.turned) turns.now result.1.0 }
    ensures notes { IsNoteOf (IsStep T.fixed T.may_ask T.turned) turns.now result.0.1 × IsNoteOf (IsStep T.fixed T.may_ask T.turned) turns.now result.1.1 }
    ensures parts { (parts_of result.0.0 + 8 ≡ 2 ^ 64) × (parts_of result.1.0 ≡ 6) }
{
    let mut other = seat.split(turns, 7);
    let note = seat.note(turns);
    let other_note = other.note(turns);
    ((seat, note), (other, other_note))
}

// Joins the seats, learns the notes and ends the history.
fn end<T: Thing>(turns: Turns<T>, first: (Seat<T>, Note<T>), second: (Seat<T>, Note<T>)) -> (T, u64)
    requires seats { IsSeatOf (IsStep T.fixed T.may_ask T.turned) turns first.0 × IsSeatOf (IsStep T.fixed T.may_ask T.turned) turns second.0 }
    requires notes { IsNoteOf (IsStep T.fixed T.may_ask T.turned) turns first.1 × IsNoteOf (IsStep T.fixed T.may_ask T.turned) turns second.1 }
    requires parts { parts_of first.0 + parts_of second.0 + 2 ≡ 2 ^ 64 }
{
    let (mut seat, note) = first;
    let (other, other_note) = second;
    seat.join(&turns, other);
    seat.learn(&turns, note);
    seat.learn(&turns, other_note);
    close(turns, seat)
}

#[test]
fn one_seat_calls_a_hundred_times(rt: HostRuntime) -> Result<(), Fail> {
    let Ok((turns, seat)) = Turns::begin(rt.alloc(), Counter { sum: 0 }) else {
        return Err("memory".into());
    };
    let (seat, answered) = repeat(&rt, &turns, seat, 1, 100);
    let (counter, calls) = close(turns, seat);
    assert_eq!(rt; (answered, counter.sum, calls), (4950, 100, 100));
    Ok(())
}

// Two threads store first in places of their own, and then both in one place: each number that was stored there was told once, or stands there at the end.
#[test]
fn two_threads_store(rt: HostRuntime) -> Result<(), Fail> {
    let shelf = Shelf {
        places: vec![in rt.alloc(); 0; 4]?,
    };
    let Ok((turns, seat)) = Turns::begin(rt.alloc(), shelf) else {
        return Err("memory".into());
    };
    let (one, two) = two_seats(&turns, seat);
    let calls = ((0, 5), (3, 7));
    let (one, two) = both_call(&rt, rt.alloc(), &turns, one, two, calls, (300, 300))?;
    assert_eq!(rt; (one.1.sum, two.1.sum), (299 * 5, 299 * 7));
    let (one, two) = ((one.0, one.1.note), (two.0, two.1.note));
    let calls = ((1, 5), (1, 7));
    let (one, two) = both_call(&rt, rt.alloc(), &turns, one, two, calls, (300, 300))?;
    let told = one.1.sum.wrapping_add(two.1.sum);
    let (shelf, calls) = end(turns, (one.0, one.1.note), (two.0, two.1.note));
    assert_eq!(rt; (shelf.places.len(), calls), (4, 1200));
    let left = shelf.places[1];
    assert!(rt; left == 5 || left == 7);
    assert_eq!(rt; told.wrapping_add(left), 300 * 5 + 300 * 7);
    assert_eq!(rt; shelf.places.as_slice(), [5, left, 0, 7].as_slice());
    Ok(())
}

// One thread adds 5. Another, which takes in its note, then adds 1 to that.
#[test]
fn a_note_goes_from_one_thread_to_another(rt: HostRuntime) -> Result<(), Fail> {
    let Ok((turns, seat)) = Turns::begin(rt.alloc(), Counter { sum: 0 }) else {
        return Err("memory".into());
    };
    let (one, two) = two_seats(&turns, seat);
    let (one, two) = both_call(&rt, rt.alloc(), &turns, one, two, (5, 5), (1, 0))?;
    let (one, two) = ((one.0, two.1.note), (two.0, one.1.note));
    let (one, two) = both_call(&rt, rt.alloc(), &turns, one, two, (1, 1), (0, 1))?;
    let told = (one.1.sum, two.1.sum);
    let (counter, calls) = end(turns, (one.0, one.1.note), (two.0, two.1.note));
    assert_eq!(rt; (told, counter.sum, calls), ((0, 5), 6, 2));
    Ok(())
}

// Each of two callers sleeps while the other one's call takes its time, and is woken after it. Else the test has no end.
#[test]
fn one_that_sleeps_alone_is_woken(rt: HostRuntime) -> Result<(), Fail> {
    let Ok((turns, seat)) = Turns::begin(rt.alloc(), Slow { calls: 0 }) else {
        return Err("memory".into());
    };
    let (one, two) = two_seats(&turns, seat);
    let calls = (100_000, 100_000);
    let (one, two) = both_call(&rt, rt.alloc(), &turns, one, two, calls, (40, 40))?;
    let sum = one.1.sum.wrapping_add(two.1.sum);
    let (_, calls) = end(turns, (one.0, one.1.note), (two.0, two.1.note));
    assert_eq!(rt; (sum, calls), (79 * 40, 80));
    Ok(())
}
