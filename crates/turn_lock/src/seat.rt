// Seats, with which threads call the object, and notes, which carry what one seat has seen to another.
ghost use Rattle.std.specs.Prelude.{◌≡◌, ◌≢◌, ◌+◌, ◌-◌, ◌*◌, ◌^◌, ◌<◌, ◌≤◌, ◌∷◌, ◌++◌, [], length, IfOk, IfErr};
ghost use Rattle.turn_lock.specs.History.{IsStep, BeginsWith};
ghost use Rattle.turn_lock.specs.Seats.{opening, number, seen, mine, joined, given, parts_of, carried, given_before, callers, IsSeatOf, IsNoteOf, Same, Gains, Closes};
ghost use Rattle.turn_lock.specs.Holding.{Merged, SplitsOff};

use crate::hold;
use crate::hold::Token;
use crate::law::{Amount, Both, Cut, Draw, Give, Look, Slip};
use crate::thing::Thing;
use crate::turns::Turns;
use crate::view::{Slot, View};
use atomic_table::{Refused, Table};
use std::alloc::{AllocError, Global};
use std::marker::Brand;
use std::snapshot::Snapshot;
use std::sync::Wait;
use std::sync::atomic::AtomicU64;

/// The right to call an object in turn with others. It has no bytes, and may go to another thread where the object may.
#[derive(Drop)]
pub struct SeatToken<C, R, T> {
    pub(crate) token: atomic_table::Seat<Slot<C, R, T>, View<C, R, T>>,
}

/// A seat at the turns of an object of type `T`.
pub type Seat<T> = SeatToken<<T as Thing>::Call, <T as Thing>::Reply, T>;

/// What one seat has seen, on its way to another. It has no bytes, and may go to another thread where the object may.
#[derive(Drop)]
pub struct NoteToken<C, R, T> {
    pub(crate) token: atomic_table::Seat<Slot<C, R, T>, View<C, R, T>>,
}

/// A note of a seat at the turns of an object of type `T`.
pub type Note<T> = NoteToken<<T as Thing>::Call, <T as Thing>::Reply, T>;

impl<T: Thing> Turns<T> {
    /// Begins the history of an object, with the one seat, which has all 2^64 parts. The one error is out of memory, and then the object comes back.
    pub fn begin(alloc: Global, thing: T) -> Result<(Turns<T>, Seat<T>), (T, AllocError)>
        ensures turns { IfOk result (λ r. opening r.0 ≡ thing) }
        ensures seat { IfOk result (λ r. IsSeatOf (IsStep T.fixed T.may_ask T.turned) r.0 r.1) }
        ensures first { IfOk result (λ r. (seen r.1 ≡ []) × (mine r.1 ≡ []) × (joined r.1 ≡ []) × (number r.1 ≡ 0) × (given r.1 ≡ 1) × (parts_of r.1 ≡ 2 ^ 64)) }
        ensures err { IfErr result (λ e. e.0 ≡ thing) }
    {
        let Ok(mut slots) = Vec::with_capacity(alloc, 1) else {
            return Err((thing, AllocError));
        };
        let first = Snapshot::of(&thing);
        slots.push_reserved(Slot::Home(thing));
        match Table::new(alloc, &[0], slots, &first) {
            Ok((table, token)) => Ok((
                Turns {
                    table,
                    sleepers: AtomicU64::new(0),
                },
                SeatToken { token },
            )),
            Err(Refused { mut slots }) => {
                let Some(Slot::Home(thing)) = slots.pop() else {
                    unreachable!()
                };
                slots.destroy_empty();
                Err((thing, AllocError))
            }
        }
    }
}

impl<T: Thing> SeatToken<T::Call, T::Reply, T> {
    /// Waits for the turn, and asks the object once. The call is one that the object may be asked. The history that the seat has seen then ends with this call and its reply, and begins with all that it had seen before. Of the seat's own entries just this one is new. A history has at most 2^62 entries: a call after that waits for good. It takes no memory but what the object takes.
    pub fn call<R: Wait>(&mut self, rt: &R, turns: &Turns<T>, call: T::Call) -> T::Reply
        requires seat { IsSeatOf (IsStep T.fixed T.may_ask T.turned) turns.now self.old }
        requires call { T.may_ask (T.fixed (opening turns.now)) call }
        ensures seat { IsSeatOf (IsStep T.fixed T.may_ask T.turned) turns.now self.new }
        ensures entry { Gains self.old call result self.new }
        ensures same { (number self.new ≡ number self.old) × (joined self.new ≡ joined self.old) × (given self.new ≡ given self.old) × (parts_of self.new ≡ parts_of self.old) }
        ensures room { length (seen self.new) ≤ 2 ^ 62 }
    {
        let word = hold::take(rt, turns, &mut self.token);
        let (reply, told) = hold::turn(turns, &mut self.token, call);
        let shared = &turns.table.shared;
        shared.compare_exchange_with::<Give<T>>(&mut self.token, 0, word + 1, word + 2, &told);
        let Slot::Told(_, _) = told else {
            unreachable!()
        };
        hold::wake(turns);
        reply
    }

    /// Splits off a seat with so many parts, which are at least 1, and keeps at least 1. The new seat has seen what this one has seen, has made no call, and has a number of its own: none that was given before, as far as this seat knows. (Where two seats meet, by `join`, their numbers differ.) It takes no memory.
    pub fn split(&mut self, turns: &Turns<T>, parts: u64) -> Seat<T>
        requires seat { IsSeatOf (IsStep T.fixed T.may_ask T.turned) turns.now self.old }
        requires parts { (0 < parts) × (parts < parts_of self.old) }
        ensures old { IsSeatOf (IsStep T.fixed T.may_ask T.turned) turns.now self.new × Same self.old self.new × (parts_of self.new + parts ≡ parts_of self.old) }
        ensures new { IsSeatOf (IsStep T.fixed T.may_ask T.turned) turns.now result × (parts_of result ≡ parts) × (seen result ≡ seen self.old) × (mine result ≡ []) × (joined result ≡ []) }
        ensures number { (given self.old ≤ number result) × (given self.new ≡ number result + 1) × (given result ≡ given self.new) }
    {
        split_off::<T, Brand>(turns, self, parts)
    }

    /// Takes in another seat, with its parts, its numbers and their entries, and sees the history as far as it goes: that begins with what either had seen. It takes no memory.
    pub fn join(&mut self, turns: &Turns<T>, other: Seat<T>)
        requires seat { IsSeatOf (IsStep T.fixed T.may_ask T.turned) turns.now self.old }
        requires other { IsSeatOf (IsStep T.fixed T.may_ask T.turned) turns.now other }
        ensures seat { IsSeatOf (IsStep T.fixed T.may_ask T.turned) turns.now self.new }
        ensures saw { BeginsWith (seen self.new) (seen self.old) × BeginsWith (seen self.new) (seen other) }
        ensures joined { joined self.new ≡ joined self.old ++ callers other }
        ensures numbers { (given self.old ≤ given self.new) × (given other ≤ given self.new) }
        ensures parts { parts_of self.new ≡ parts_of self.old + parts_of other }
        ensures same { (number self.new ≡ number self.old) × (mine self.new ≡ mine self.old) }
    {
        let SeatToken { token } = other;
        merge(turns, self, token);
    }

    /// A note, which carries what this seat has seen to another. The seat has more than one part; the note takes one of them with it. It takes no memory.
    pub fn note(&mut self, turns: &Turns<T>) -> Note<T>
        requires seat { IsSeatOf (IsStep T.fixed T.may_ask T.turned) turns.now self.old }
        requires parts { 1 < parts_of self.old }
        ensures old { IsSeatOf (IsStep T.fixed T.may_ask T.turned) turns.now self.new × Same self.old self.new × (given self.new ≡ given self.old) × (parts_of self.new + 1 ≡ parts_of self.old) }
        ensures note { IsNoteOf (IsStep T.fixed T.may_ask T.turned) turns.now result × (carried result ≡ seen self.old) × (given_before result ≡ given self.old) }
    {
        let slip = turns.table.shared.split_seat::<Slip>(&mut self.token);
        NoteToken { token: slip }
    }

    /// Takes in a note with its part, and sees the history as far as it goes: that begins with what this seat had seen and with what the note carries. It takes no memory.
    pub fn learn(&mut self, turns: &Turns<T>, note: Note<T>)
        requires seat { IsSeatOf (IsStep T.fixed T.may_ask T.turned) turns.now self.old }
        requires note { IsNoteOf (IsStep T.fixed T.may_ask T.turned) turns.now note }
        ensures seat { IsSeatOf (IsStep T.fixed T.may_ask T.turned) turns.now self.new }
        ensures saw { BeginsWith (seen self.new) (seen self.old) × BeginsWith (seen self.new) (carried note) }
        ensures numbers { (given self.old ≤ given self.new) × (given_before note ≤ given self.new) }
        ensures parts { parts_of self.new ≡ parts_of self.old + 1 }
        ensures same { (number self.new ≡ number self.old) × (mine self.new ≡ mine self.old) × (joined self.new ≡ joined self.old) }
    {
        let NoteToken { token } = note;
        merge(turns, self, token);
    }
}

/// Ends the history, and gives the object as its last call left it, and the number of all calls. The seat has all parts: no other seat and no note is left over, so every call is that of one of its callers, and what the seat has seen is the whole history. It takes no memory.
pub fn close<T: Thing>(turns: Turns<T>, seat: Seat<T>) -> (T, u64)
    requires seat { IsSeatOf (IsStep T.fixed T.may_ask T.turned) turns seat }
    requires parts { parts_of seat ≡ 2 ^ 64 }
    ensures { Closes (IsStep T.fixed T.may_ask T.turned) turns seat result.0 result.1 }
{
    let Turns { table, sleepers: _ } = turns;
    let SeatToken { token } = seat;
    let mut closed = table.close_with(token);
    let calls = closed.word(0) / 2;
    let Slot::Home(thing) = closed.take(0) else {
        unreachable!()
    };
    closed.free();
    (thing, calls)
}

// Takes the token of a seat or a note in, and sees the history as far as it goes.
fn merge<T: Thing>(turns: &Turns<T>, seat: &mut Seat<T>, token: Token<T>)
    requires seat { IsSeatOf (IsStep T.fixed T.may_ask T.turned) turns.now seat.old }
    requires token { (token.table_id ≡ turns.now.table.shared.table_id) × (token.me.1 ≡ []) × (token.me.0.turn ≡ 0) }
    ensures { Merged (IsStep T.fixed T.may_ask T.turned) turns.now seat.old token seat.new }
{
    let shared = &turns.table.shared;
    shared.join_seat::<Both>(&mut seat.token, token);
    shared.load::<Look<T>>(&mut seat.token, 0);
}

// Draws a number for a new seat, and splits it off with this amount of parts.
fn split_off<T: Thing, A: Amount>(turns: &Turns<T>, seat: &mut Seat<T>, amount: u64) -> Seat<T>
    requires seat { IsSeatOf (IsStep T.fixed T.may_ask T.turned) turns.now seat.old }
    requires amount { (amount ≡ A.amount) × (0 < amount) × (amount < parts_of seat.old) }
    ensures { SplitsOff (IsStep T.fixed T.may_ask T.turned) turns.now seat.old seat.new result amount }
{
    let shared = &turns.table.shared;
    shared.load::<Draw<T>>(&mut seat.token, 0);
    let other = shared.split_seat::<Cut<A>>(&mut seat.token);
    SeatToken { token: other }
}
