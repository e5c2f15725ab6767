// The turn: waiting for it, taking it, and the object's answer.
ghost use Rattle.std.specs.Prelude.{◌≡◌, ◌+◌, ◌*◌, ◌^◌, ◌<◌, ◌≤◌, ◌∷◌, ◌++◌, [], length};
ghost use Rattle.turn_lock.specs.History.{IsStep};
ghost use Rattle.turn_lock.specs.Holding.{IsFree, HasTurn, HoldsEnd, TookTurn};
ghost use Rattle.turn_lock.specs.Seats.{opening};

use crate::law::Take;
use crate::thing::Thing;
use crate::turns::Turns;
use crate::view::{Slot, View};
use std::hint::spin_loop;
use std::snapshot::Snapshot;
use std::sync::Wait;
use std::sync::atomic::Ordering::SeqCst;

pub type Token<T> = atomic_table::Seat<
    Slot<<T as Thing>::Call, <T as Thing>::Reply, T>,
    View<<T as Thing>::Call, <T as Thing>::Reply, T>,
>;

// The word at which no turn is taken any more: it stands for 2^62 entries.
const LAST: u64 = 1 << 63;

// How often a caller looks whether the turn was given back, before it sleeps.
const LOOKS: u32 = 100;

// Waits for the turn and takes it. Returns the word that stood there, which is even and below LAST.
pub fn take<T: Thing, R: Wait>(rt: &R, turns: &Turns<T>, token: &mut Token<T>) -> u64
    requires { IsFree turns.now token.old }
    ensures { HasTurn (IsStep T.fixed T.may_ask T.turned) turns.now token.old token.new result }
{
    let shared = &turns.table.shared;
    for _ in rt.forever() {
        let word = look(turns);
        if word % 2 == 0 && word < LAST {
            let found = shared.compare_exchange::<Take<T>>(token, 0, word, word + 1);
            if found == word {
                return word;
            }
        } else {
            sleep(rt, turns, word);
        }
    }
    unreachable!()
}

// The word, looked at until nobody has the turn, or LOOKS times more.
fn look<T: Thing>(turns: &Turns<T>) -> u64 {
    let mut word = turns.table.shared.peek(0);
    for _ in 0..LOOKS {
        if word % 2 == 0 {
            break;
        }
        spin_loop();
        word = turns.table.shared.peek(0);
    }
    word
}

// Sleeps until the turn is given back, as long as the word is this one.
fn sleep<T: Thing, R: Wait>(rt: &R, turns: &Turns<T>, word: u64) {
    turns.sleepers.fetch_add(1, SeqCst);
    turns.table.shared.park(rt, 0, (word % (1 << 32)) as u32);
    turns.sleepers.fetch_sub(1, SeqCst);
}

// Wakes one of those that sleep until the turn is given back, if there are any.
pub fn wake<T: Thing>(turns: &Turns<T>) {
    if turns.sleepers.load(SeqCst) != 0 {
        turns.table.shared.wake_one(0);
    }
}

// With the turn taken: asks the object, which stays in its slot. Returns its reply, and what the step that gives the turn back is to tell.
pub fn turn<T: Thing>(
    turns: &Turns<T>,
    token: &mut Token<T>,
    call: T::Call,
) -> (T::Reply, Slot<T::Call, T::Reply, T>)
    requires token { HoldsEnd (IsStep T.fixed T.may_ask T.turned) turns.now token.old }
    requires call { T.may_ask (T.fixed (opening turns.now)) call }
    ensures { TookTurn (IsStep T.fixed T.may_ask T.turned) turns.now token.old token.new call result.0 result.1 }
{
    let asked = Snapshot::of(&call);
    let Slot::Home(thing) = token.slot_mut(&turns.table.shared, 0) else {
        unreachable!()
    };
    let reply = thing.turn(call);
    let answered = Snapshot::of(&reply);
    (reply, Slot::Told(asked, answered))
}
