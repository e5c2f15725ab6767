// The rule of the word, the slot and the views, what each step tells its seat, and how views are split and joined.
use crate::thing::Thing;
use crate::view::{Slot, View};
use atomic_table::{Join, Play, Split, TableRule};
use std::marker::{Brand, PhantomData};
use std::snapshot::Snapshot;

// The rule that every step keeps.
pub struct Law<T> {
    marker: PhantomData<T>,
}

impl<T: Thing> TableRule<Slot<T::Call, T::Reply, T>, View<T::Call, T::Reply, T>, Snapshot<T>>
    for Law<T> {
    ghost use Rattle.turn_lock.specs.History.{IsStep};
    ghost use Rattle.turn_lock.specs.Rule.{Lawful};
    ghost use Rattle.turn_lock.specs.Views.{first_view};

    ghost holds = { λ key. Lawful (IsStep T.fixed T.may_ask T.turned) key.value };

    ghost first = { λ key. first_view key.value };
}

// A load of the word, at which the history is seen as far as it goes.
pub struct Look<T> {
    marker: PhantomData<T>,
}

impl<T: Thing> Play<Slot<T::Call, T::Reply, T>, View<T::Call, T::Reply, T>> for Look<T> {
    ghost use Rattle.turn_lock.specs.History.{IsStep};
    ghost use Rattle.turn_lock.specs.Plays.{Looks};

    ghost then = { λ st m n w. Looks (IsStep T.fixed T.may_ask T.turned) m w };
}

// A load of the word, at which the next number is drawn for a new seat.
pub struct Draw<T> {
    marker: PhantomData<T>,
}

impl<T: Thing> Play<Slot<T::Call, T::Reply, T>, View<T::Call, T::Reply, T>> for Draw<T> {
    ghost use Rattle.turn_lock.specs.Plays.{Draws};

    ghost then = { λ st m n w. Draws m w };
}

// The exchange that takes the turn.
pub struct Take<T> {
    marker: PhantomData<T>,
}

impl<T: Thing> Play<Slot<T::Call, T::Reply, T>, View<T::Call, T::Reply, T>> for Take<T> {
    ghost use Rattle.turn_lock.specs.History.{IsStep};
    ghost use Rattle.turn_lock.specs.Plays.{Takes};

    ghost then = { λ st m n w. Takes (IsStep T.fixed T.may_ask T.turned) st m n w };
}

// The exchange that gives the turn back, with an entry of what it tells.
pub struct Give<T> {
    marker: PhantomData<T>,
}

impl<T: Thing> Play<Slot<T::Call, T::Reply, T>, View<T::Call, T::Reply, T>> for Give<T> {
    ghost use Rattle.turn_lock.specs.Plays.{Gives};

    ghost then = { λ st m n w. Gives st m w };
}

// How many parts go to a new seat. It is a number of the proofs alone, which `split` picks at its call.
pub trait Amount {
    ghost use Rattle.std.specs.Prelude.{ℕ};

    ghost amount: { ℕ };
}

impl Amount for Brand {
    ghost amount = { 1 };
}

// A seat is split off with so many parts and the number that was drawn.
pub struct Cut<A> {
    marker: PhantomData<A>,
}

impl<C, R, T, A: Amount> Split<View<C, R, T>> for Cut<A> {
    ghost use Rattle.turn_lock.specs.Views.{without, offshoot};

    ghost left = { λ v. without A.amount v };

    ghost right = { λ v. offshoot A.amount v };
}

// A note is split off.
pub struct Slip;

impl<C, R, T> Split<View<C, R, T>> for Slip {
    ghost use Rattle.turn_lock.specs.Views.{noted, slip};

    ghost left = { λ v. noted v };

    ghost right = { λ v. slip v };
}

// A seat or a note is taken in.
pub struct Both;

impl<C, R, T> Join<View<C, R, T>> for Both {
    ghost use Rattle.turn_lock.specs.Views.{both, spent};

    ghost both = { λ v w. both v w };

    ghost spent = { spent };
}
