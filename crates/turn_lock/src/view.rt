// What a seat knows, and what lies in the one slot, which is the object's.
use std::collections::LinkedList;
use std::snapshot::Snapshot;

/// One call of the history: the number of the seat that made it, what was asked and answered, and the object as the call left it. It stands in the proofs alone: no value of it is made.
pub struct Entry<C, R, T> {
    pub by: u64,
    pub call: C,
    pub reply: R,
    pub after: T,
}

/// What a seat or a note knows. It stands in the proofs alone: no value of it is made.
pub struct View<C, R, T> {
    /// The object as the history began.
    pub opening: Option<T>,
    /// Whether it has a number of its own, as a seat has and a note has not.
    pub named: bool,
    pub number: u64,
    /// 1 while it has the turn, else 0.
    pub turn: u64,
    /// The beginning of the history that was seen.
    pub seen: LinkedList<Entry<C, R, T>>,
    /// What the seat or note that was taken in last had seen.
    pub told: LinkedList<Entry<C, R, T>>,
    /// The entries of its own number.
    pub mine: LinkedList<Entry<C, R, T>>,
    /// The numbers of the seats that were joined to it, each with its entries. While a seat is being split off, the new one's number stands first.
    pub joined: LinkedList<(u64, LinkedList<Entry<C, R, T>>)>,
    /// How many numbers have been given, as far as it knows: they are those below this one.
    pub given: u64,
    /// Its parts of the right to close.
    pub parts: u64,
}

/// What lies in the object's slot, or is told in its stead by the step that gives the turn back.
#[derive(Drop)]
pub enum Slot<C, R, T> {
    /// The object. It stays there while it is asked, so that a call copies nothing of it.
    Home(T),
    /// What was asked and answered. It is told by the step that gives the turn back, and never lies in the slot.
    Told(Snapshot<C>, Snapshot<R>),
}
