//! What a run gives back.
use outside::{Blobs, Clock, Port};
use outside_pace::Pace;
use outside_remote::Remote;
use row_tables::Records;
use run_desks::{Cleaner, Desk};

/// What a run gives back: its status, and all objects, so that their counts of faults are seen.
#[derive(Drop)]
pub struct Ran<P: Port, B: Blobs, R: Remote, Q: Pace, K: Records, C: Clock> {
    pub status: u8,
    pub desks: Vec<Desk<P, B, R>>,
    pub cleaner: Cleaner<B, Q>,
    pub records: K,
    pub clock: C,
}

/// What a command gives back: its status, and the records and the clock.
#[derive(Drop)]
pub(crate) struct Ended<K: Records, C: Clock> {
    pub(crate) status: u8,
    pub(crate) records: K,
    pub(crate) clock: C,
}
