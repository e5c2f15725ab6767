//! One run with the objects that its words have.
ghost use Rattle.std.specs.Prelude.{◌<◌, vec_len};

use outside::{Blobs, Clock, Port, Sink, Source};
use outside_pace::Pace;
use outside_remote::Remote;
use row_tables::Records;
use run_desks::{Cleaner, Desk};
use run_serve::run;
use std::alloc::Global;
use std::sync::Wait;
use std::thread::Threads;

/// The status of a run with these objects. What is promised of it stands at `run`; it is left there, so that it is not read for each
/// kind of objects once more.
pub fn status_of_run<
    P: Port + Drop + Send,
    B: Blobs + Drop + Send,
    R: Remote + Drop + Send,
    Q: Pace + Drop + Send,
    K: Records + Drop + Send,
    C: Clock + Drop + Send,
    S: Source,
    O: Sink,
    W: Threads + Wait + Sync,
>(
    threads: &W,
    alloc: Global,
    words: &[String],
    settings: &mut S,
    desks: Vec<Desk<P, B, R>>,
    cleaner: Cleaner<B, Q>,
    records: K,
    clock: C,
    out: &mut O,
) -> u8
where
    P::Link: Send,
    B::Held: Send,
    B::Pen: Send,
    requires { 0 < vec_len desks }
{
    run(
        threads, alloc, words, settings, desks, cleaner, records, clock, out,
    )
    .status
}
