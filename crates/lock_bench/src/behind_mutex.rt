use crate::counter::Counter;
use std::alloc::{AllocError, Global};
use std::sync::{Mutex, Wait};
use std::thread::Threads;
use thread_jobs::{Job, run_all};

// So many calls, each under the lock.
#[derive(Drop)]
struct Caller<'a> {
    lock: &'a Mutex<Counter>,
    calls: u64,
}

impl Job for Caller<'_> {
    type Out = ();

    ghost ready = { λ job. Unit {0} };

    ghost gives = { λ job out. Unit {0} };

    fn run<R: Wait>(self, rt: &R) {
        for _ in 0..self.calls {
            self.lock.lock(rt).add(1);
        }
    }
}

/// The count after so many calls of each of so many threads and of this one.
pub fn count<R: Threads + Wait + Sync>(
    rt: &R,
    alloc: Global,
    others: usize,
    calls: u64,
) -> Result<u64, AllocError> {
    let lock = Mutex::new(Counter::new());
    let mut jobs = Vec::with_capacity(alloc, others)?;
    for _ in 0..others {
        jobs.push(Caller { lock: &lock, calls })?;
    }
    let last = Caller { lock: &lock, calls };
    run_all(rt, jobs, last, Vec::with_capacity(alloc, others)?);
    Ok(lock.into_inner().count)
}
