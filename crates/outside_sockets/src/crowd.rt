//! How many desks wait, and how many connections there are: what a desk knows of the others.
use crate::limits::{LONGEST_RUN, RUN, most_open};
use std::alloc::{AllocError, Global};
use std::sync::Arc;
use std::sync::atomic::{AtomicU64, Ordering};

/// Counts that all desks of a server share.
#[derive(Drop)]
pub struct Crowd {
    most: u64,
    desks: AtomicU64,
    waiting: AtomicU64,
    open: AtomicU64,
    warm: AtomicU64,
}

impl Crowd {
    /// Nobody yet.
    pub fn new(alloc: Global) -> Result<Arc<Crowd, Global>, AllocError> {
        Ok(Arc::new(
            alloc,
            Crowd {
                most: most_open(),
                desks: AtomicU64::new(0),
                waiting: AtomicU64::new(0),
                open: AtomicU64::new(0),
                warm: AtomicU64::new(0),
            },
        )?)
    }

    /// One desk more.
    pub fn add_desk(&self) {
        self.desks.fetch_add(1, Ordering::SeqCst);
    }

    /// A desk begins to wait for a connection.
    pub fn begin_wait(&self) {
        self.waiting.fetch_add(1, Ordering::SeqCst);
    }

    /// Whether a desk waits.
    pub fn is_anyone_waiting(&self) -> bool {
        self.waiting.load(Ordering::SeqCst) != 0
    }

    /// It has one, or looks around.
    pub fn end_wait(&self) {
        self.waiting.fetch_sub(1, Ordering::SeqCst);
    }

    /// A connection was accepted. It is warm.
    pub fn add_link(&self) {
        self.open.fetch_add(1, Ordering::SeqCst);
        self.warm.fetch_add(1, Ordering::SeqCst);
    }

    /// So many were closed.
    pub fn end_links(&self, count: u64) {
        self.open.fetch_sub(count, Ordering::SeqCst);
    }

    /// One that was cold has bytes.
    pub fn warm_up(&self) {
        self.warm.fetch_add(1, Ordering::SeqCst);
    }

    /// So many are cold, or were closed.
    pub fn cool_down(&self, count: u64) {
        self.warm.fetch_sub(count, Ordering::SeqCst);
    }

    /// One was closed that is warm.
    pub fn end_link(&self) {
        self.end_links(1);
        self.cool_down(1);
    }

    /// Whether as many connections are open as may be.
    pub fn is_full(&self) -> bool {
        self.open.load(Ordering::SeqCst) >= self.most
    }

    /// Whether a run of so many requests is to end before the next one. As long as another desk waits no connection with bytes
    /// can want this one. Else others may, where more connections than desks have had bytes in the last seconds, so that the run
    /// ends at once; and one that was quiet for longer waits for the end of a run.
    pub fn ends_run(&self, served: u64) -> bool {
        if served >= LONGEST_RUN {
            return true;
        }
        self.waiting.load(Ordering::SeqCst) == 0
            && (served >= RUN
                || self.warm.load(Ordering::SeqCst) > self.desks.load(Ordering::SeqCst))
    }
}
