//! How long a peer has had the server wait inside a request, and whether that is too long.
use crate::limits::{GRACE, QUIET, SLICE, SPEED};
use std::time::{Clock, Instant};

/// What a request's body and its answer have cost so far.
#[derive(Clone, Copy)]
pub struct Effort {
    // How long reads and writes took, in microseconds.
    waited: u64,
    // How long it is that one of them moved a byte.
    quiet: u64,
    // How many bytes they moved.
    moved: u64,
}

/// The moment, where the clock can be read.
pub fn moment(timer: &impl Clock) -> Option<Instant> {
    Instant::now(timer).ok()
}

// How many microseconds have passed since then.
fn passed(timer: &impl Clock, since: Option<Instant>) -> u64 {
    let Some(since) = since else {
        return 0;
    };
    match since.elapsed(timer) {
        Ok(time) => u64::try_from(time.as_micros()).unwrap_or(u64::MAX),
        Err(_) => 0,
    }
}

impl Effort {
    /// Nothing yet.
    pub fn none() -> Effort {
        Effort {
            waited: 0,
            quiet: 0,
            moved: 0,
        }
    }

    /// With a call that began at this moment and moved so many bytes.
    pub fn with_moved(self, timer: &impl Clock, since: Option<Instant>, count: usize) -> Effort {
        Effort {
            waited: self.waited.saturating_add(passed(timer, since)),
            quiet: 0,
            moved: self.moved.saturating_add(count as u64),
        }
    }

    /// With a call that began at this moment and moved nothing as long as it may wait.
    pub fn with_silence(self, timer: &impl Clock, since: Option<Instant>) -> Effort {
        let passed = passed(timer, since).max(SLICE.saturating_mul(1_000));
        Effort {
            waited: self.waited.saturating_add(passed),
            quiet: self.quiet.saturating_add(passed),
            moved: self.moved,
        }
    }

    /// Whether nothing was moved for too long, or too little on average.
    pub fn is_too_much(&self) -> bool {
        let due = (self.waited / 1_000_000).saturating_mul(SPEED);
        self.quiet >= QUIET || (self.waited >= GRACE && self.moved < due)
    }
}
