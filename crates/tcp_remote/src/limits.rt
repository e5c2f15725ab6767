//! How long an exchange may take.
use std::time::{Clock, Duration, Instant};

/// The most addresses of a host that are tried.
pub const MOST_ADDRESSES: usize = 4;

/// How many exchanges with a host and port must fail, one after another, before no further one is tried for a while.
pub const FAILURES: u32 = 2;

/// The most hosts and ports of which failures are known.
pub const MOST_TROUBLES: usize = 64;

/// How long the parts of an exchange may take, in milliseconds, and how long a host is left alone that fails.
#[derive(Clone, Copy)]
pub struct Limits {
    /// To reach one address of a host.
    pub connect: u64,
    /// For each write and each read.
    pub wait: u64,
    /// In all, from the time on when the addresses of the host are known.
    pub whole: u64,
    /// Until a host is tried again that failed in the last exchanges.
    pub pause: u64,
}

impl Limits {
    /// Five seconds to reach an address, ten for each write and each read, 30 in all, and a pause of 30.
    pub fn usual() -> Limits {
        Limits {
            connect: 5_000,
            wait: 10_000,
            whole: 30_000,
            pause: 30_000,
        }
    }
}

/// When an exchange was begun, and how long its parts may take.
#[derive(Drop)]
pub(crate) struct Deadline {
    begun: Instant,
    limits: Limits,
}

impl Deadline {
    /// From now on; none where the clock cannot be read.
    pub(crate) fn begin(timer: &impl Clock, limits: Limits) -> Option<Deadline> {
        let begun = Instant::now(timer).ok()?;
        Some(Deadline { begun, limits })
    }

    /// How long a connection may be waited for; none where the time is over.
    pub(crate) fn to_connect(&self, timer: &impl Clock) -> Option<Duration> {
        self.left(timer, self.limits.connect)
    }

    /// How long the next write or read may wait; none where the time is over.
    pub(crate) fn to_wait(&self, timer: &impl Clock) -> Option<Duration> {
        self.left(timer, self.limits.wait)
    }

    // At most so many milliseconds, and no more than are left of all.
    fn left(&self, timer: &impl Clock, most: u64) -> Option<Duration> {
        let spent = self.begun.elapsed(timer).ok()?;
        let left = Duration::from_millis(self.limits.whole).checked_sub(spent)?;
        let left = left.min(Duration::from_millis(most));
        if left.is_zero() { None } else { Some(left) }
    }
}
