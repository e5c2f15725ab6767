//! The numbers of the doorman and of connections, all of them.
use std::time::Duration;

/// How many connections are open at most: 900 that are idle, and one for each desk. One more closes one of those that have no
/// request under way: of those of which no byte has come since they were accepted the oldest, if they are more than are spared;
/// else the one that has waited longest for its next request or for the rest of a head; else the oldest silent one; and last those
/// that are being closed. The usual limit of a process is 1,024 descriptors.
pub const MOST_OPEN: u64 = 904;

/// How many connections of which no byte has come are spared: a client that has just come has a moment for its first bytes.
pub const SPARED: u64 = 8;

/// How many descriptors desks, blobs, records, remote servers and the listener need beside connections.
pub const OTHERS: u64 = 48;

/// How many connections may be open if there are hardly any descriptors: one for each desk, and as many that wait.
pub const LEAST_OPEN: u64 = 8;

/// How many connections are open at most, by the process's limit of descriptors.
pub fn most_open() -> u64 {
    let mut limit = libc::types::rlimit {
        rlim_cur: 0,
        rlim_max: 0,
    };
    if libc::getrlimit(libc::RLIMIT_NOFILE, &mut limit) != 0 {
        return LEAST_OPEN;
    }
    limit
        .rlim_cur
        .saturating_sub(OTHERS)
        .max(LEAST_OPEN)
        .min(MOST_OPEN)
}

/// How many places there are for connections that no desk has: one for each number of a descriptor.
pub const PLACES: usize = 4_096;

/// How long a connection is kept that has had an answer, in milliseconds.
pub const IDLE: u64 = 75_000;

/// How long a new one is kept of which no byte comes, in milliseconds.
pub const FIRST_BYTE: u64 = 10_000;

/// How long the bytes of a head may take in all, in milliseconds.
pub const WHOLE_HEAD: u64 = 10_000;

/// How long one that is being closed is listened to, in milliseconds.
pub const LINGER: u64 = 2_000;

/// How many bytes of it are dropped at most.
pub const MOST_DROPPED: usize = 16_777_216;

/// How often somebody looks for connections that were kept too long, in milliseconds.
pub const PATROL: u64 = 1_000;

/// How long a connection may be quiet until it counts no more among those that may want a desk, in milliseconds.
pub const COLD: u64 = 1_000;

/// How many requests of one connection are served before it goes back to the doorman, where no desk waits.
pub const RUN: u64 = 16;

/// The same where a desk waits: fewer than after which a served stream is closed.
pub const LONGEST_RUN: u64 = 500;

/// How many connections one call tells a desk of at most, if no other desk waits.
pub const BATCH: usize = 16;

/// How many connections a desk takes of the line at most before it asks the system again.
pub const LOOK: u64 = 16;

/// How long a desk waits for one request more, in milliseconds.
pub const PAUSE: u64 = 10;

/// How long a read or a write inside a request may move nothing, in microseconds.
pub const QUIET: u64 = 30_000_000;

/// How long such a call waits before that is looked at, in milliseconds.
pub const SLICE: u64 = 1_000;

/// How long a request's body and its answer may be waited for at any speed, in microseconds.
pub const GRACE: u64 = 10_000_000;

/// How many bytes have to be moved after that for each second that was waited for them, on average.
pub const SPEED: u64 = 4_096;

/// How long to wait where the system has no room for a connection more, in milliseconds.
pub const NO_ROOM: u64 = 100;

/// How many bytes of a connection are held before a desk has it: as many as a head may have.
pub const HEAD_BYTES: usize = 8_192;

/// That many milliseconds.
pub fn milliseconds(count: u64) -> Duration {
    Duration::from_millis(count)
}
