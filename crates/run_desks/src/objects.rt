use outside::{Blobs, Port};
use outside_pace::Pace;
use outside_remote::Remote;

/// What one worker owns: a port that hands out connections, the blobs that it reads and stores, and the remotes that it fetches
/// from.
#[derive(Drop)]
pub struct Desk<P: Port, B: Blobs, R: Remote> {
    pub port: P,
    pub blobs: B,
    pub remote: R,
}

/// What a cleaning owns: the blobs from which it removes, and a timer that says when.
#[derive(Drop)]
pub struct Cleaner<B: Blobs, Q: Pace> {
    pub blobs: B,
    pub pace: Q,
}
