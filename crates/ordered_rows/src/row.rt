//! The rows of a repository.
ghost use Rattle.std.specs.Prelude.{◌≡◌, ◌≤◌};
ghost use Rattle.repo_model.specs.History.{latest_moment};

use outside::{Held, Parcel};
use repo_model::Print;

/// A row is visible, or unlisted since a moment and kept until the grace period is over.
#[derive(Clone, Copy, Debug)]
pub enum Phase {
    Listed,
    Fading(u64),
}

/// A deployed file: its blob, the moment at which it was accepted, in seconds since 1970 in UTC, and whether it is visible.
#[derive(Drop)]
pub struct Row<H: Held> {
    pub parcel: Parcel<H>,
    pub accepted: u64,
    pub phase: Phase,
    pub ghost in_time: { accepted ≤ latest_moment },
}
