//! The settings of the demonstration.
ghost use Rattle.std.specs.Prelude.{◌≡◌, IfOk};
ghost use Rattle.demo_requests.specs.Settings as spec;

use crate::NoMemory;
use repo_config::{Settings, read};
use std::alloc::{AllocError, Global};

const TEXT: &[u8] = b"grace_seconds = 5\n\
    [[hosted]]\n\
    id = \"releases\"\n\
    releases = true\n\
    snapshots = false\n\
    [[hosted]]\n\
    id = \"snapshots\"\n\
    releases = false\n\
    snapshots = true\n\
    keep_count = 2\n\
    keep_days = 0\n\
    [[group]]\n\
    id = \"public\"\n\
    members = [\"releases\", \"snapshots\"]\n";

/// The hosted repositories `releases`, for releases alone, and `snapshots`, for snapshots alone, which keeps the two newest
/// builds of a version, and the group `public` of both, in this order. An unlisted file is answered for 5 seconds more.
pub fn settings(alloc: Global) -> Result<Settings, NoMemory>
    ensures { IfOk result (λ settings. settings ≡ spec.settings) }
{
    match read(alloc, TEXT) {
        Ok(settings) => Ok(settings),
        Err(_) => Err(AllocError),
    }
}
