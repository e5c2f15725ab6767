//! Places, and what their paths name.
ghost use Rattle.std.specs.Prelude.{◌≡◌, string_bytes, IfOk};
ghost use Rattle.repo_model.specs.Paths.{is_snapshot_path};

use crate::files::Place;
use mvn_coords::{Kind, kind_of};
use std::alloc::{AllocError, Global};
use texts::Text;

/// A place of its own memory.
pub fn new_place(alloc: Global, repo: &Text, path: &Text) -> Result<Place, AllocError>
    ensures { IfOk result (λ place. (string_bytes place.0 ≡ repo.now) × (string_bytes place.1 ≡ path.now)) }
{
    let repo = String::from_str(alloc, repo.as_str())?;
    let path = String::from_str(alloc, path.as_str())?;
    Ok((repo, path))
}

/// Whether a path is that of a file of a unique snapshot.
pub fn is_snapshot(path: &str) -> bool
    ensures { result ≡ is_snapshot_path path.now }
{
    match kind_of(path) {
        Ok(Kind::File(coord)) => coord.build().is_some(),
        _ => false,
    }
}
