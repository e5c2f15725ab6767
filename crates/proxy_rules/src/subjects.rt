//! What a side file belongs to.
ghost use Rattle.std.specs.Prelude.{◌≡◌};
ghost use Rattle.mvn_coords.specs.Kind.{kind};
ghost use Rattle.mvn_coords.specs.Path.{suffix_of};
ghost use Rattle.repo_model.specs.Proxies.{subject_of};

use byte_cuts::text::before;
use mvn_coords::{Kind, Side, kind_of};

// The end of a side file's path.
fn suffix_of(side: Side) -> &'static str
    ensures { result.now ≡ suffix_of side }
{
    match side {
        Side::Sha1 => ".sha1",
        Side::Md5 => ".md5",
        Side::Sha256 => ".sha256",
        Side::Sha512 => ".sha512",
    }
}

/// The path of the file or document that a path names, also by the path of its side file.
pub fn subject_of(path: &str) -> &str
    ensures { result.now ≡ subject_of path.now (kind path.now) }
{
    match kind_of(path) {
        Ok(Kind::FileSide(c, _)) => c.path(),
        Ok(Kind::DocSide(_, side)) => before(suffix_of(side), path).unwrap_or(path),
        Ok(Kind::File(_) | Kind::Doc(_)) | Err(_) => path,
    }
}
