//! What holds of the definitions for all paths and moments and of each value of this crate's types, and worked paths, as
//! contracts of functions that do nothing.
ghost use Rattle.std.specs.Prelude.{◌≡◌, IsTrue};
ghost use Rattle.mvn_coords.specs.Calendar.{IsCalendar};
ghost use Rattle.mvn_coords.specs.Civil.{IsExactText, is_civil};
ghost use Rattle.mvn_coords.specs.FileName.{is_build_number};
ghost use Rattle.mvn_coords.specs.Kind.{IsExact};
ghost use Rattle.mvn_coords.specs.Path.{IsDirectory};
ghost use Rattle.mvn_coords.specs.Worked.{WorkedPaths};

use crate::{Build, Dir, Stamp};

/// A path is the one path of what it names, and a side file's path without its suffix names the file or document that
/// it stands beside.
pub fn exact_paths()
    ensures { IsExact }
{}

/// Kinds of paths, written out.
pub fn worked_paths()
    ensures { WorkedPaths }
{}

/// Reading and writing a stamp's text are each other's inverse.
pub fn exact_stamps()
    ensures { IsExactText }
{}

/// Each moment of the years 1970 to 9999 has one civil time in UTC, and no two have the same.
pub fn exact_moments()
    ensures calendar { IsCalendar }
    ensures last { Stamp.LAST_MOMENT ≡ 253_402_207_200 }
{}

/// A stamp is a civil time.
pub fn stamp_is_civil(stamp: Stamp)
    ensures { IsTrue (is_civil stamp) }
{}

/// A build's stamp is a civil time, and its number from 1 to 999,999,999.
pub fn build_is_fit(build: Build)
    ensures stamp { IsTrue (is_civil build.stamp) }
    ensures number { IsTrue (is_build_number build.number) }
{
    stamp_is_civil(build.stamp());
}

/// A directory has a document by the path rule.
pub fn directory_is_ruled(dir: &Dir<'_>)
    ensures { IsDirectory dir.now }
{
    let _path = dir.path();
}
