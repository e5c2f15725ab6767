//! The directories of artifacts that may have rows. They are never too few: so a directory that is not among them has no
//! document, and no row is looked at.
ghost use Rattle.std.specs.Prelude.{◌≡◌, ℕ, List, IsTrue, OnOk};
ghost use Rattle.std.specs.Option.{option_copied};
ghost use Rattle.ordered_rows.specs.Homes.{has_home, home_of, IsHomed};

use outside::NoMemory;
use std::alloc::Global;
use std::collections::BTreeSet;

/// The directory of a file's artifact: that above its version directory.
fn home_of(path: &str) -> Option<&str>
    ensures { option_copied result ≡ home_of path.now }
{
    let Some((directory, _)) = path.rsplit_once('/') else {
        return None;
    };
    match directory.rsplit_once('/') {
        Some((home, _)) => Some(home),
        None => None,
    }
}

/// Whether a directory is among these.
pub fn has_home(homes: &BTreeSet<String>, home: &str) -> bool
    ensures { result ≡ has_home homes.now.keys home.now }
{
    homes.contains(home)
}

/// Adds the directory of a path's artifact. Where it is among them already this takes no memory.
pub fn add_home(alloc: Global, homes: &mut BTreeSet<String>, path: &str) -> Result<(), NoMemory>
    ensures kept { (other : List ℕ) → IsHomed homes.old.keys other → IsHomed homes.new.keys other }
    ensures added { OnOk result (IsHomed homes.new.keys path.now) }
{
    let Some(home) = home_of(path) else {
        return Ok(());
    };
    if has_home(homes, home) {
        return Ok(());
    }
    let home = String::from_str(alloc, home)?;
    homes.insert(home)?;
    Ok(())
}
