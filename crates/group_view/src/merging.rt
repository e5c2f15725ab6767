//! The document of a group.
ghost use Rattle.std.specs.Prelude.{◌≡◌, IfOk};
ghost use Rattle.mvn_metadata.specs.Document.{merge};

use mvn_metadata::{Doc, NoMemory};
use std::alloc::Global;

/// The documents that the members of a group have of one directory, in the order of the group, as one: the first one's
/// coordinates, all versions, for each classifier and extension the newest build, of equal ones the first, and the greatest
/// `lastUpdated` and newest build. None where no member has one.
pub fn merged(alloc: Global, docs: &[Doc]) -> Result<Option<Doc>, NoMemory>
    ensures { IfOk result (λ doc. doc ≡ merge docs.now) }
{
    if docs.is_empty() {
        return Ok(None);
    }
    Ok(Some(mvn_metadata::merge(alloc, docs)?))
}
