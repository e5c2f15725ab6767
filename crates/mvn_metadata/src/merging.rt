//! Documents of one directory as one.
ghost use Rattle.std.specs.Prelude.{◌≡◌, ◌<◌, length, Some, IfOk};
ghost use Rattle.mvn_metadata.specs.Document.{merge};

use crate::{Doc, NoMemory};
use std::alloc::Global;

/// Documents of one directory, at least one, as one: the coordinates of the first, all versions, for each classifier
/// and extension the newest build, of equal ones the first, and the greatest `lastUpdated` and newest build. A document
/// of another kind than the first adds nothing.
pub fn merge(alloc: Global, docs: &[Doc]) -> Result<Doc, NoMemory>
    requires { 0 < length docs.now }
    ensures { IfOk result (λ d. merge docs.now ≡ Some d) }
{
    let mut whole = docs[0].blank(alloc)?;
    for doc in docs {
        whole = whole.with(alloc, doc)?;
    }
    Ok(whole)
}
