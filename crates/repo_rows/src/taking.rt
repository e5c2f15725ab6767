ghost use Rattle.std.specs.Prelude.{◌≡◌};
ghost use Rattle.repo_rows.specs.Given.{GivesRows};
ghost use Rattle.row_tables.specs.Reading.{taken};

use crate::faults::{ReadFault, RowFault};
use crate::items::read_change;
use row_tables::Change;
use std::alloc::Global;

/// How many bytes a change has at most.
const MOST: usize = 4_294_967_295;

/// The change that bytes begin with, and how many of them it takes. Time and memory are linear in what is read: no
/// memory is taken for items that are only announced.
pub fn take(alloc: Global, bytes: &[u8]) -> Result<(Change, usize), RowFault>
    ensures { GivesRows (λ x. (x.0, x.1)) result (taken bytes.now) }
{
    let seen = &bytes[..bytes.len().min(MOST)];
    match read_change(alloc, seen) {
        Ok((items, rest)) => Ok((Change::of(items), seen.len().saturating_sub(rest.len()))),
        Err(ReadFault::NoMemory) => Err(RowFault::NoMemory),
        Err(ReadFault::Refused(left)) => Err(RowFault::BadField {
            at: seen.len().saturating_sub(left) as u64,
        }),
    }
}
