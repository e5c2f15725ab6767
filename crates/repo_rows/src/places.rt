ghost use Rattle.std.specs.Prelude.{◌≡◌, length, take, IfOk};
ghost use Rattle.row_tables.specs.Items.{change_bytes};

use crate::writing::put_items;
use row_tables::Change;
use std::alloc::{AllocError, Global};

/// Where an item of a written change begins, items being counted from 0: after the change's first 5 bytes and the items in
/// front of it.
pub fn start_of(alloc: Global, change: &Change, item: u64) -> Result<u64, AllocError>
    ensures { IfOk result (λ at. at ≡ length (change_bytes (take item change.now))) }
{
    let items = change.items();
    let count = items.len().min(item as usize);
    let mut out = Vec::new(alloc);
    put_items(alloc, &mut out, &items[..count])?;
    Ok(out.len() as u64 + 5)
}
