// One object, its word and the history of its calls.
ghost use Rattle.std.specs.Prelude.{◌≡◌};

use crate::law::Law;
use crate::thing::Thing;
use crate::view::{Slot, View};
use atomic_table::Table;
use std::alloc::Global;
use std::snapshot::Snapshot;
use std::sync::atomic::AtomicU64;

/// An object that any number of threads call in turn, each through a seat of its own. It may be shared where the object may go to another thread. `close` gives the object back.
#[derive(Drop)]
pub struct Turns<T: Thing> {
    pub(crate) table: Table<
        Slot<T::Call, T::Reply, T>,
        View<T::Call, T::Reply, T>,
        Snapshot<T>,
        Law<T>,
        Global,
    >,
    // How many threads sleep until the turn is given back, or are about to. Only where there is one does a call wake.
    pub(crate) sleepers: AtomicU64,
    pub(crate) ghost sized: { (table.shared.table_id.words ≡ 1) × (table.shared.table_id.slots ≡ 1) },
}
