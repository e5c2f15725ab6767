ghost use Rattle.std.specs.Prelude.{None};
ghost use Rattle.row_tables.specs.Crashes.{nothing_unsettled};

use row_tables::{Change, CommitFault, LoadFault, Records, Tables};
use std::alloc::Global;

/// Records that keep nothing, so that what is measured is the repository alone.
#[derive(Drop)]
pub struct NoRecords;

impl Records for NoRecords {
    ghost shows = { λ _. record {
      tables = None;
      faults = 0;
      unsettled = nothing_unsettled;
      IsReady = Unit {0};
    } };

    ghost rests = { λ r ready t told. tt };

    fn load(&mut self, alloc: Global) -> Result<Tables, LoadFault> {
        Ok(Tables::new(alloc))
    }

    fn commit(&mut self, _alloc: Global, _change: &Change) -> Result<(), CommitFault> {
        Ok(())
    }
}
