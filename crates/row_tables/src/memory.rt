ghost use Rattle.std.specs.Prelude.{◌≡◌, ◌↔◌, ◌++◌, [], Some, Ok, OnOk, OnErr, IfOk, IsErrOf, Contains};
ghost use Rattle.outside_memory.specs.Script.{script_of};
ghost use Rattle.repo_model.specs.Tables.{applied, no_tables};
ghost use Rattle.row_tables.specs.Applying.{with_items};
ghost use Rattle.row_tables.specs.Leaving.{HasCause, end_of};
ghost use Rattle.row_tables.specs.Recorded.{IsBuiltUp};
ghost use Rattle.row_tables.specs.Crashes.{nothing_unsettled};
ghost use Rattle.row_tables.specs.Records.{HasLoadCause, LoadsUnlessFailed, script_after_commit, script_after_load};

use crate::change::Change;
use crate::copies::copied_items;
use crate::faults::{ApplyFault, CommitFault, LoadFault};
use crate::records::Records;
use crate::tables::Tables;
use outside_memory::FaultScript;
use repo_model::Item;
use std::alloc::Global;
use std::marker::Model;

/// Records in memory, whose calls fail as a script says.
#[derive(Drop)]
pub struct MemRecords {
    items: Vec<Item>,
    script: FaultScript,
}

impl Model for MemRecords {
    ghost use Rattle.row_tables.specs.Records.{MemState};

    ghost Value = { MemState };

    ghost use Rattle.row_tables.specs.Recorded.{AreRecorded};

    ghost view = { λ m. record { items = m.items.items; script = m.script } };

    ghost invariant = { λ m. AreRecorded m.items.items };
}

impl MemRecords {
    /// Nothing is recorded; the calls with these numbers fail, in any order. Loads and commits are counted together, from 0 on.
    pub fn new(alloc: Global, failing: Vec<u64>) -> MemRecords
        ensures { result ≡ record { items = []; script = script_of failing.items } }
    {
        MemRecords {
            items: Vec::new(alloc),
            script: FaultScript::failing_at(failing),
        }
    }

    /// The items that were committed.
    pub fn items(&self) -> &[Item]
        ensures { result.now ≡ self.now.items }
    {
        self.items.as_slice()
    }
}

impl Records for MemRecords {
    ghost shows = { λ m. record {
      tables = Some (with_items no_tables m.items);
      faults = m.script.faults;
      unsettled = nothing_unsettled;
      IsReady = Unit {0};
    } };

    ghost loading = { λ m. Some (Ok (with_items no_tables m.items)) };

    ghost rests = { λ m ready t told. tt };

    fn load(&mut self, alloc: Global) -> Result<Tables, LoadFault>
        ensures cause { HasLoadCause self.old.script.faults self.new.script.faults result }
        ensures when { IsErrOf result LoadFault.Failed ↔ Contains self.old.script.failing self.old.script.calls }
        ensures built { IfOk result IsBuiltUp }
        ensures loads { LoadsUnlessFailed (Ok (with_items no_tables self.old.items)) result }
        ensures after { self.new ≡ record self.old { script = script_after_load self.old.script result } }
    {
        if self.script.next_call().is_err() {
            return Err(LoadFault::Failed);
        }
        let mut tables = Tables::new(alloc);
        match tables.apply_items(alloc, &self.items) {
            Ok(()) => Ok(tables),
            Err(ApplyFault::NoMemory) => Err(LoadFault::NoMemory),
            Err(ApplyFault::Misfit { item }) => Err(LoadFault::Row { frame: item, at: 0 }),
        }
    }

    fn commit(&mut self, alloc: Global, change: &Change) -> Result<(), CommitFault>
        requires fits { applied (with_items no_tables self.old.items) change.now ≡ Ok (with_items (with_items no_tables self.old.items) change.now) }
        ensures cause { HasCause (end_of result) self.old.script.faults self.new.script.faults }
        ensures when { IsErrOf result CommitFault.Failed ↔ Contains self.old.script.failing self.old.script.calls }
        ensures ok { OnOk result (self.new.items ≡ self.old.items ++ change.now) }
        ensures err { OnErr result (self.new.items ≡ self.old.items) }
        ensures script { self.new.script ≡ script_after_commit self.old.script result }
    {
        if self.script.next_call().is_err() {
            return Err(CommitFault::Failed);
        }
        let mut items = copied_items(alloc, change.items())?;
        self.items.append(&mut items)?;
        Ok(())
    }
}
