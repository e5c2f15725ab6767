ghost use Rattle.std.specs.Prelude.{◌≡◌, None, IfOk, IfSome, IsTrue, OnOk};
ghost use Rattle.record_disk.specs.Disk.{After, Sync, content, Told};
ghost use Rattle.record_log.specs.Frames.{frames, end_of};
ghost use Rattle.row_tables.specs.Items.{are_of};
ghost use Rattle.row_tables.specs.declared.version.Version.TheVariants.{Second};
ghost use Rattle.row_tables.specs.Recorded.{IsBuiltUp};
ghost use Rattle.row_tables.specs.Records.{HasLoadCause, IsRefusal, LoadsUnlessFailed};
ghost use Rattle.row_tables.specs.Leaving.{Leaves, MayTake, end_of as ended_by};
ghost use Rattle.record_journal.specs.Journal.{expected_of, tables_of, unsettled_of, shown_of, KeepsTables, MayCommit, Recovers, Frames, Commits, IsStill};

use crate::committing::commit_change;
use crate::reloading::load_log;
use record_disk::Disk;
use record_log::Log;
use row_tables::{Change, CommitFault, LoadFault, Records, Tables};
use std::alloc::Global;
use std::marker::Model;

/// Records in one file of a disk. The change of a commit that failed stays pending until the next commit or load has taken
/// it off the file.
#[derive(Drop)]
pub struct Journal<D: Disk> {
    log: Log<D>,
}

impl<D: Disk> Model for Journal<D> {
    ghost use Rattle.record_log.specs.Log.{LogState};
    ghost use Rattle.record_log.specs.Codes.{log_code};

    ghost Value = { LogState };

    ghost coded = { log_code };

    ghost use Rattle.record_journal.specs.Journal.{IsSteady};

    ghost view = { λ j. j.log };

    ghost invariant = { λ j. IsSteady j.log };
}

impl<D: Disk> Journal<D> {
    /// A journal over a file, which is to be loaded.
    pub fn new(disk: D) -> Journal<D>
        ensures { (result.trace ≡ D.trace disk) × (result.faults ≡ D.faults disk) × (result.gate ≡ 0) × (result.pending ≡ None) }
    {
        Journal {
            log: Log::new(disk),
        }
    }

    /// The disk, lent.
    pub fn disk(&self) -> &D
        ensures { (D.trace result.now ≡ self.now.trace) × (D.faults result.now ≡ self.now.faults) }
    {
        self.log.disk()
    }
}

impl<D: Disk> Records for Journal<D> {
    ghost shows = { shown_of };

    ghost loading = { expected_of };

    fn load(&mut self, alloc: Global) -> Result<Tables, LoadFault>
        ensures cause { HasLoadCause self.old.faults self.new.faults result }
        ensures told { IfOk result (λ t. IfSome (tables_of self.old) (λ told. t ≡ told)) }
        ensures built { IfOk result IsBuiltUp }
        ensures refused { IsRefusal result → tables_of self.old ≡ None }
        ensures ready { OnOk result (MayCommit self.new) }
        ensures undone { OnOk result (self.new.pending ≡ None) }
        ensures settled { OnOk result ((unsettled_of self.new).pending ≡ None) }
        ensures same { tables_of self.new ≡ tables_of self.old }

        // The tables and the refusals are those of the file's frames.
        ensures loads { IfSome (expected_of self.old) (λ expected. LoadsUnlessFailed expected result) }

        // A file that it refuses was synced, and is neither written nor cut.
        ensures left { IsRefusal result → Told self.old.trace self.new.trace (λ s t. t ≡ After Sync (content s) s) }

        // A crash at each moment of the call leaves a file that loads to the same tables, or to these with the pending change.
        ensures crash { Told self.old.trace self.new.trace (KeepsTables (tables_of self.old) self.old.pending self.new.pending) }
        ensures first { self.old.pending ≡ None → Told self.old.trace self.new.trace Recovers }

        // It adds no frame, and a file that ends as it should is synced alone.
        ensures gate { OnOk result (self.old.pending ≡ None → IfSome self.old.trace (λ s. self.new.gate ≡ end_of (frames (content s)))) }
        ensures still { self.old.pending ≡ None → Told self.old.trace self.new.trace IsStill }
    {
        load_log(alloc, &mut self.log)
    }

    fn commit(&mut self, alloc: Global, change: &Change) -> Result<(), CommitFault>
        requires whole { IsTrue (are_of Second change.now) }
        requires records { MayTake change.now (shown_of self.old) }
        ensures records { Leaves change.now (ended_by result) (shown_of self.old) (shown_of self.new) }

        // A crash at a moment of the call leaves a file that loads to the tables from before it, or to these with the change that
        // was pending, until that one is undone; from then on to the tables from before, or to these with the change.
        ensures crash { Told self.old.trace self.new.trace (Commits (tables_of self.old) self.old.pending change.now) }

        // What becomes of its frame.
        ensures frame { Frames change.now (ended_by result) self.old self.new }
    {
        // Its contract says that these are a change.
        let _ = change.items();
        commit_change(alloc, &mut self.log, change)
    }

    ghost rests = { λ j ready. ready.rests };
}
