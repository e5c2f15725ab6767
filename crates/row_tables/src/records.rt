//! Where changes are recorded.
ghost use Rattle.std.specs.Prelude.{◌≡◌, Option, None, IfOk, IfSome, OnOk, IsTrue};
ghost use Rattle.row_tables.specs.Items.{are_of};
ghost use Rattle.row_tables.specs.Recorded.{IsBuiltUp};
ghost use Rattle.row_tables.specs.Records.{Expected, HasLoadCause, IsRefusal, LoadsUnlessFailed};
ghost use Rattle.row_tables.specs.Leaving.{Leaves, MayTake, Shown, end_of};
ghost use Rattle.row_tables.specs.Crashes.{Rests};

use crate::change::Change;
use crate::faults::{CommitFault, LoadFault};
use crate::tables::Tables;
use crate::version::Version;
use std::alloc::Global;

/// A record of changes that outlasts the program.
pub trait Records {
    // The tables where they are told, how many calls have failed, which never falls, what a crash may leave beside the tables, and
    // whether changes may be committed: the last load has given the tables.
    ghost shows: { Self → Shown };

    // What a load gives that neither fails nor runs out of memory, where it is told.
    ghost loading: { Self → Option Expected } = { λ _. None };

    /// The tables that the committed changes build up. The records are refused where they are another's, or have a row
    /// that cannot be read or does not fit those before it; a refusal changes nothing.
    fn load(&mut self, alloc: Global) -> Result<Tables, LoadFault>
        ensures cause { HasLoadCause (shows self.old).faults (shows self.new).faults result }
        ensures told { IfOk result (λ t. IfSome ((shows self.old).tables) (λ told. t ≡ told)) }
        ensures built { IfOk result IsBuiltUp }
        ensures loads { IfSome (loading self.old) (λ expected. LoadsUnlessFailed expected result) }
        ensures refused { IsRefusal result → (shows self.old).tables ≡ None }
        ensures ready { OnOk result ((shows self.new).IsReady) }
        ensures settled { OnOk result ((shows self.new).unsettled.pending ≡ None) }
        ensures same { (shows self.new).tables ≡ (shows self.old).tables };

    /// Adds a change, each file of which has its SHA-256 and SHA-512. At `Ok` it is recorded for good, and no change whose commit failed is found any more. At an error the
    /// tables are as before, and stay so once a later commit or load succeeds. A crash at any moment of the call leaves what a crash before it or after it leaves.
    fn commit(&mut self, alloc: Global, change: &Change) -> Result<(), CommitFault>
        requires whole { IsTrue (are_of Version.Second change.now) }
        requires records { MayTake change.now (shows self.old) }
        ensures records { Leaves change.now (end_of result) (shows self.old) (shows self.new) }
        ensures settled { OnOk result ((shows self.new).unsettled.pending ≡ None) };

    // A crash between calls leaves the tables, or these with the change that is pending.
    ghost rests: { (r : Self) → (shows r).IsReady → Rests (shows r).tables (shows r).unsettled };
}
