//! What outlasts a crash of a server that still runs. No function here has code: its contract is the law.
ghost use Rattle.std.specs.Prelude.{◌≡◌, Option};
ghost use Rattle.outside.specs.Moments.{Moments};
ghost use Rattle.repo_model.specs.Settings.{Settings};
ghost use Rattle.repo_course.specs.Cleaning.{Store};
ghost use Rattle.store_check.specs.Checking.{Recorded};
ghost use Rattle.repo_run.specs.Begun.{Begins};
ghost use Rattle.turn_lock.specs.History.{IsStep, Legal, end_of};
ghost use Rattle.turn_lock.specs.Seats.{carried, opening, seen, Closes, IsNoteOf, IsSeatOf};
ghost use Rattle.turn_seats.specs.Ending.{Ended};
ghost use Rattle.running_laws.specs.Seen.{CallsOutlast};
ghost use Rattle.running_laws.specs.Spared.{CallsSpare};

use outside::{Clock, Held};
use repo_core::Core;
use row_tables::Records;
use turn_lock::Thing;
use turn_seats::Repository;

/// The calls that lead to what any seat at the turns of a repository has seen, whoever made them, outlast crashes: so do those that a note
/// carries, and the whole history with which a seat closes or all seats end. It is asked only that the turns began with the repository as a
/// start over records and blobs opened it. Nothing is asked of what comes later: that the server ends, that the records are given back.
pub fn seats_outlast_crashes<K: Records, C: Clock, H: Held>()
    ensures calls { (settings : Settings) (records : Recorded) (old new : Store) (clock : Option Moments) (x : _) (log : _) →
        Begins settings records old new clock x →
        Legal (IsStep ⟦<Core<K, C, H> as Thing>⟧.fixed ⟦<Core<K, C, H> as Thing>⟧.may_ask ⟦<Core<K, C, H> as Thing>⟧.turned) x log →
        CallsOutlast ⟦<Core<K, C, H> as Repository>⟧.sight settings records x log }
    ensures seat { (settings : Settings) (records : Recorded) (old new : Store) (clock : Option Moments) (turns : _) (seat : _) →
        Begins settings records old new clock (opening turns) →
        IsSeatOf (IsStep ⟦<Core<K, C, H> as Thing>⟧.fixed ⟦<Core<K, C, H> as Thing>⟧.may_ask ⟦<Core<K, C, H> as Thing>⟧.turned) turns seat →
        CallsOutlast ⟦<Core<K, C, H> as Repository>⟧.sight settings records (opening turns) (seen seat) }
    ensures note { (settings : Settings) (records : Recorded) (old new : Store) (clock : Option Moments) (turns : _) (note : _) →
        Begins settings records old new clock (opening turns) →
        IsNoteOf (IsStep ⟦<Core<K, C, H> as Thing>⟧.fixed ⟦<Core<K, C, H> as Thing>⟧.may_ask ⟦<Core<K, C, H> as Thing>⟧.turned) turns note →
        CallsOutlast ⟦<Core<K, C, H> as Repository>⟧.sight settings records (opening turns) (carried note) }
    ensures close { (settings : Settings) (records : Recorded) (old new : Store) (clock : Option Moments) (turns : _) (seat : _) (thing : _) (calls : _) →
        Begins settings records old new clock (opening turns) →
        Closes (IsStep ⟦<Core<K, C, H> as Thing>⟧.fixed ⟦<Core<K, C, H> as Thing>⟧.may_ask ⟦<Core<K, C, H> as Thing>⟧.turned) turns seat thing calls →
        CallsOutlast ⟦<Core<K, C, H> as Repository>⟧.sight settings records (opening turns) (seen seat) × (thing ≡ end_of (opening turns) (seen seat)) }
    ensures end { (settings : Settings) (records : Recorded) (old new : Store) (clock : Option Moments) (turns : _) (seat : _) (others : _) (thing : _) (calls : _) →
        Begins settings records old new clock (opening turns) →
        (ended : Ended (IsStep ⟦<Core<K, C, H> as Thing>⟧.fixed ⟦<Core<K, C, H> as Thing>⟧.may_ask ⟦<Core<K, C, H> as Thing>⟧.turned) turns seat others thing calls) →
        CallsOutlast ⟦<Core<K, C, H> as Repository>⟧.sight settings records (opening turns) ended.log × (thing ≡ end_of (opening turns) ended.log) }
{}

/// In them a file is answered after a crash up to the first call that takes this very file away, or tries to: a Collect that takes others does not
/// count, nor one that finds it not due. One that failed counts where it was to take this file, since a crash may leave its change.
pub fn spared_files_outlast_crashes<K: Records, C: Clock, H: Held>()
    ensures calls { (settings : Settings) (records : Recorded) (old new : Store) (clock : Option Moments) (x : _) (log : _) →
        Begins settings records old new clock x →
        Legal (IsStep ⟦<Core<K, C, H> as Thing>⟧.fixed ⟦<Core<K, C, H> as Thing>⟧.may_ask ⟦<Core<K, C, H> as Thing>⟧.turned) x log →
        CallsSpare ⟦<Core<K, C, H> as Repository>⟧.sight settings records x log }
    ensures seat { (settings : Settings) (records : Recorded) (old new : Store) (clock : Option Moments) (turns : _) (seat : _) →
        Begins settings records old new clock (opening turns) →
        IsSeatOf (IsStep ⟦<Core<K, C, H> as Thing>⟧.fixed ⟦<Core<K, C, H> as Thing>⟧.may_ask ⟦<Core<K, C, H> as Thing>⟧.turned) turns seat →
        CallsSpare ⟦<Core<K, C, H> as Repository>⟧.sight settings records (opening turns) (seen seat) }
{}
