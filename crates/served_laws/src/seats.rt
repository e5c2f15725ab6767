//! What follows for the seats at the turns of a server's repository. No function here has code: its contract is the law.
ghost use Rattle.std.specs.Prelude.{◌≡◌, Option};
ghost use Rattle.outside.specs.Moments.{Moments};
ghost use Rattle.repo_model.specs.Settings.{Settings};
ghost use Rattle.repo_course.specs.Cleaning.{Store};
ghost use Rattle.store_check.specs.Checking.{Recorded};
ghost use Rattle.repo_run.specs.Begun.{Begins};
ghost use Rattle.turn_lock.specs.History.{IsStep, end_of};
ghost use Rattle.turn_lock.specs.Seats.{carried, opening, seen, Closes, IsNoteOf, IsSeatOf};
ghost use Rattle.turn_seats.specs.Ending.{Ended};
ghost use Rattle.seat_laws.specs.Closing.{SeesAll};

use outside::{Clock, Held};
use repo_core::Core;
use row_tables::Records;
use turn_lock::Thing;
use turn_seats::Repository;

/// What any seat at the turns of a repository has seen, whoever made the calls, what a note carries, and the whole history with which
/// a seat closes or all seats end, keeps the laws of the repository, as `seats_see_closed_histories` of `seat_laws` says, where the
/// turns began with the repository as a start over records and blobs opened it: that it was opened is all that is asked.
pub fn seats_of_repositories_see_closed_histories<K: Records, C: Clock, H: Held>()
    ensures seat { (settings : Settings) (records : Recorded) (old new : Store) (clock : Option Moments) (turns : _) (seat : _) →
        Begins settings records old new clock (opening turns) →
        IsSeatOf (IsStep ⟦<Core<K, C, H> as Thing>⟧.fixed ⟦<Core<K, C, H> as Thing>⟧.may_ask ⟦<Core<K, C, H> as Thing>⟧.turned) turns seat →
        SeesAll ⟦<Core<K, C, H> as Repository>⟧.sight (opening turns) (seen seat) }
    ensures note { (settings : Settings) (records : Recorded) (old new : Store) (clock : Option Moments) (turns : _) (note : _) →
        Begins settings records old new clock (opening turns) →
        IsNoteOf (IsStep ⟦<Core<K, C, H> as Thing>⟧.fixed ⟦<Core<K, C, H> as Thing>⟧.may_ask ⟦<Core<K, C, H> as Thing>⟧.turned) turns note →
        SeesAll ⟦<Core<K, C, H> as Repository>⟧.sight (opening turns) (carried note) }
    ensures close { (settings : Settings) (records : Recorded) (old new : Store) (clock : Option Moments) (turns : _) (seat : _) (thing : _) (calls : _) →
        Begins settings records old new clock (opening turns) →
        Closes (IsStep ⟦<Core<K, C, H> as Thing>⟧.fixed ⟦<Core<K, C, H> as Thing>⟧.may_ask ⟦<Core<K, C, H> as Thing>⟧.turned) turns seat thing calls →
        SeesAll ⟦<Core<K, C, H> as Repository>⟧.sight (opening turns) (seen seat) × (thing ≡ end_of (opening turns) (seen seat)) }
    ensures end { (settings : Settings) (records : Recorded) (old new : Store) (clock : Option Moments) (turns : _) (seat : _) (others : _) (thing : _) (calls : _) →
        Begins settings records old new clock (opening turns) →
        (ended : Ended (IsStep ⟦<Core<K, C, H> as Thing>⟧.fixed ⟦<Core<K, C, H> as Thing>⟧.may_ask ⟦<Core<K, C, H> as Thing>⟧.turned) turns seat others thing calls) →
        SeesAll ⟦<Core<K, C, H> as Repository>⟧.sight (opening turns) ended.log × (thing ≡ end_of (opening turns) ended.log) }
{}
