//! What documents named, across a crash. No function here has code: its contract is the law.
ghost use Rattle.std.specs.Prelude.{◌≡◌, List, Option};
ghost use Rattle.outside.specs.Moments.{Moments};
ghost use Rattle.repo_model.specs.History.{Entry, Legal};
ghost use Rattle.repo_model.specs.Settings.{Settings};
ghost use Rattle.repo_model.specs.State.{State};
ghost use Rattle.repo_model.specs.Tables.{Tables};
ghost use Rattle.repo_laws.specs.Holds.{Holds, InOrder, told, with_items};
ghost use Rattle.repo_laws.specs.Sound.{AreNamedApart, IsSound};
ghost use Rattle.crash_laws.specs.Crashes.{IsLeft};
ghost use Rattle.repo_course.specs.Serving.{AllTell};
ghost use Rattle.repo_course.specs.Cleaning.{Store};
ghost use Rattle.store_check.specs.Checking.{Recorded};
ghost use Rattle.repo_run.specs.Begun.{Begins};
ghost use Rattle.turn_lock.specs.History.{IsStep, Legal as AreCalls};
ghost use Rattle.running_laws.specs.Named.{FrontShows, LaterShow, NamesOutlast};

use outside::{Clock, Held};
use repo_core::Core;
use row_tables::Records;
use turn_lock::Thing;
use turn_seats::Repository;

/// Whatever tables a crash of a run leaves, at any of its moments, are those of a front of its entries, and what documents of this front named, later
/// runs over them show, in time. Where the tables are those of all entries, as where nothing is pending between two calls, it is what any document
/// named.
pub fn named_files_outlast_crashes<H: Held>()
    ensures fronts { (settings : Settings) (start : State) (t u : Tables) (entries : List Entry) → AreNamedApart settings.hosted → IsSound settings start → InOrder t → Holds t start →
        Legal settings start entries → IsLeft settings start t entries u → FrontShows (AllTell H.bytes) settings start entries u }
    ensures all { (settings : Settings) (start : State) (t u : Tables) (entries : List Entry) → AreNamedApart settings.hosted → IsSound settings start → InOrder t → Holds t start →
        Legal settings start entries → u ≡ with_items t (told settings start entries) → LaterShow (AllTell H.bytes) settings start entries u }
{}

/// Of a server that runs, between two calls, with no change pending: a crash now leaves tables over which later runs show what any document of its one history
/// named, in time.
pub fn named_files_outlast_crashes_between_calls<K: Records, C: Clock, H: Held>()
    ensures { (settings : Settings) (records : Recorded) (old new : Store) (clock : Option Moments) (x : _) (log : _) →
        Begins settings records old new clock x →
        AreCalls (IsStep ⟦<Core<K, C, H> as Thing>⟧.fixed ⟦<Core<K, C, H> as Thing>⟧.may_ask ⟦<Core<K, C, H> as Thing>⟧.turned) x log →
        NamesOutlast (AllTell H.bytes) ⟦<Core<K, C, H> as Repository>⟧.sight settings records x log }
{}
