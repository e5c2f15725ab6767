//! What a desk of a server that still runs has answered, after a crash. No function here has code: its contract is the law.
ghost use Rattle.std.specs.Prelude.{◌≡◌, [], Option, Some};
ghost use Rattle.outside.specs.Moments.{Moments};
ghost use Rattle.repo_model.specs.Settings.{Settings};
ghost use Rattle.repo_model.specs.Tables.{Tables};
ghost use Rattle.repo_course.specs.Cleaning.{Store};
ghost use Rattle.store_check.specs.Checking.{Recorded};
ghost use Rattle.repo_run.specs.Begun.{Begins};
ghost use Rattle.run_desks.specs.Seen.{looks};
ghost use Rattle.run_desks.specs.declared.objects.Desk.{Desk};
ghost use Rattle.turn_lock.specs.History.{IsStep, Legal};
ghost use Rattle.turn_lock.specs.Seats.{mine, opening};
ghost use Rattle.turn_seats.specs.Ending.{HoldsSeat};
ghost use Rattle.seat_server.specs.Rules.{rules};
ghost use Rattle.desk_work.specs.Visits.{Attended};
ghost use Rattle.running_laws.specs.Kept.{DeskKeeps};

use outside::{Blobs, Clock, Held, Port, Tells};
use outside_remote::Remote;
use repo_core::Core;
use row_tables::Records;
use turn_lock::Thing;
use turn_seats::Repository;

/// Of a desk of a server that need not end: what it has served so far, with a seat of its own, whose repository a start opened over records that told
/// their tables, by any legal history of all calls up to now that holds what this seat made. Each turn is answered by its cause in that history, which
/// outlasts crashes; where it answered `201` to the PUT of a file, that is answered with its body after a crash at any moment since; where it answered
/// that the file stood, it stood with that content; where it answered a commit with `done`, each file that was staged is answered after a crash at any
/// moment since, and the pom of each release.
pub fn desks_of_running_servers_keep_what_they_answered<
    P: Port,
    B: Blobs,
    R: Remote,
    K: Records,
    C: Clock,
>()
    ensures { (settings : Settings) (records : Recorded) (from to : Store) (clock : Option Moments) (turns : _) (own new : _) (desk back : Desk P B R P.Link B.Held B.Pen) (log : _) (before : Tables) →
        Begins settings records from to clock (opening turns) → records.tables ≡ Some before →
        Legal (IsStep ⟦<Core<K, C, B::Held> as Thing>⟧.fixed ⟦<Core<K, C, B::Held> as Thing>⟧.may_ask ⟦<Core<K, C, B::Held> as Thing>⟧.turned) (opening turns) log → HoldsSeat log new → mine own ≡ [] →
        Attended (looks ⟦<P as Port>⟧ ⟦<P::Link as Tells>⟧ ⟦<B as Blobs>⟧ ⟦<B::Held as Held>⟧ ⟦<R as Remote>⟧)
        (rules ⟦<Core<K, C, B::Held> as Thing>⟧ ⟦<Core<K, C, B::Held> as Repository>⟧.sight) settings turns own new desk back →
        DeskKeeps (looks ⟦<P as Port>⟧ ⟦<P::Link as Tells>⟧ ⟦<B as Blobs>⟧ ⟦<B::Held as Held>⟧ ⟦<R as Remote>⟧) settings ⟦<Core<K, C, B::Held> as Repository>⟧.sight (opening turns) before log desk back }
{}
