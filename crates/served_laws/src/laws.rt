//! What follows for the files that served documents name. No function here has code: its contract is the law.
ghost use Rattle.std.specs.Prelude.{◌≡◌, ℕ, List, [], ◌∷◌, ◌++◌, Some};
ghost use Rattle.repo_model.specs.Command.{look};
ghost use Rattle.repo_model.specs.History.{Legal, end};
ghost use Rattle.repo_model.specs.Settings.{Settings};
ghost use Rattle.repo_model.specs.Tables.{Tables};
ghost use Rattle.repo_laws.specs.Holds.{Holds, InOrder, told, with_items};
ghost use Rattle.repo_laws.specs.InRange.{Follow, Run};
ghost use Rattle.repo_laws.specs.Sound.{AreNamedApart, IsSound};
ghost use Rattle.repo_laws.specs.Worked.{releases, shop};
ghost use Rattle.repo_course.specs.Serving.{AllTell, Outside};
ghost use Rattle.repo_course.specs.declared.outcomes.End.{End};
ghost use Rattle.run_desks.specs.declared.objects.Desk.{Desk};
ghost use Rattle.run_desks.specs.Seen.{RunResources, looks};
ghost use Rattle.repo_run.specs.Replay.{IsReplayed};
ghost use Rattle.repo_run.specs.Surroundings.{Served, View, outside_of, outside_with, with_store};
ghost use Rattle.closed_laws.specs.Named.{WasNamed};
ghost use Rattle.closed_laws.specs.Streams.{ShowsWhatWasNamed};
ghost use Rattle.seat_server.specs.Rules.{rules};
ghost use Rattle.run_serve.specs.Serving.{ServesBy};
ghost use Rattle.served_laws.specs.Restarted.{RestartShows, ShowsWhatWasNamedIn};
ghost use Rattle.served_laws.specs.Runs.{IsClosed, RecordsTables, ServerShows};
ghost use Rattle.served_laws.specs.Shown.{ConnectionShows, DesksShow};
ghost use Rattle.served_laws.specs.Worked.{document_asked, empty, file_looked, release_put, release_row};

use outside::{Blobs, Clock, Held, Port, Tells};
use outside_remote::Remote;
use repo_core::Core;
use row_tables::Records;
use turn_lock::Thing;
use turn_seats::Repository;

/// Of a server under the settings that it read: in the one legal history of all its desks and its cleaner, from the state in which
/// its repository was opened, each file that a document names, as it is answered at a moment, is answered in every later entry that
/// looks at it up to the grace after that moment; and no blob that a Collect gave out to be removed is named again. Each desk's connections were served in turns,
/// whose entries stand there; and each turn whose first entry looks at such a file in time, on whichever desk, shows the 200 with the
/// file's bytes and both checksums, whole, or an alternative with its cause; so for its side files. What the history recorded is
/// what the records tell in the end, where they tell.
pub fn servers_serve_named_files<P: Port, B: Blobs, R: Remote, K: Records, C: Clock>()
    ensures { (settings : Settings) (old new : View (RunResources (List (Desk P B R P.Link B.Held B.Pen)))) (status : ℕ) →
        ServesBy (looks ⟦<P as Port>⟧ ⟦<P::Link as Tells>⟧ ⟦<B as Blobs>⟧ ⟦<B::Held as Held>⟧ ⟦<R as Remote>⟧)
        (rules ⟦<Core<K, C, B::Held> as Thing>⟧ ⟦<Core<K, C, B::Held> as Repository>⟧.sight) settings old new status →
        ServerShows (looks ⟦<P as Port>⟧ ⟦<P::Link as Tells>⟧ ⟦<B as Blobs>⟧ ⟦<B::Held as Held>⟧ ⟦<R as Remote>⟧) settings old new }
{}

/// So is it of the connection that a replay serves, whose entries are the whole history.
pub fn replays_serve_named_files<H: Held>()
    ensures { (settings : Settings) (old new : View Served) (ending : End) (calls : ℕ) (replayed : IsReplayed (AllTell H.bytes) settings old new ending calls) →
        IsClosed settings replayed.begun.state replayed.entries
        × ConnectionShows (ShowsWhatWasNamed settings replayed.begun.state) settings (AllTell H.bytes) replayed.entries replayed.entries
        (outside_of (with_store replayed.cleared old.place)) (outside_with replayed.held new.place) ending
        × RecordsTables settings old.records new.records replayed.begun.state replayed.entries }
{}

/// Across restarts: what a document named in one run under these settings, each turn of each desk's connection of a later run shows
/// that looks there in time; so does each turn of a connection that is served alone. The tables that the earlier run left are those
/// over which the next one begins, once its start has completed them, each next run begins no earlier than the one before it ended, and what was being committed at a
/// crash counts as an entry of its run, or as none.
pub fn later_runs_serve_named_files<P: Port, B: Blobs, R: Remote>()
    ensures desks { (settings : Settings) (tables : Tables) (earlier : Run) (between : List Run) (later : Run) (desks back : List (Desk P B R P.Link B.Held B.Pen)) →
        AreNamedApart settings.hosted → IsSound settings earlier.start → InOrder tables → Holds tables earlier.start → Legal settings earlier.start earlier.entries →
        Follow settings (with_items tables (told settings earlier.start earlier.entries)) (end settings earlier.start earlier.entries).last (between ++ later ∷ []) →
        DesksShow (looks ⟦<P as Port>⟧ ⟦<P::Link as Tells>⟧ ⟦<B as Blobs>⟧ ⟦<B::Held as Held>⟧ ⟦<R as Remote>⟧) (ShowsWhatWasNamed settings later.start) settings later.entries desks back →
        DesksShow (looks ⟦<P as Port>⟧ ⟦<P::Link as Tells>⟧ ⟦<B as Blobs>⟧ ⟦<B::Held as Held>⟧ ⟦<R as Remote>⟧) (ShowsWhatWasNamedIn settings earlier.start earlier.entries later.start) settings later.entries desks back }
    ensures alone { (settings : Settings) (tables : Tables) (earlier : Run) (between : List Run) (later : Run) (old new : Outside) (ending : End) →
        AreNamedApart settings.hosted → IsSound settings earlier.start → InOrder tables → Holds tables earlier.start → Legal settings earlier.start earlier.entries →
        Follow settings (with_items tables (told settings earlier.start earlier.entries)) (end settings earlier.start earlier.entries).last (between ++ later ∷ []) →
        ConnectionShows (ShowsWhatWasNamed settings later.start) settings (AllTell B.Held.bytes) later.entries later.entries old new ending →
        ConnectionShows (ShowsWhatWasNamedIn settings earlier.start earlier.entries later.start) settings (AllTell B.Held.bytes) later.entries later.entries old new ending }
{}

/// So of two servers under the same settings, the later one over the records that the earlier one gave back, where these tell their
/// tables: each desk of the later one shows what a document of the earlier one named, in time, where no entry of it is earlier than
/// the end of the other.
pub fn restarted_servers_serve_named_files<P: Port, B: Blobs, R: Remote, K: Records, C: Clock>()
    ensures { (settings : Settings) (tables : Tables) (old new later_old later_new : View (RunResources (List (Desk P B R P.Link B.Held B.Pen)))) (status later_status : ℕ) →
        old.records.tables ≡ Some tables → later_old.records.tables ≡ new.records.tables →
        ServesBy (looks ⟦<P as Port>⟧ ⟦<P::Link as Tells>⟧ ⟦<B as Blobs>⟧ ⟦<B::Held as Held>⟧ ⟦<R as Remote>⟧)
        (rules ⟦<Core<K, C, B::Held> as Thing>⟧ ⟦<Core<K, C, B::Held> as Repository>⟧.sight) settings old new status →
        ServesBy (looks ⟦<P as Port>⟧ ⟦<P::Link as Tells>⟧ ⟦<B as Blobs>⟧ ⟦<B::Held as Held>⟧ ⟦<R as Remote>⟧)
        (rules ⟦<Core<K, C, B::Held> as Thing>⟧ ⟦<Core<K, C, B::Held> as Repository>⟧.sight) settings later_old later_new later_status →
        RestartShows (looks ⟦<P as Port>⟧ ⟦<P::Link as Tells>⟧ ⟦<B as Blobs>⟧ ⟦<B::Held as Held>⟧ ⟦<R as Remote>⟧) settings old new later_old later_new }
{}

/// A worked case of what these laws speak of: a release is put, the document of its versions, which is answered next, names it, and
/// it is looked at at the end of the grace; and that is a legal history of a repository that began with nothing.
pub fn worked_file_is_named()
    ensures legal { Legal shop empty (release_put ++ document_asked ∷ file_looked ∷ []) }
    ensures named { WasNamed shop empty (release_put ++ document_asked ∷ []) releases release_row file_looked.moment }
    ensures looked { file_looked.command ≡ look releases release_row.path [] }
{}
