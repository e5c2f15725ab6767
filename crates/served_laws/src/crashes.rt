//! What follows for a start after a crash of a server, a cleaning or a replay. No function here has code: its contract is the law.
ghost use Rattle.std.specs.Prelude.{◌≡◌, ◌≤◌, ℕ, Bool, List, [], ◌∷◌, ◌++◌, length, take, Option, Some, Ok};
ghost use Rattle.http_wire.specs.Front.{Whole, front};
ghost use Rattle.http_wire.specs.Head.{Head};
ghost use Rattle.outside.specs.Blobs.{Numbered, Shelf};
ghost use Rattle.repo_model.specs.Command.{put};
ghost use Rattle.repo_model.specs.Data.{Blob};
ghost use Rattle.repo_model.specs.Effect.{new_row};
ghost use Rattle.repo_model.specs.History.{Entry};
ghost use Rattle.repo_model.specs.Reply.{created};
ghost use Rattle.repo_model.specs.Settings.{Settings};
ghost use Rattle.repo_model.specs.State.{State};
ghost use Rattle.repo_model.specs.Tables.{Tables};
ghost use Rattle.repo_laws.specs.Closed.{all_given_out};
ghost use Rattle.repo_laws.specs.Described.{IsAmong};
ghost use Rattle.row_tables.specs.Crashes.{Unsettled};
ghost use Rattle.blob_audit.specs.Damages.{AreDamaged, IsFirstDamaged};
ghost use Rattle.blob_audit.specs.Order.{all_rows};
ghost use Rattle.blob_audit.specs.declared.damages.Damaged.{Damaged};
ghost use Rattle.row_completion.specs.Completion.{IsDigested};
ghost use Rattle.crash_laws.specs.Handed.{acknowledged_by};
ghost use Rattle.crash_laws.specs.Runs.{IsAnsweredBy};
ghost use Rattle.crash_laws.specs.Crashes.{MayNotGo};
ghost use Rattle.repo_routes.specs.Intent.{Judged};
ghost use Rattle.repo_routes.specs.Judge.{judge};
ghost use Rattle.repo_course.specs.Cleaning.{Store};
ghost use Rattle.repo_course.specs.Serving.{AllTell, Outside, RequestTurn};
ghost use Rattle.repo_course.specs.declared.outcomes.End.{End};
ghost use Rattle.course_laws.specs.Duties.{length_of};
ghost use Rattle.answer_laws.specs.Marked.{IsAt, Mark, entries_of};
ghost use Rattle.run_desks.specs.declared.objects.Desk.{Desk};
ghost use Rattle.run_desks.specs.Seen.{RunResources, looks};
ghost use Rattle.repo_run.specs.Clean.{Cleans};
ghost use Rattle.repo_run.specs.Replay.{IsReplayed};
ghost use Rattle.repo_run.specs.Surroundings.{Served, View};
ghost use Rattle.seat_server.specs.Rules.{rules};
ghost use Rattle.run_serve.specs.Serving.{ServesBy};
ghost use Rattle.served_laws.specs.Kept.{BytesOutlast, BytesStand, KeepsBytes, ServerKeepsBytes};
ghost use Rattle.served_laws.specs.Crashed.{CleanOutlasts, FindsSince, Made, RecordsOutlastCrashes, ServerOutlasts, entries_made, turns_made};

use outside::{Blobs, Clock, Held, Port, Tells};
use outside_remote::Remote;
use repo_core::Core;
use row_tables::Records;
use turn_lock::Thing;
use turn_seats::Repository;

/// Of a server under the settings that it read, over records that told their tables: the calls of its one history, each with what is
/// unsettled of the records as it returns, outlast crashes. At each moment, from where the repository was opened until its records are given
/// back, between the calls and inside each of them, a start reads, from whatever file a crash then leaves, what a front of the history
/// recorded, of which the last entry may be one whose commit failed, as done; in a call that of the entries up to it, or up to the one
/// before it. Nothing was pending at first.
///
/// Where the call of a `Put` returned `Created`, a start answers the file at each moment from then on, over what it may find between calls
/// and over what it reads: once it has completed that, and after any entries, who looks at the file is given it, with the number and the
/// fingerprint that were put; or memory runs out, or no lease is left. It is given with the bytes that were acknowledged under its number,
/// where the store that is found tells its blobs and keeps what it acknowledged, even if it has lost what Collects gave out up to then.
/// So it is of each file that stood in a repository where any call returned that recorded something, as the commit of a session. Of a
/// snapshot's file this is said up to the first Collect that is asked for, even if it fails; of a release's it is said to the end. Which
/// call an answer of a desk told, `desks_are_answered_by_cause` of `desk_laws` says, in the same history.
///
/// What a Collect gave out to be removed is named by no row of what is found at any moment from its return on. So no file that is found is
/// damaged in a store that keeps what it acknowledged, even if it has lost what Collects gave out before, where each file that was
/// recorded as the repository was opened, and each blob that an entry hands over, was acknowledged with its fingerprint.
///
/// The records that are given back tell the tables then and what is unsettled then, and a crash now leaves no more of them. Where records
/// tell no file, nothing is said of what is read from it.
pub fn servers_keep_created_files<P: Port, B: Blobs, R: Remote, K: Records, C: Clock>()
    ensures { (settings : Settings) (old new : View (RunResources (List (Desk P B R P.Link B.Held B.Pen)))) (status : ℕ)
        (serves : ServesBy (looks ⟦<P as Port>⟧ ⟦<P::Link as Tells>⟧ ⟦<B as Blobs>⟧ ⟦<B::Held as Held>⟧ ⟦<R as Remote>⟧)
        (rules ⟦<Core<K, C, B::Held> as Thing>⟧ ⟦<Core<K, C, B::Held> as Repository>⟧.sight) settings old new status) →
        ServerOutlasts (looks ⟦<P as Port>⟧ ⟦<P::Link as Tells>⟧ ⟦<B as Blobs>⟧ ⟦<B::Held as Held>⟧ ⟦<R as Remote>⟧)
        (rules ⟦<Core<K, C, B::Held> as Thing>⟧ ⟦<Core<K, C, B::Held> as Repository>⟧.sight) settings old new status serves }
{}

/// So is it of the turns of the connection that a replay serves, which are the whole history.
pub fn replays_keep_created_files<H: Held>()
    ensures { (settings : Settings) (old new : View Served) (ending : End) (calls : ℕ) (replayed : IsReplayed (AllTell H.bytes) settings old new ending calls) →
        RecordsOutlastCrashes settings old.records replayed.begun new.records (turns_made replayed.entries replayed.begun replayed.core replayed.made) }
{}

/// And of the turns of a cleaning.
pub fn cleanings_outlast_crashes()
    ensures { (settings : Settings) (old new : View Store) (status : ℕ) (cleans : Cleans settings old new status) → CleanOutlasts settings old new status cleans }
{}

/// The bytes that a server acknowledged outlast crashes, where the blobs of its desks' stores tell theirs, the first desk's store told what the
/// start left of it, and the records told what they had. At each moment of the run a start finds no file damaged, in a store that keeps what the
/// start left in it and each blob that a desk has handed over by then, even if it has lost what Collects gave out before. And where
/// the call of a `Put` returned `Created`, a start answers the file at each later moment with the bytes of its blob, of which its fingerprint is:
/// once it has completed what it finds, and after any entries, who looks at the file is given it with these bytes, or memory runs out, or no
/// lease is left; of a snapshot's file this is said up to the first Collect that is asked for, of a release's to the end. That these bytes are
/// those that came after the head of the request says `created_files_have_the_body_that_came`; that no two blobs that were handed over have one
/// number, `servers_hand_over_each_blob_once` of `desk_laws`.
pub fn servers_keep_the_bytes_that_came<P: Port, B: Blobs, R: Remote, K: Records, C: Clock>()
    ensures { (settings : Settings) (old new : View (RunResources (List (Desk P B R P.Link B.Held B.Pen)))) (status : ℕ)
        (serves : ServesBy (looks ⟦<P as Port>⟧ ⟦<P::Link as Tells>⟧ ⟦<B as Blobs>⟧ ⟦<B::Held as Held>⟧ ⟦<R as Remote>⟧)
        (rules ⟦<Core<K, C, B::Held> as Thing>⟧ ⟦<Core<K, C, B::Held> as Repository>⟧.sight) settings old new status) → AllTell B.Held.bytes →
        ServerKeepsBytes (looks ⟦<P as Port>⟧ ⟦<P::Link as Tells>⟧ ⟦<B as Blobs>⟧ ⟦<B::Held as Held>⟧ ⟦<R as Remote>⟧)
        (rules ⟦<Core<K, C, B::Held> as Thing>⟧ ⟦<Core<K, C, B::Held> as Repository>⟧.sight) settings old new status serves }
{}

/// So it is of a replay, whose connection is served over one store.
pub fn replays_keep_the_bytes_that_came<H: Held>()
    ensures { (settings : Settings) (old new : View Served) (ending : End) (calls : ℕ) (replayed : IsReplayed (AllTell H.bytes) settings old new ending calls) → AllTell H.bytes →
        KeepsBytes settings old.records replayed.cleared.shelf replayed.begun (turns_made replayed.entries replayed.begun replayed.core replayed.made) }
{}

/// What these laws say of any store that keeps enough holds of the one that did as it was asked: it had what the start left in it, stored each
/// blob that was handed over, and removed what Collects gave out. Over it no file is damaged and each created file is answered with its bytes.
pub fn stores_that_did_as_asked_answer_the_bytes_that_came()
    ensures { (settings : Settings) (start : State) (t : Tables) (old : Unsettled) (shelf : Shelf) (made : List Made) →
        BytesOutlast settings start t old shelf made → BytesStand settings start t old shelf made }
{}

/// And the bytes of a created file are the body of its request: of a turn on a stream that told its input, among whose entries the `Put` is, as
/// many bytes came after the head as this announced, and each start that the law of bytes speaks of answers the file with them. Which turn of a
/// desk made an entry `desks_are_answered_by_cause` of `desk_laws` says, and that it is one of those that were made, `entries_at_are_made`; what
/// bytes a look's answer has on its stream, `reads_are_answered` of `closed_laws`.
pub fn created_files_have_the_body_that_came<H: Held>()
    ensures { (settings : Settings) (start : State) (t : Tables) (old : Unsettled) (shelf : Shelf) (made first later rest : List Made) (m : Made)
        (last : Bool) (entries : List Entry) (before behind : Outside) (ending : Option End) (input came : List ℕ) (head : Head) (request : Judged)
        (repo path : List ℕ) (n : ℕ) (blob : Blob) → BytesOutlast settings start t old shelf made → made ≡ first ++ m ∷ (later ++ rest)
        → m.entry.command ≡ put repo path n blob → m.entry.reply ≡ created → MayNotGo (entries_made later) path
        → RequestTurn settings (AllTell H.bytes) last entries before behind ending → IsAmong m.entry entries → before.input ≡ Some input
        → front input ≡ Whole head came → judge settings head ≡ Ok request
        → let so_far = entries_made (first ++ m ∷ later) in
        (length_of request.intent ≤ length came)
        × FindsSince settings start t old (IsAnsweredBy settings (all_given_out so_far) (acknowledged_by shelf so_far) repo (new_row path blob m.entry.moment)
        (take (length_of request.intent) came)) (first ++ m ∷ []) later }
{}

/// An entry that lies at a place of the one history, as an answer of a desk does, is one of those that were made.
pub fn entries_at_are_made()
    ensures { (made : List Made) (history : List Mark) (front rest : List Entry) (e : Entry) → entries_of history ≡ entries_made made → IsAt history front e rest
        → (first later : List Made) × (m : Made) × (made ≡ first ++ m ∷ later) × (m.entry ≡ e) }
{}

/// Where no recorded file is damaged in a store that tells its blobs, a start over it is refused by none, once it has given the rows their further
/// digests: there is no damage that it could name.
pub fn whole_files_are_not_refused()
    ensures { (shelf : Shelf) (those : Numbered) (loaded t : Tables) (damage : Damaged) → shelf.blobs ≡ Some those → AreDamaged shelf (all_rows loaded) []
        → IsDigested shelf loaded t → ¬ IsFirstDamaged shelf (all_rows t) damage }
{}
