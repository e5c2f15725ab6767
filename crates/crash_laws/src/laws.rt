//! What follows for a start after a crash. No function here has code: its contract is the law.
ghost use Rattle.std.specs.Prelude.{◌≡◌, ◌≢◌, ◌⊎◌, ℕ, IsTrue, false, List, [], ◌∷◌, ◌++◌, Option, Some, None, OnErr, OnOk, Ok, Result, ⊤};
ghost use Rattle.mvn_coords.specs.Kind.{kind};
ghost use Rattle.mvn_coords.specs.Layout.{Coordinates};
ghost use Rattle.mvn_coords.specs.declared.kind.Kind.TheVariants.{File};
ghost use Rattle.outside.specs.Blobs.{Numbered, Shelf, sealed, standing_at, without_blob, without_bytes};
ghost use Rattle.outside.specs.declared.faults.BlobFault.{BlobFault};
ghost use Rattle.outside.specs.Moments.{Moments};
ghost use Rattle.repo_model.specs.Command.{collect, is_there, look, put};
ghost use Rattle.repo_model.specs.Restart.{started};
ghost use Rattle.repo_model.specs.declared.item.Item.{Item};
ghost use Rattle.repo_model.specs.Data.{Blob, Row};
ghost use Rattle.repo_model.specs.Effect.{new_row, recorded};
ghost use Rattle.repo_model.specs.Reply.{collected, created};
ghost use Rattle.repo_model.specs.History.{Entry, Legal, after, effects_of, end};
ghost use Rattle.repo_model.specs.Settings.{Settings};
ghost use Rattle.repo_model.specs.State.{State, files_of, is_among, row_at, rows_of};
ghost use Rattle.repo_model.specs.Tables.{RecordedRow, Tables, names_blob};
ghost use Rattle.blob_audit.specs.Damages.{AreDamaged};
ghost use Rattle.proxy_laws.specs.Asked.{AsksFirst, LetsThrough};
ghost use Rattle.repo_laws.specs.Closed.{Answers, GivesFile, all_given_out};
ghost use Rattle.repo_laws.specs.Holds.{Holds, InOrder, told, with_items};
ghost use Rattle.repo_laws.specs.InRange.{InRange, Completes, IsSameBlob};
ghost use Rattle.repo_laws.specs.Sound.{AreNamedApart, AreProxiesApart, IsSound};
ghost use Rattle.crash_laws.specs.Found.{AllHandOver, AreStagedStored, AreStored, HasStored, IsCachedAs, IsRecordedAs, IsWholeWithout, KeepsOthers, NameOthers, NamesNone};
ghost use Rattle.crash_laws.specs.Handed.{AllHandTold, AnyHands, AnyHandsBytes, HandOnce, acknowledged_by, left_without};
ghost use Rattle.crash_laws.specs.Stores.{AllStayStored, IsLeftOfStore, MayHaveDone, StoreCall, begins, removes, stores, with_call, with_calls};
ghost use Rattle.row_tables.specs.Crashes.{Rests, Unsettled};
ghost use Rattle.crash_laws.specs.Runs.{FindsAlways, IsAnsweredAgain, IsAnsweredWhole, IsFoundAgain, IsLeftBySome, CrashesAlong, tables_after};
ghost use Rattle.crash_laws.specs.Crashes.{IsFrontOf, IsLeft, MayNotGo, PendAlong};

use outside::Blobs;

/// A start finds none of these files damaged, where each of them names a blob that was acknowledged, with its fingerprint, in a store that
/// keeps what it acknowledged, even if it has lost some blobs of which the files name none.
pub fn kept_blobs_are_whole()
    ensures { (rows : List RecordedRow) (gone : List ℕ) (acknowledged found : Shelf) → NameOthers gone rows → AreStored acknowledged rows → KeepsOthers gone acknowledged found
        → AreDamaged found rows [] }
{}

/// What the clauses of a store's trait say of a call is what it does of these: a blob is begun, stored with the bytes of its pen, where the
/// pen tells them, or removed; or the call failed and did nothing. All other calls leave what the store tells.
pub fn stores_do_as_their_clauses_say<B: Blobs>()
    ensures begin { (n : ℕ) (old new : Shelf) (result : Result B.Pen BlobFault) → OnOk result (new ≡ without_bytes n old) → OnErr result (new ≡ old) → MayHaveDone (begins n) old new }
    ensures seal { (pen : B.Pen) (bytes : List ℕ) (old new : Shelf) (result : Result B.Held BlobFault) → B.Pen.bytes pen ≡ Some bytes
        → OnOk result (new ≡ sealed (B.Pen.number pen) (B.Pen.bytes pen) old) → OnErr result (new ≡ old) → MayHaveDone (stores (B.Pen.number pen) bytes) old new }
    ensures remove { (n : ℕ) (old new : Shelf) (result : Result ⊤ BlobFault) → OnOk result (new ≡ without_blob n old) → OnErr result (new ≡ old) → MayHaveDone (removes n) old new }
{}

/// At each moment of a run of calls of a store that tells its blobs, between its calls and inside each of them: what a crash leaves of it keeps
/// each blob that was acknowledged before, as the run began or by a call that returned, where no call since, nor the one that is under way,
/// begins, stores or removes a blob of its number. Of the numbers in `gone`, as of blobs that were given out to be removed, nothing is asked
/// and nothing is said.
pub fn crashes_leave_stored_blobs()
    ensures { (shelf acknowledged found : Shelf) (calls : List StoreCall) (now : StoreCall) (gone : List ℕ) → AllStayStored gone acknowledged shelf calls now
        → IsLeftOfStore gone (with_calls shelf calls) (with_call (with_calls shelf calls) now) found → KeepsOthers gone acknowledged found }
{}

/// What entries hand over was acknowledged by a store that told its blobs before them and stored each, where each blob tells its bytes, of which
/// its fingerprint is, and no two have one number: among what it has acknowledged then is each of them, and each that recorded files named
/// before, where none of the entries hands over a blob of their numbers. Under the number of each stand the bytes that it tells. Nothing else is
/// acknowledged: what is stood there before, or is the bytes of a blob that an entry hands over under its number.
pub fn handed_blobs_are_acknowledged()
    ensures handed { (shelf : Shelf) (those : Numbered) (entries : List Entry) → shelf.blobs ≡ Some those → AllHandTold entries → HandOnce entries
        → AllHandOver (acknowledged_by shelf entries) entries }
    ensures recorded { (shelf : Shelf) (t : Tables) (entries : List Entry) → ((n : ℕ) → IsTrue (names_blob n t) → ¬ AnyHands n entries) → HasStored shelf t
        → HasStored (acknowledged_by shelf entries) t }
    ensures bytes { (shelf : Shelf) (those : Numbered) (entries : List Entry) (n : ℕ) (bytes : List ℕ) → shelf.blobs ≡ Some those → HandOnce entries → AnyHandsBytes n bytes entries
        → standing_at n (acknowledged_by shelf entries) ≡ Some bytes }
    ensures only { (shelf : Shelf) (entries : List Entry) (n : ℕ) (bytes : List ℕ) → standing_at n (acknowledged_by shelf entries) ≡ Some bytes
        → (standing_at n shelf ≡ Some bytes) ⊎ AnyHandsBytes n bytes entries }
{}

/// A store that did as it was asked keeps enough: that has stored what entries hand over, and then removed the blobs of some numbers, as of those
/// that Collects gave out. It tells that it removed just these.
pub fn stores_keep_what_they_do_not_remove()
    ensures removed { (gone earlier : List ℕ) (shelf : Shelf) (entries : List Entry) → shelf.removed ≡ Some earlier → (left_without gone shelf entries).removed ≡ Some (earlier ++ gone) }
    ensures kept { (gone : List ℕ) (shelf : Shelf) (entries : List Entry) → KeepsOthers gone (acknowledged_by shelf entries) (left_without gone shelf entries) }
{}

/// Whatever a start may find after a crash, between the calls of a run or in the last of them, is what a legal history records that
/// is a front of its entries: each as it was answered, but that the last may be one whose commit failed, which then counts as done.
pub fn crashes_leave_fronts_of_histories()
    ensures { (settings : Settings) (s : State) (t u : Tables) (entries : List Entry) → Legal settings s entries → IsLeft settings s t entries u
        → (history : List Entry) × IsFrontOf settings s entries history × Legal settings s history × (u ≡ with_items t (told settings s history)) }
{}

/// A file that stands in a repository is recorded with its number and its fingerprint in whatever a start may find after a crash at any
/// later moment; where it is a snapshot's, unless an entry asks for a Collect, even if its commit fails.
pub fn rows_outlast_crashes()
    ensures { (settings : Settings) (s : State) (t u : Tables) (entries : List Entry) (repo : List ℕ) (row : Row)
        → AreNamedApart settings.hosted → IsSound settings s → InOrder t → Holds t s → Legal settings s entries → MayNotGo entries row.path
        → row_at row.path (rows_of repo s) ≡ Some row → IsLeft settings s t entries u → IsRecordedAs repo row u }
{}

/// A run of the repository that began in a state over these tables, with nothing pending, and has made these entries: at each moment of it,
/// between its calls and inside each of them, a start reads, from whatever file a crash then leaves, tables that a crash may leave after
/// the first of the entries, as many as there may be. The traces are those that the records tell at the beginning and at the end.
pub fn crashes_of_runs_find_what_is_left()
    ensures { (settings : Settings) (s : State) (t : Tables) (entries : List Entry) (old new : Unsettled) → old.pending ≡ None → Rests (Some t) old
        → CrashesAlong settings s t entries old new → FindsAlways (IsLeftBySome settings s t entries) old.trace new.trace }
{}

/// An entry that recorded something, as a `Put` that answered `Created` does, and entries after it: a file that stands in a repository
/// when the entry is made is recorded, with its number and its fingerprint, in whatever tables a start reads after a crash at any moment
/// from then on, between calls or inside one. Where it is a snapshot's, none of the entries asks for a Collect.
pub fn files_outlast_crashes_of_runs()
    ensures { (settings : Settings) (s : State) (t : Tables) (e : Entry) (later : List Entry) (before old new : Unsettled) (repo : List ℕ) (row : Row)
        → AreNamedApart settings.hosted → IsSound settings s → InOrder t → Holds t s → Legal settings s (e ∷ later) → MayNotGo later row.path
        → recorded (effects_of settings s e) ≢ [] → row_at row.path (rows_of repo (after settings s e)) ≡ Some row
        → CrashesAlong settings s t (e ∷ []) before old → CrashesAlong settings (after settings s e) (tables_after settings s e t) later old new
        → FindsAlways (IsRecordedAs repo row) old.trace new.trace }
{}

/// A `Put` that was answered with `Created`, and entries after it, of which none asks for a Collect where the file is a snapshot's: a
/// start reads, from whatever file a crash at any moment from its end on leaves, between calls or inside one, tables in which the file is
/// recorded with the number and the fingerprint that were put.
pub fn created_files_outlast_crashes_of_runs()
    ensures { (settings : Settings) (s : State) (t : Tables) (e : Entry) (later : List Entry) (before old new : Unsettled) (repo path : List ℕ) (n : ℕ) (blob : Blob)
        → AreNamedApart settings.hosted → IsSound settings s → InOrder t → Holds t s → Legal settings s (e ∷ later) → MayNotGo later path
        → e.command ≡ put repo path n blob → e.reply ≡ created
        → CrashesAlong settings s t (e ∷ []) before old → CrashesAlong settings (after settings s e) (tables_after settings s e t) later old new
        → FindsAlways (IsRecordedAs repo (new_row path blob e.moment)) old.trace new.trace }
{}

/// So a start over these tables, under the same settings, once it has completed them, and any entries after it, without a Collect where
/// the file is a snapshot's: who looks at the file then is given it, with the number and the fingerprint that were put and the bytes that the
/// store told of the number; or memory runs out, or no lease is left.
pub fn created_files_are_answered_after_crashes()
    ensures { (settings : Settings) (s : State) (t : Tables) (e : Entry) (later : List Entry) (before old new : Unsettled) (repo path : List ℕ) (n : ℕ) (blob : Blob) (c : Coordinates)
        → AreNamedApart settings.hosted → AreProxiesApart settings.proxies → IsSound settings s → InOrder t → Holds t s → Legal settings s (e ∷ later) → MayNotGo later path
        → IsTrue (is_there repo settings) → kind path ≡ Ok (File c) → e.command ≡ put repo path n blob → e.reply ≡ created
        → CrashesAlong settings s t (e ∷ []) before old → CrashesAlong settings (after settings s e) (tables_after settings s e t) later old new
        → FindsAlways (IsAnsweredAgain settings repo (new_row path blob e.moment)) old.trace new.trace }
{}

/// A Collect that answered what it collected, and any entries after it: in whatever tables a start reads after a crash at any moment from
/// its end on, between calls or inside one, no row names a blob that it gave out to be removed.
pub fn blobs_given_out_are_named_no_more()
    ensures { (settings : Settings) (s : State) (t : Tables) (e : Entry) (later : List Entry) (before old new : Unsettled) (expired : ℕ) (blobs : List ℕ)
        → AreNamedApart settings.hosted → IsSound settings s → InOrder t → Holds t s → Legal settings s (e ∷ later)
        → e.command ≡ collect → e.reply ≡ collected expired blobs
        → CrashesAlong settings s t (e ∷ []) before old → CrashesAlong settings (after settings s e) (tables_after settings s e t) later old new
        → FindsAlways (NamesNone blobs) old.trace new.trace }
{}

/// Each file that is recorded in whatever a start may find after a crash names a blob that was acknowledged, with its fingerprint, where
/// so does each file that was recorded before the entries, or was staged then, and each blob that one of them hands over, to be put, staged
/// or landed, was acknowledged with its fingerprint. The shelf may be any that has these blobs, also such as were removed since.
pub fn crashes_leave_stored_files()
    ensures { (settings : Settings) (s : State) (t u : Tables) (entries : List Entry) (acknowledged : Shelf) → Legal settings s entries → HasStored acknowledged t
        → AreStagedStored acknowledged s → AllHandOver acknowledged entries → IsLeft settings s t entries u → HasStored acknowledged u }
{}

/// So it is of what a start reads from whatever file a crash leaves at any moment of a run, between its calls and inside each of them.
pub fn crashes_of_runs_leave_stored_files()
    ensures { (settings : Settings) (s : State) (t : Tables) (entries : List Entry) (old new : Unsettled) (acknowledged : Shelf) → Legal settings s entries
        → HasStored acknowledged t → AreStagedStored acknowledged s → AllHandOver acknowledged entries → old.pending ≡ None → Rests (Some t) old
        → CrashesAlong settings s t entries old new → FindsAlways (HasStored acknowledged) old.trace new.trace }
{}

/// At each moment of a run after its earlier entries, between calls and inside each of them: a start over what it reads finds no file
/// damaged, where the store keeps what it acknowledged, even if it has lost any of the blobs that Collects among the earlier entries gave
/// out to be removed.
pub fn crashes_of_runs_leave_no_file_damaged()
    ensures { (settings : Settings) (s : State) (t : Tables) (earlier later : List Entry) (old mid new : Unsettled) (acknowledged : Shelf)
        → AreNamedApart settings.hosted → IsSound settings s → InOrder t → Holds t s → Legal settings s (earlier ++ later)
        → HasStored acknowledged t → AreStagedStored acknowledged s → AllHandOver acknowledged (earlier ++ later) → old.pending ≡ None → Rests (Some t) old
        → CrashesAlong settings s t earlier old mid → CrashesAlong settings (end settings s earlier) (with_items t (told settings s earlier)) later mid new
        → FindsAlways (IsWholeWithout (all_given_out earlier) acknowledged) mid.trace new.trace }
{}

/// Where a start found no file damaged, in a store that tells its blobs, each file names one of them, with its fingerprint.
pub fn whole_files_are_stored()
    ensures { (shelf : Shelf) (those : Numbered) (rows : List RecordedRow) → shelf.blobs ≡ Some those → AreDamaged shelf rows [] → AreStored shelf rows }
{}

/// After a start nothing is staged that would have to be stored.
pub fn starts_stage_nothing()
    ensures { (settings : Settings) (tells : ℕ → Option (List ℕ)) (stored : List ℕ) (clock : Option Moments) (faults : ℕ) (t : Tables) (shelf : Shelf)
        → AreStagedStored shelf (started settings tells stored clock faults t) }
{}

/// A start that answers a file answers it with the bytes that were acknowledged under its number, where the store keeps what it acknowledged, even
/// if it has lost the blobs of some numbers of which this is none.
pub fn answered_files_have_their_bytes()
    ensures { (settings : Settings) (repo : List ℕ) (row : Row) (gone : List ℕ) (u : Tables) → is_among row.blob.number gone ≡ false → IsAnsweredAgain settings repo row u
        → IsAnsweredWhole settings gone repo row u }
{}

/// And a file that is recorded after some entries is none whose blob a Collect among them gave out to be removed.
pub fn recorded_files_are_not_given_out()
    ensures { (settings : Settings) (s : State) (t : Tables) (entries : List Entry) (old new : Option (List Item)) (repo : List ℕ) (row : Row)
        → AreNamedApart settings.hosted → IsSound settings s → InOrder t → Holds t s → Legal settings s entries → PendAlong settings s entries old new
        → IsRecordedAs repo row (with_items t (told settings s entries)) → is_among row.blob.number (all_given_out entries) ≡ false }
{}

/// A file that a proxy keeps is recorded so in whatever a start may find after a crash at any later moment.
pub fn kept_files_outlast_crashes()
    ensures { (settings : Settings) (s : State) (t u : Tables) (entries : List Entry) (id : List ℕ) (row : Row)
        → AreNamedApart settings.hosted → IsSound settings s → InOrder t → Holds t s → Legal settings s entries
        → row_at row.path (files_of id s) ≡ Some row → IsLeft settings s t entries u → IsCachedAs id row u }
{}

/// A start over tables in which a file is recorded, once it has completed them, and then any entries, without a Collect where the file is a
/// snapshot's: who looks there is given the file, with the number and the fingerprint that were recorded, and the bytes that the store told
/// of that number as the start looked; or memory runs out, or no lease is left.
pub fn starts_answer_what_is_recorded()
    ensures { (settings : Settings) (u : Tables) (tells : ℕ → Option (List ℕ)) (stored : List ℕ) (clock : Option Moments) (faults : ℕ) (before : List Entry) (e : Entry)
        (rest : List Entry) (repo tried : List ℕ) (row : Row) (c : Coordinates) (whole : Tables) → AreNamedApart settings.hosted → AreProxiesApart settings.proxies → InOrder u → InRange u → Completes u whole
        → IsTrue (is_there repo settings)
        → kind row.path ≡ Ok (File c) → IsRecordedAs repo row u → Legal settings (started settings tells stored clock faults whole) (before ++ e ∷ rest)
        → MayNotGo before row.path → e.command ≡ look repo row.path tried
        → (kept : Blob) × IsFoundAgain tells kept row.blob × GivesFile (end settings (started settings tells stored clock faults whole) before) kept e.reply }
{}

/// A start over tables in which a file of a proxy is recorded, once it has completed them, and then any entries, also where a Collect is
/// among them: who looks there, at the proxy or at a group in which it comes first, is given the file, with the number and the
/// fingerprint that were recorded, and at a side file of it the text of its digest; or memory runs out, or no lease is left. The
/// settings still name the proxy, and its patterns let the path through.
pub fn starts_answer_kept_files()
    ensures { (settings : Settings) (u : Tables) (tells : ℕ → Option (List ℕ)) (stored : List ℕ) (clock : Option Moments) (faults : ℕ) (before : List Entry) (e : Entry)
        (rest : List Entry) (asked id : List ℕ) (row : Row) (c : Coordinates) (whole : Tables) → AreNamedApart settings.hosted → AreProxiesApart settings.proxies → InOrder u → InRange u → Completes u whole
        → LetsThrough settings id row.path → AsksFirst settings asked id → kind row.path ≡ Ok (File c) → IsCachedAs id row u
        → Legal settings (started settings tells stored clock faults whole) (before ++ e ∷ rest)
        → (kept : Blob) × IsSameBlob kept row.blob × Answers asked row.path kept (end settings (started settings tells stored clock faults whole) before) e }
{}
