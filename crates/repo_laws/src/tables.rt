//! Laws of the records: what a turn records, and what the tables tell of the state.
ghost use Rattle.std.specs.Prelude.{◌≡◌, ◌↔◌, ◌⊎◌, ℕ, ◌<◌, ◌≤◌, if◌then◌else◌, List, [], ◌∷◌, ◌++◌, length, find, Option, option_map, None, Some, Ok, Err, false, IsTrue};
ghost use Rattle.std.specs.List.{AllByRecursion, list_any, flat_map};
ghost use Rattle.std.specs.List.Sorted.{IsStrictlySortedBy};
ghost use Rattle.std.specs.declared.cmp.Ordering.TheVariants.{Less};
ghost use Rattle.mvn_digest.specs.declared.known.Further.{Further};
ghost use Rattle.mvn_metadata.specs.Document.{Document};
ghost use Rattle.outside.specs.Moments.{Moments};
ghost use Rattle.repo_model.specs.declared.item.Item.{Item};
ghost use Rattle.repo_model.specs.declared.item.Item.TheVariants.{HostedPut, Faded, Relisted, Removed, CachedFile, CachedDoc, SessionOpened, SessionEnded, Digested};
ghost use Rattle.repo_model.specs.declared.print.Recorded.{Recorded};
ghost use Rattle.repo_model.specs.declared.session.SessionResult.{SessionResult};
ghost use Rattle.repo_model.specs.declared.session.SessionResult.TheVariants.{Aborted, Done};
ghost use Rattle.repo_model.specs.Data.{Blob, Row, listed, fading, Staged, Session};
ghost use Rattle.repo_model.specs.Paths.{is_snapshot_path};
ghost use Rattle.repo_model.specs.Prints.{lacks_further, recorded_print};
ghost use Rattle.repo_model.specs.Settings.{Settings};
ghost use Rattle.repo_model.specs.State.{State, is_repository, is_open_at, opening, row_at, rows_of, session_of};
ghost use Rattle.repo_model.specs.Effect.{Effect, with_effect, with_effects, items_of, recorded};
ghost use Rattle.repo_model.specs.May.{May, AllMay};
ghost use Rattle.repo_model.specs.Reply.{is_free, created, relisted, opened, ended, unlisted, collected};
ghost use Rattle.repo_model.specs.Command.{Command, put, open_session, commit, abort, unlist, collect};
ghost use Rattle.repo_model.specs.Purge.{expire_all};
ghost use Rattle.repo_model.specs.Deploy.{Offence, offence_at, offence};
ghost use Rattle.repo_model.specs.Turn.{says, unlent, turn};
ghost use Rattle.repo_model.specs.History.{Entry, Fits, Legal, effects_of, after, end};
ghost use Rattle.repo_model.specs.Tables.{Tables, RecordedSession, no_tables, recorded_at, names_blob, is_session, item_on, fits_on, applied, greatest_moment};
ghost use Rattle.repo_laws.specs.Laws.{without_bytes};
ghost use Rattle.repo_laws.specs.Sound.{AreNamedApart, OnePlace, IsSound};
ghost use Rattle.repo_laws.specs.Numbered.{Numbered};
ghost use Rattle.repo_laws.specs.Holds.{InOrder, Holds, StandsFor, AreUpTo, with_items, told, result_of, can_record, item_at};
ghost use Rattle.repo_laws.specs.Items.{is_of_row, is_of_file, is_of_document, is_of_session, document_at, row_then, file_then, document_then, session_then};
ghost use Rattle.repo_laws.specs.Staged.{StagedByPath, path_cmp, staged_cmp, row_paths};

/// Each item that fits, and each list of items that are applied, leaves tables in order: rows and documents in byte order of repository and path, sessions rising, each once, and each blob named once.
pub fn tables_stay_in_order()
    ensures item { (t : Tables) (item : Item) → InOrder t → IsTrue (fits_on t item) → InOrder (item_on t item) }
    ensures items { (t new : Tables) (items : List Item) → InOrder t → applied t items ≡ Ok new → InOrder new }
    ensures empty { InOrder no_tables }
{}

/// Which items fit tables, and so which is the first that does not.
pub fn items_fit()
    ensures hosted_put { (t : Tables) (repo path : List ℕ) (blob : ℕ) (print : Recorded) (accepted : ℕ) → IsTrue (fits_on t (HostedPut repo path blob print accepted))
        ↔ ((recorded_at repo path t.hosted ≡ None) × (names_blob blob t ≡ false)) }
    ensures cached_file { (t : Tables) (repo path : List ℕ) (blob : ℕ) (print : Recorded) (accepted : ℕ) → IsTrue (fits_on t (CachedFile repo path blob print accepted))
        ↔ ((recorded_at repo path t.cached ≡ None) × (names_blob blob t ≡ false)) }
    ensures cached_doc { (t : Tables) (repo path : List ℕ) (checked : ℕ) (document : Document) → IsTrue (fits_on t (CachedDoc repo path checked document)) }
    ensures faded { (t : Tables) (repo path : List ℕ) (moment : ℕ) → IsTrue (fits_on t (Faded repo path moment))
        ↔ (IsTrue (is_snapshot_path path) × ((row : Row) × (recorded_at repo path t.hosted ≡ Some row) × (row.phase ≡ listed))) }
    ensures relisted { (t : Tables) (repo path : List ℕ) (accepted : ℕ) → IsTrue (fits_on t (Relisted repo path accepted))
        ↔ ((row : Row) × (since : ℕ) × (recorded_at repo path t.hosted ≡ Some row) × (row.phase ≡ fading since)) }
    ensures removed { (t : Tables) (repo path : List ℕ) → IsTrue (fits_on t (Removed repo path))
        ↔ ((row : Row) × (since : ℕ) × (recorded_at repo path t.hosted ≡ Some row) × (row.phase ≡ fading since)) }
    ensures session_opened { (t : Tables) (n : ℕ) → IsTrue (fits_on t (SessionOpened n)) ↔ AllByRecursion (λ (one : RecordedSession). one.number < n) t.sessions }
    ensures session_ended { (t : Tables) (n : ℕ) (result : SessionResult) → IsTrue (fits_on t (SessionEnded n result))
        ↔ (find (is_session n) t.sessions ≡ Some (record { number = n; result = None })) }
    ensures digested { (t : Tables) (repo path : List ℕ) (further : Further) → IsTrue (fits_on t (Digested repo path further))
        ↔ ((row : Row) × ((recorded_at repo path t.hosted ≡ Some row) ⊎ (recorded_at repo path t.cached ≡ Some row)) × IsTrue (lacks_further row.blob.print)) }
    ensures first { (t : Tables) (items : List Item) (place : ℕ) → applied t items ≡ Err place
        → (before : List Item) × (item : Item) × (after : List Item) × (items ≡ before ++ item ∷ after) × (place ≡ length before)
        × (applied t before ≡ Ok (with_items t before)) × (fits_on (with_items t before) item ≡ false) }
{}

/// An item that fits changes what it is about, and nothing else.
pub fn items_change_one_place()
    ensures rows { (t : Tables) (item : Item) (id at : List ℕ) → IsTrue (fits_on t item)
        → recorded_at id at (item_on t item).hosted ≡ (if is_of_row id at item then row_then item (recorded_at id at t.hosted) else recorded_at id at t.hosted) }
    ensures files { (t : Tables) (item : Item) (id at : List ℕ) → IsTrue (fits_on t item)
        → recorded_at id at (item_on t item).cached ≡ (if is_of_file id at item then file_then item (recorded_at id at t.hosted) (recorded_at id at t.cached) else recorded_at id at t.cached) }
    ensures documents { (t : Tables) (item : Item) (id at : List ℕ)
        → document_at id at (item_on t item).documents ≡ (if is_of_document id at item then document_then item (document_at id at t.documents) else document_at id at t.documents) }
    ensures sessions { (t : Tables) (item : Item) (n : ℕ) → IsTrue (fits_on t item)
        → find (is_session n) (item_on t item).sessions ≡ (if is_of_session n item then session_then item (find (is_session n) t.sessions) else find (is_session n) t.sessions) }
{}

/// The greatest moment of tables is the least that none of their moments is later than.
pub fn greatest_moment_is_least()
    ensures each { (t : Tables) → AreUpTo (greatest_moment t) t }
    ensures least { (t : Tables) (most : ℕ) → AreUpTo most t → greatest_moment t ≤ most }
{}

/// What is recorded fits the tables that hold the state, and the tables after it hold the state after it.
pub fn tables_hold()
    ensures effect { (grace now : ℕ) (s : State) (e : Effect) (t : Tables) → May grace now s e → now ≤ s.last → OnePlace s → Numbered s → InOrder t → Holds t s
        → (applied t (items_of e) ≡ Ok (with_items t (items_of e))) × InOrder (with_items t (items_of e)) × Holds (with_items t (items_of e)) (with_effect s e) }
    ensures effects { (settings : Settings) (grace now : ℕ) (es : List Effect) (s : State) (t : Tables) → AllMay grace now s es → now ≤ s.last → IsSound settings s
        → InOrder t → Holds t s
        → (applied t (recorded es) ≡ Ok (with_items t (recorded es))) × InOrder (with_items t (recorded es)) × Holds (with_items t (recorded es)) (with_effects s es) }
    ensures entry { (settings : Settings) (s : State) (e : Entry) (t : Tables) → AreNamedApart settings.hosted → Fits settings s e → IsSound settings s → InOrder t → Holds t s
        → (applied t (recorded (effects_of settings s e)) ≡ Ok (with_items t (recorded (effects_of settings s e)))) × InOrder (with_items t (recorded (effects_of settings s e)))
        × Holds (with_items t (recorded (effects_of settings s e))) (after settings s e) }
    ensures free { (settings : Settings) (s : State) (e : Entry) (t : Tables) → AreNamedApart settings.hosted → Fits settings s e → IsSound settings s → InOrder t → Holds t s
        → IsTrue (is_free e.reply) → (recorded (effects_of settings s e) ≡ []) × Holds t (after settings s e) }
    ensures history { (settings : Settings) (entries : List Entry) (s : State) (t : Tables) → AreNamedApart settings.hosted → Legal settings s entries → IsSound settings s
        → InOrder t → Holds t s
        → (applied t (told settings s entries) ≡ Ok (with_items t (told settings s entries))) × InOrder (with_items t (told settings s entries))
        × Holds (with_items t (told settings s entries)) (end settings s entries) }
{}

/// Empty tables hold the opening state, which stands for them.
pub fn empty_tables_hold()
    ensures holds { (settings : Settings) (clock : Option Moments) → Holds no_tables (opening settings clock) }
    ensures stands { (settings : Settings) (clock : Option Moments) → StandsFor no_tables (opening settings clock) }
    ensures history { (settings : Settings) (clock : Option Moments) (entries : List Entry) → AreNamedApart settings.hosted → Legal settings (opening settings clock) entries
        → (applied no_tables (told settings (opening settings clock) entries) ≡ Ok (with_items no_tables (told settings (opening settings clock) entries)))
        × Holds (with_items no_tables (told settings (opening settings clock) entries)) (end settings (opening settings clock) entries) }
{}

/// What a turn records, by its reply: a refusal nothing, and the numbers that are answered are those of the items.
pub fn turns_record()
    ensures refused { (settings : Settings) (s : State) (now : ℕ) (c : Command) → can_record (turn settings s now c).reply ≡ false → recorded (turn settings s now c).effects ≡ [] }
    ensures created { (settings : Settings) (s : State) (now : ℕ) (repo path : List ℕ) (n : ℕ) (blob : Blob) → (turn settings s now (put repo path n blob)).reply ≡ created
        → recorded (turn settings s now (put repo path n blob)).effects ≡ HostedPut repo path blob.number (recorded_print blob.print) now ∷ [] }
    ensures relisted { (settings : Settings) (s : State) (now : ℕ) (repo path : List ℕ) (n : ℕ) (blob : Blob) → (turn settings s now (put repo path n blob)).reply ≡ relisted
        → recorded (turn settings s now (put repo path n blob)).effects ≡ Relisted repo path now ∷ [] }
    ensures opened { (settings : Settings) (s : State) (now : ℕ) (repo : List ℕ) (n : ℕ) → (turn settings s now (open_session repo)).reply ≡ opened n
        → recorded (turn settings s now (open_session repo)).effects ≡ SessionOpened n ∷ [] }
    ensures committed { (settings : Settings) (s : State) (now n k : ℕ) (one : Session) → session_of n s ≡ Some one → one.ended ≡ None → (turn settings s now (commit n)).reply ≡ ended (Done k)
        → recorded (turn settings s now (commit n)).effects ≡ flat_map (λ (file : Staged). item_at one.repo now file (row_at file.path (rows_of one.repo s))) one.staged ++ SessionEnded n (Done k) ∷ [] }
    ensures aborted { (settings : Settings) (s : State) (now n : ℕ) (one : Session) → session_of n s ≡ Some one → one.ended ≡ None
        → recorded (turn settings s now (abort n)).effects ≡ SessionEnded n Aborted ∷ [] }
    ensures again { (settings : Settings) (s : State) (now n : ℕ) (one : Session) (result : SessionResult) → session_of n s ≡ Some one → one.ended ≡ Some result
        → (turn settings s now (commit n) ≡ says (ended result)) × (turn settings s now (abort n) ≡ says (ended result)) }
    ensures unlisted { (settings : Settings) (s : State) (now : ℕ) (repo : List ℕ)
        → (turn settings s now (unlist repo)).reply ≡ unlisted (length (recorded (turn settings s now (unlist repo)).effects)) }
    ensures collected { (settings : Settings) (s : State) (now : ℕ)
        → (turn settings s now collect).reply ≡ collected (length (recorded (turn settings s now collect).effects)) (unlent (with_effects s (expire_all settings.grace now s.hosted)).yard) }
{}

/// Sessions have their staged files in byte order of path, each path once. So a commit goes through them in that order: no
/// file before the one that offends does so, and its items stand in that order.
pub fn commits_go_by_path()
    ensures effect { (grace now : ℕ) (s : State) (e : Effect) → May grace now s e → StagedByPath s → StagedByPath (with_effect s e) }
    ensures opening { (settings : Settings) (clock : Option Moments) → StagedByPath (opening settings clock) }
    ensures history { (settings : Settings) (entries : List Entry) (s : State) → AreNamedApart settings.hosted → IsSound settings s → StagedByPath s → Legal settings s entries
        → StagedByPath (end settings s entries) }
    ensures items { (settings : Settings) (s : State) (now n : ℕ) → StagedByPath s → IsStrictlySortedBy path_cmp (row_paths (recorded (turn settings s now (commit n)).effects)) }
    ensures offends { (rows : List Row) (files : List Staged) (other : Offence) → IsStrictlySortedBy staged_cmp files → offence rows files ≡ Some other
        → AllByRecursion (λ (file : Staged). path_cmp file.path other.path ≡ Less → offence_at file (row_at file.path rows) ≡ None) files }
{}

/// A start over the tables keeps the rows, the results of sessions and their numbers; open sessions are gone, and the moment is no later.
pub fn restarts_keep()
    ensures rows { (t : Tables) (old new : State) → Holds t old → Holds t new → (repo path : List ℕ) → IsTrue (list_any (is_repository repo) old.hosted)
        → IsTrue (list_any (is_repository repo) new.hosted)
        → option_map without_bytes (row_at path (rows_of repo new)) ≡ option_map without_bytes (row_at path (rows_of repo old)) }
    ensures results { (t : Tables) (old new : State) → Holds t old → Holds t new → (n : ℕ) → result_of new n ≡ result_of old n }
    ensures numbers { (t : Tables) (old new : State) → Holds t old → Holds t new → new.yard.next_session ≡ old.yard.next_session }
    ensures lost { (t : Tables) (old new : State) → Holds t old → StandsFor t new → (n : ℕ) → IsTrue (list_any (is_open_at n) old.sessions) → session_of n new ≡ None }
    ensures moments { (t : Tables) (old new : State) → Holds t old → StandsFor t new → new.last ≤ old.last }
{}
