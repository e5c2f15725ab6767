//! What a start makes of the tables, and what stays so from one run to the next.
ghost use Rattle.std.specs.Prelude.{◌≡◌, ℕ, ◌+◌, ◌<◌, if◌then◌else◌, List, [], ◌∷◌, ◌++◌, Option, option_map, None, Ok, IsTrue};
ghost use Rattle.std.specs.List.{AllByRecursion};
ghost use Rattle.mvn_coords.specs.Layout.{Directory};
ghost use Rattle.mvn_metadata.specs.Document.{Document};
ghost use Rattle.outside.specs.Moments.{Moments};
ghost use Rattle.repo_model.specs.declared.item.Item.{Item};
ghost use Rattle.repo_model.specs.Data.{Row};
ghost use Rattle.repo_model.specs.Settings.{Settings};
ghost use Rattle.repo_model.specs.State.{State, is_among, number_end, opening, row_at, rows_of};
ghost use Rattle.repo_model.specs.Command.{is_there};
ghost use Rattle.repo_model.specs.Tables.{Tables, no_tables, recorded_at, item_on, fits_on, applied};
ghost use Rattle.repo_model.specs.History.{Entry, Legal, end};
ghost use Rattle.repo_model.specs.Restart.{with_bytes, started};
ghost use Rattle.repo_laws.specs.Sound.{AreNamedApart, AreProxiesApart, IsSound};
ghost use Rattle.repo_laws.specs.Holds.{InOrder, Holds, StandsFor, with_items, told};
ghost use Rattle.repo_laws.specs.Closed.{named, AnswersDocument};
ghost use Rattle.repo_laws.specs.InRange.{InRange, IsItemInRange, Completes, IsFoundSince, Run, Follow, AnsweredOn};

/// The state that a start makes from tables in order and in range stands for them and is sound. Its rows are the recorded ones,
/// with the bytes that the store tells, of the hosted repositories that the settings name, and no others. The next draft is above each
/// number below 2^63 of a blob in the store. Over empty tables it is the opening state.
pub fn starts_stand_for_tables()
    ensures stands { (settings : Settings) (tells : ℕ → Option (List ℕ)) (stored : List ℕ) (clock : Option Moments) (faults : ℕ) (t : Tables)
        → InOrder t → InRange t → StandsFor t (started settings tells stored clock faults t) }
    ensures sound { (settings : Settings) (tells : ℕ → Option (List ℕ)) (stored : List ℕ) (clock : Option Moments) (faults : ℕ) (t : Tables)
        → AreNamedApart settings.hosted → AreProxiesApart settings.proxies → InOrder t → InRange t → IsSound settings (started settings tells stored clock faults t) }
    ensures rows { (settings : Settings) (tells : ℕ → Option (List ℕ)) (stored : List ℕ) (clock : Option Moments) (faults : ℕ) (t : Tables) (repo path : List ℕ)
        → row_at path (rows_of repo (started settings tells stored clock faults t))
        ≡ (if is_there repo settings then option_map (with_bytes tells) (recorded_at repo path t.hosted) else None) }
    ensures drafts { (settings : Settings) (tells : ℕ → Option (List ℕ)) (stored : List ℕ) (clock : Option Moments) (faults : ℕ) (t : Tables) (n : ℕ)
        → IsTrue (is_among n stored) → n < number_end → n < (started settings tells stored clock faults t).yard.next_draft }
    ensures opening { (settings : Settings) (tells : ℕ → Option (List ℕ)) (clock : Option Moments) → started settings tells [] clock 0 no_tables ≡ opening settings clock }
{}

/// Tables stay in range under each item that fits and is itself in range, under such items one after another, and under all
/// that a legal history records.
pub fn tables_stay_in_range()
    ensures item { (t : Tables) (item : Item) → InRange t → IsItemInRange item → IsTrue (fits_on t item) → InRange (item_on t item) }
    ensures items { (t new : Tables) (items : List Item) → InRange t → AllByRecursion IsItemInRange items → applied t items ≡ Ok new → InRange new }
    ensures empty { InRange no_tables }
    ensures history { (settings : Settings) (entries : List Entry) (s : State) (t : Tables) → AreNamedApart settings.hosted → Legal settings s entries
        → IsSound settings s → InRange t → InRange (with_items t (told settings s entries)) }
{}

/// The further digests that a start commits leave tables in order and in range. Each row that stood at a place stands there still,
/// and is the same, or it lacked its further digests and has them now; and none has come. What a start that was stopped, or failed,
/// has committed and the next one goes on with is as if one had committed all.
pub fn starts_complete_rows()
    ensures order { (old new : Tables) → Completes old new → InOrder old → InOrder new }
    ensures range { (old new : Tables) → Completes old new → InRange old → InRange new }
    ensures rows { (old new : Tables) (repo path : List ℕ) → Completes old new → IsFoundSince (recorded_at repo path new.hosted) (recorded_at repo path old.hosted) }
    ensures files { (old new : Tables) (repo path : List ℕ) → Completes old new → IsFoundSince (recorded_at repo path new.cached) (recorded_at repo path old.cached) }
    ensures joined { (old mid new : Tables) → Completes old mid → Completes mid new → Completes old new }
{}

/// Across restarts: each file that a document named is answered in all later runs under the same settings, up to the grace after
/// that moment, with its number and fingerprint, or memory runs out, or no lease is left; a fingerprint that lacked its further
/// digests may have been given them. Each run begins in a sound state that stands for the tables after the commits of the runs
/// before it, once its start has completed them, and no earlier than these ended. What was being
/// committed at a crash counts as an entry of that run, or as none.
pub fn served_names_outlast_restarts()
    ensures { (settings : Settings) (before : List Entry) (e : Entry) (rest : List Entry) (s : State) (t : Tables) (runs : List Run) (repo : List ℕ) (d : Directory)
        (served : Document) → AreNamedApart settings.hosted → IsSound settings s → InOrder t → Holds t s → Legal settings s (before ++ e ∷ rest)
        → Follow settings (with_items t (told settings s (before ++ e ∷ rest))) (end settings s (before ++ e ∷ rest)).last runs
        → AnswersDocument settings (end settings s before) e repo d served
        → AllByRecursion (λ (row : Row). AnsweredOn (e.moment + settings.grace) repo row.path row.blob settings runs) (named d (rows_of repo (end settings s before)) served) }
{}
