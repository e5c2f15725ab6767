//! The laws of what a document names.
ghost use Rattle.std.specs.Prelude.{◌≡◌, ◌↔◌, ℕ, List, [], ◌∷◌, Option, None, Some, is_some, false, IsTrue};
ghost use Rattle.std.specs.List.{AllByRecursion};
ghost use Rattle.mvn_coords.specs.Civil.{CivilTime};
ghost use Rattle.mvn_coords.specs.FileName.{BuildOf, base_of};
ghost use Rattle.mvn_coords.specs.Layout.{Directory};
ghost use Rattle.mvn_metadata.specs.declared.listing.Listing.TheVariants.{Artifact, Snapshot};
ghost use Rattle.mvn_metadata.specs.Document.{Document, dotted};
ghost use Rattle.mvn_metadata.specs.Merge as metadata;
ghost use Rattle.repo_model.specs.Data.{Row, listed};
ghost use Rattle.repo_model.specs.Paths.{file_at, is_snapshot_path};
ghost use Rattle.repo_model.specs.Document.{document, listed_in};
ghost use Rattle.repo_model.specs.Settings.{Settings};
ghost use Rattle.repo_model.specs.State.{State, opening, rows_of};
ghost use Rattle.repo_model.specs.History.{Entry, Legal, end};
ghost use Rattle.repo_laws.specs.Laws.{AnyByRecursion};
ghost use Rattle.repo_laws.specs.Closed.{named, AnswersDocument};
ghost use Rattle.repo_laws.specs.Described.{IsAmong, IsFileOf, Describes};
ghost use Rattle.repo_laws.specs.Worked.{shop, releases, snapshots, artifact, builds, jar_1, pom_2, release_jar, next_jar, next_pom};
ghost use Rattle.repo_laws.specs.Histories.{two_builds, faded, listed_again, deployed, sent_again};
ghost use Rattle.naming_laws.specs.Named.{path_given, IsGiven, IsOfVersion, IsOfRelease, IsNewestOfPair};
ghost use Rattle.repo_laws.specs.Sound.{AreNamedApart, IsSound};
ghost use Rattle.naming_laws.specs.Answered.{IsAnswered};
ghost use Rattle.naming_laws.specs.Cases.{named_paths};

/// A document has its directory's coordinates and is determined by its visible rows; there is none exactly where no row is visible.
///
/// Of an artifact, or of a group's directory, it lists exactly the version directories with a visible row, in order and each once,
/// and the latest time at which one of these rows was accepted. It names exactly those visible files of its directory whose path
/// is that of a file of a version that it lists and that is no snapshot, and these are all the visible files of releases there. Each
/// such version has one.
///
/// Of a snapshot directory it lists each classifier and extension of visible files of builds once, with the newest of these builds,
/// and the newest build of all. It names exactly those visible files of the directory whose path one of its snapshot versions
/// gives; each of these gives one. They are the files of which no visible one with the same classifier and extension has a newer
/// build. Where a file is visible there is a document that names one. Nothing is named that fades, or that is no file of the directory.
pub fn documents_name_their_rows()
    ensures described { (d : Directory) (rows : List Row) (served : Document) → document d rows ≡ Some served
        → (served.group ≡ dotted d.group) × (served.artifact ≡ Some d.artifact) × Describes (listed_in d rows) d.version served.listing }
    ensures none { (d : Directory) (rows : List Row) → (document d rows ≡ None) ↔ (listed_in d rows ≡ []) }
    ensures listed { (d : Directory) (rows : List Row) (row : Row)
        → IsAmong row (listed_in d rows) ↔ (IsAmong row rows × (row.phase ≡ listed) × IsFileOf d (file_at row.path)) }
    ensures visible { (d : Directory) (rows : List Row) (served : Document) (row : Row) → IsAmong row (named d rows served)
        → IsAmong row rows × (row.phase ≡ listed) × IsFileOf d (file_at row.path) }
    ensures of_versions { (d : Directory) (rows : List Row) (served : Document) (versions : List (List ℕ)) (updated : Option CivilTime) (row : Row)
        → document d rows ≡ Some served → served.listing ≡ Artifact versions updated
        → IsAmong row (named d rows served) ↔ (IsAmong row (listed_in d rows) × IsOfRelease d versions row.path) }
    ensures releases { (d : Directory) (rows : List Row) (served : Document) (versions : List (List ℕ)) (updated : Option CivilTime) (row : Row)
        → document d rows ≡ Some served → served.listing ≡ Artifact versions updated
        → IsAmong row (named d rows served) ↔ (IsAmong row (listed_in d rows) × (is_snapshot_path row.path ≡ false)) }
    ensures each_version { (d : Directory) (rows : List Row) (served : Document) (versions : List (List ℕ)) (updated : Option CivilTime) (version : List ℕ)
        → document d rows ≡ Some served → served.listing ≡ Artifact versions updated → IsAmong version versions → base_of version ≡ None
        → AnyByRecursion (λ (row : Row). IsOfVersion d version row.path) (named d rows served) }
    ensures of_builds { (d : Directory) (rows : List Row) (served : Document) (base : List ℕ) (newest : Option BuildOf) (entries : List metadata.Entry) (row : Row)
        → document d rows ≡ Some served → served.listing ≡ Snapshot base newest entries
        → IsAmong row (named d rows served) ↔ (IsAmong row (listed_in d rows) × IsGiven d entries row.path) }
    ensures each_build { (d : Directory) (rows : List Row) (served : Document) (base : List ℕ) (newest : Option BuildOf) (entries : List metadata.Entry)
        → document d rows ≡ Some served → served.listing ≡ Snapshot base newest entries
        → AllByRecursion (λ e. AnyByRecursion (λ (row : Row). row.path ≡ path_given d e) (named d rows served)) entries }
    ensures newest { (d : Directory) (rows : List Row) (served : Document) (base : List ℕ) (newest : Option BuildOf) (entries : List metadata.Entry) (row : Row)
        → document d rows ≡ Some served → served.listing ≡ Snapshot base newest entries
        → IsAmong row (named d rows served) ↔ (IsAmong row (listed_in d rows) × IsNewestOfPair (listed_in d rows) row) }
    ensures some { (d : Directory) (rows : List Row) (directory : List ℕ) (row : Row) → d.version ≡ Some directory → IsTrue (is_some (base_of directory))
        → IsAmong row (listed_in d rows)
        → (served : Document) × (document d rows ≡ Some served) × ((one : Row) × IsAmong one (named d rows served)) }
{}

/// So, in a legal history, each file that a snapshot version of a served document gives is answered at that path, and of each
/// version that is listed and no snapshot at least one file, and all of its visible ones: each with the blob that it had, up to the
/// grace after that moment, or memory runs out, or no lease is left.
pub fn given_files_are_answered()
    ensures snapshots { (settings : Settings) (s : State) (e : Entry) (later : List Entry) (repo : List ℕ) (d : Directory) (served : Document) (base : List ℕ)
        (newest : Option BuildOf) (entries : List metadata.Entry) → AreNamedApart settings.hosted → IsSound settings s → Legal settings s (e ∷ later)
        → AnswersDocument settings s e repo d served → document d (rows_of repo s) ≡ Some served → served.listing ≡ Snapshot base newest entries
        → AllByRecursion (λ given. AnyByRecursion (λ (row : Row). (row.path ≡ path_given d given) × IsAnswered settings s e later repo row) (listed_in d (rows_of repo s))) entries }
    ensures releases { (settings : Settings) (s : State) (e : Entry) (later : List Entry) (repo : List ℕ) (d : Directory) (served : Document)
        (versions : List (List ℕ)) (updated : Option CivilTime) (version : List ℕ) → AreNamedApart settings.hosted → IsSound settings s
        → Legal settings s (e ∷ later) → AnswersDocument settings s e repo d served → document d (rows_of repo s) ≡ Some served → served.listing ≡ Artifact versions updated → IsAmong version versions
        → base_of version ≡ None
        → AnyByRecursion (λ (row : Row). IsOfVersion d version row.path × IsAnswered settings s e later repo row) (listed_in d (rows_of repo s)) }
    ensures all { (settings : Settings) (s : State) (e : Entry) (later : List Entry) (repo : List ℕ) (d : Directory) (served : Document)
        (versions : List (List ℕ)) (updated : Option CivilTime) (row : Row) → AreNamedApart settings.hosted → IsSound settings s
        → Legal settings s (e ∷ later) → AnswersDocument settings s e repo d served → document d (rows_of repo s) ≡ Some served → served.listing ≡ Artifact versions updated
        → IsAmong row (listed_in d (rows_of repo s)) → IsOfRelease d versions row.path → IsAnswered settings s e later repo row }
{}

/// What documents of the worked histories name.
pub fn worked_documents_name()
    ensures builds { named_paths builds (rows_of snapshots (end shop (opening shop None) two_builds)) ≡ Some (jar_1 ∷ pom_2 ∷ []) }
    ensures faded { named_paths builds (rows_of snapshots (end shop (opening shop None) faded)) ≡ Some (pom_2 ∷ []) }
    ensures listed_again { named_paths builds (rows_of snapshots (end shop (opening shop None) listed_again)) ≡ Some (jar_1 ∷ pom_2 ∷ []) }
    ensures versions { named_paths artifact (rows_of snapshots (end shop (opening shop None) two_builds)) ≡ Some [] }
    ensures release { named_paths artifact (rows_of releases (end shop (opening shop None) sent_again)) ≡ Some (release_jar ∷ []) }
    ensures deployed { named_paths artifact (rows_of releases (end shop (opening shop None) deployed)) ≡ Some (release_jar ∷ next_jar ∷ next_pom ∷ []) }
    ensures none { named_paths builds (rows_of releases (end shop (opening shop None) sent_again)) ≡ None }
{}
