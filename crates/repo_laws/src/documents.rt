//! Each file that a served document names is answered up to the grace.
ghost use Rattle.std.specs.Prelude.{◌≡◌, ℕ, ◌+◌, ◌≤◌, List, ◌∷◌, Ok, IsTrue};
ghost use Rattle.std.specs.List.{AllByRecursion};
ghost use Rattle.mvn_coords.specs.Kind.{kind};
ghost use Rattle.mvn_coords.specs.declared.kind.Kind.TheVariants.{Doc, DocSide};
ghost use Rattle.mvn_coords.specs.declared.fault.Side.{Side};
ghost use Rattle.mvn_coords.specs.Layout.{Directory};
ghost use Rattle.mvn_digest.specs.declared.digests.Digests.{Digests};
ghost use Rattle.mvn_digest.specs.Digests.{digests_of};
ghost use Rattle.mvn_metadata.specs.Document.{Document};
ghost use Rattle.mvn_metadata.specs.Written as written;
ghost use Rattle.repo_model.specs.Settings.{Settings};
ghost use Rattle.repo_model.specs.Data.{Blob, Row};
ghost use Rattle.repo_model.specs.State.{State, rows_of};
ghost use Rattle.repo_model.specs.Command.{look, is_file_path};
ghost use Rattle.repo_model.specs.Reply.{doc, text};
ghost use Rattle.mvn_digest.specs.Sides.{side_text};
ghost use Rattle.repo_model.specs.History.{Entry, Fits, Legal, after, end};
ghost use Rattle.repo_laws.specs.Laws.{Stands};
ghost use Rattle.repo_laws.specs.Sound.{AreNamedApart, IsSound};
ghost use Rattle.repo_laws.specs.Closed.{named, AnswersDocument, AnswersUpTo, StandsInTime, Closed};

/// In every legal history from a sound state each file that a served document names is answered at its own address with its
/// blob and digests, up to the grace after that moment, or memory runs out, or no lease is left. It holds from any state on
/// in which the file stands. After a start the last moment may be earlier than that of the document, so there it holds of entries
/// that begin no earlier than the moment up to which the file is known to stand.
pub fn served_names_are_answered()
    ensures history { (settings : Settings) (entries : List Entry) (s : State) → AreNamedApart settings.hosted → IsSound settings s
        → Legal settings s entries → Closed settings s entries }
    ensures named { (settings : Settings) (s : State) (e : Entry) (repo : List ℕ) (d : Directory) (served : Document) → AreNamedApart settings.hosted
        → IsSound settings s → Fits settings s e
        → AllByRecursion (λ (row : Row). StandsInTime settings.grace e.moment repo row.path row.blob (after settings s e)) (named d (rows_of repo s) served) }
    ensures from { (settings : Settings) (entries : List Entry) (s : State) (t : ℕ) (repo path : List ℕ) (blob : Blob) → AreNamedApart settings.hosted
        → IsSound settings s → Legal settings s entries → StandsInTime settings.grace t repo path blob s
        → AnswersUpTo (t + settings.grace) repo path blob settings s entries × StandsInTime settings.grace t repo path blob (end settings s entries) }
    ensures again { (settings : Settings) (e : Entry) (entries : List Entry) (s : State) (m t : ℕ) (repo path : List ℕ) (blob : Blob) → AreNamedApart settings.hosted
        → IsSound settings s → Legal settings s (e ∷ entries) → m ≤ e.moment → IsTrue (is_file_path path) → t ≤ m
        → (m ≤ t + settings.grace → Stands path blob t (rows_of repo s))
        → AnswersUpTo (t + settings.grace) repo path blob settings s (e ∷ entries) × StandsInTime settings.grace t repo path blob (end settings s (e ∷ entries)) }
{}

/// What is answered to a look at a document, or at a side file of one: the text of the document that the visible rows make, or
/// its digest.
pub fn documents_are_computed()
    ensures document { (settings : Settings) (s : State) (e : Entry) (repo path tried : List ℕ) (d : Directory) (bytes : List ℕ) (digests : Digests)
        → Fits settings s e → e.command ≡ look repo path tried → kind path ≡ Ok (Doc d) → e.reply ≡ doc bytes digests
        → (served : Document) × AnswersDocument settings s e repo d served × (bytes ≡ written.text served) × (digests ≡ digests_of bytes) }
    ensures side { (settings : Settings) (s : State) (e : Entry) (repo path tried : List ℕ) (d : Directory) (side : Side) (bytes : List ℕ)
        → Fits settings s e → e.command ≡ look repo path tried → kind path ≡ Ok (DocSide d side) → e.reply ≡ text bytes
        → (served : Document) × AnswersDocument settings s e repo d served × (bytes ≡ side_text side (digests_of (written.text served))) }
{}
