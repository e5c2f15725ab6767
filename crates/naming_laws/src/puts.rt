//! The laws of files that are put again.
ghost use Rattle.std.specs.Prelude.{◌≡◌, ℕ, false, List, Some, length};
ghost use Rattle.std.specs.List.{AllByRecursion};
ghost use Rattle.repo_model.specs.declared.print.Print.{Print};
ghost use Rattle.repo_model.specs.Data.{Blob, Row};
ghost use Rattle.repo_model.specs.Settings.{Settings};
ghost use Rattle.repo_model.specs.State.{State, row_at, rows_of};
ghost use Rattle.repo_model.specs.Effect.{Effect, with_effect};
ghost use Rattle.repo_model.specs.May.{May};
ghost use Rattle.repo_model.specs.Command.{put};
ghost use Rattle.repo_model.specs.Reply.{taken, same, relisted};
ghost use Rattle.repo_model.specs.History.{Entry, Fits, Legal, is_collect, after, end};
ghost use Rattle.repo_laws.specs.Sound.{AreNamedApart, IsSound};
ghost use Rattle.naming_laws.specs.Kept.{files_of, may_change_files, takes_away, KeepsFiles};

/// After each reply but that a file was created, that a session is done or what was collected, each repository has the files
/// that it had, with path, number, bytes and digests, and as many rows. So it is where a file is put at whose path a row stands.
pub fn puts_again_keep_files()
    ensures files { (settings : Settings) (old : State) (e : Entry) (id : List ℕ) → Fits settings old e → may_change_files e.reply ≡ false
        → files_of id (after settings old e) ≡ files_of id old }
    ensures count { (settings : Settings) (old : State) (e : Entry) (id : List ℕ) → Fits settings old e → may_change_files e.reply ≡ false
        → length (rows_of id (after settings old e)) ≡ length (rows_of id old) }
    ensures replies { (may_change_files same ≡ false) × (may_change_files relisted ≡ false)
        × ((kept sent : Print) → may_change_files (taken kept sent) ≡ false) }
    ensures stands { (settings : Settings) (old : State) (e : Entry) (id repo path : List ℕ) (n : ℕ) (blob : Blob) (row : Row) → Fits settings old e
        → e.command ≡ put repo path n blob → row_at path (rows_of repo old) ≡ Some row
        → (files_of id (after settings old e) ≡ files_of id old) × (length (rows_of id (after settings old e)) ≡ length (rows_of id old)) }
{}

/// Where a row stood, one stands after each entry but a Collect, and after a legal history without one, with the same number,
/// bytes and digests: so after a commit each file that was there keeps its own.
pub fn files_stay_until_collected()
    ensures effect { (grace now : ℕ) (s : State) (e : Effect) → May grace now s e → takes_away e ≡ false → KeepsFiles s (with_effect s e) }
    ensures entry { (settings : Settings) (old : State) (e : Entry) → AreNamedApart settings.hosted → IsSound settings old → Fits settings old e
        → is_collect e.command ≡ false → KeepsFiles old (after settings old e) }
    ensures history { (settings : Settings) (start : State) (entries : List Entry) → AreNamedApart settings.hosted → IsSound settings start
        → Legal settings start entries → AllByRecursion (λ (e : Entry). is_collect e.command ≡ false) entries → KeepsFiles start (end settings start entries) }
{}
