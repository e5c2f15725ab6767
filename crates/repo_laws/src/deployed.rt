//! Releases stay, and a row that was visible stands until the grace period is over.
ghost use Rattle.std.specs.Prelude.{◌≡◌, ℕ, ◌+◌, ◌≤◌, List, Some, None, length};
ghost use Rattle.std.specs.List.{AllByRecursion};
ghost use Rattle.repo_model.specs.declared.session.SessionResult.TheVariants.{Done};
ghost use Rattle.repo_model.specs.Settings.{Settings};
ghost use Rattle.repo_model.specs.Data.{Blob, Staged, Session};
ghost use Rattle.repo_model.specs.State.{State, rows_of, session_of};
ghost use Rattle.repo_model.specs.Command.{commit};
ghost use Rattle.repo_model.specs.Reply.{ended};
ghost use Rattle.repo_model.specs.Effect.{Effect, with_effect};
ghost use Rattle.repo_model.specs.May.{May};
ghost use Rattle.repo_model.specs.History.{Entry, Fits, Legal, after, end};
ghost use Rattle.repo_laws.specs.Laws.{FadingAreSnapshots, KeepsReleases, Stands};
ghost use Rattle.repo_laws.specs.Sound.{AreNamedApart, IsSound};
ghost use Rattle.repo_laws.specs.Deployed.{IsVisibleAs, HasItsPom};

/// What a turn may do keeps each row of a release with every field the same, where only rows of snapshots fade, and lets no
/// other row fade.
pub fn effects_keep_releases()
    ensures kept { (grace now : ℕ) (s : State) (e : Effect) → FadingAreSnapshots s → May grace now s e → KeepsReleases s (with_effect s e) }
    ensures fading { (grace now : ℕ) (s : State) (e : Effect) → FadingAreSnapshots s → May grace now s e → FadingAreSnapshots (with_effect s e) }
{}

/// A row of a release stands for good, with every field the same, in every legal history from a sound state.
pub fn releases_stay()
    ensures { (settings : Settings) (entries : List Entry) (s : State) → AreNamedApart settings.hosted → IsSound settings s
        → Legal settings s entries → KeepsReleases s (end settings s entries) }
{}

/// A row that was visible at a moment stands up to that moment and the grace.
pub fn visible_rows_stand()
    ensures { (grace now t : ℕ) (s : State) (e : Effect) (repo path : List ℕ) (blob : Blob) → t ≤ now → now ≤ t + grace → May grace now s e
        → Stands path blob t (rows_of repo s) → Stands path blob t (rows_of repo (with_effect s e)) }
{}

/// After a commit that is done with so many files these are the staged ones; each of them is visible at its path with its content,
/// and so is the pom of each release's version directory that has one of them.
pub fn commits_deploy_all()
    ensures count { (settings : Settings) (old : State) (e : Entry) (n k : ℕ) (one : Session) → IsSound settings old → Fits settings old e → e.command ≡ commit n
        → session_of n old ≡ Some one → one.ended ≡ None → e.reply ≡ ended (Done k) → k ≡ length one.staged }
    ensures files { (settings : Settings) (old : State) (e : Entry) (n k : ℕ) (one : Session) → IsSound settings old → Fits settings old e → e.command ≡ commit n
        → session_of n old ≡ Some one → one.ended ≡ None → e.reply ≡ ended (Done k)
        → AllByRecursion (λ (file : Staged). IsVisibleAs file.path file.blob.print (rows_of one.repo (after settings old e))) one.staged }
    ensures poms { (settings : Settings) (old : State) (e : Entry) (n k : ℕ) (one : Session) → IsSound settings old → Fits settings old e → e.command ≡ commit n
        → session_of n old ≡ Some one → one.ended ≡ None → e.reply ≡ ended (Done k)
        → AllByRecursion (HasItsPom (rows_of one.repo (after settings old e))) one.staged }
{}
