//! Numbers of blobs, leases and sessions.
ghost use Rattle.std.specs.Prelude.{true, false, ◌≡◌, ◌≢◌, ℕ, ◌+◌, ◌<◌, ◌≤◌, ◌^◌, ◌⊎◌, ◌↔◌, List, [], ◌∷◌, ◌++◌, Option, IsTrue, count_by, length};
ghost use Rattle.std.specs.List.{list_any};
ghost use Rattle.mvn_coords.specs.Kind.{kind};
ghost use Rattle.outside.specs.Moments.{Moments};
ghost use Rattle.fetch_plan.specs.declared.Plan.{Plan};
ghost use Rattle.repo_model.specs.Fetched.{Landing};
ghost use Rattle.repo_model.specs.Settings.{Settings, ProxyRule};
ghost use Rattle.repo_model.specs.Data.{Blob, repository, session};
ghost use Rattle.repo_model.specs.State.{State, opening, rows_of, is_open, is_among, number_end, most_sessions, most_staged};
ghost use Rattle.repo_model.specs.Purge.{most_rows};
ghost use Rattle.repo_model.specs.Effect.{Effect, with_effect};
ghost use Rattle.repo_model.specs.May.{May};
ghost use Rattle.repo_model.specs.Command.{land, look, done, may_put, put, stage, drop_draft, open_session, collect};
ghost use Rattle.repo_model.specs.Reply.{file, draft, no_draft, spent, collected, is_free};
ghost use Rattle.repo_model.specs.Turn.{turn, most_collected, seen_at, is_file, look_at, is_to_fetch};
ghost use Rattle.repo_model.specs.History.{Entry, Fits, Legal, after, end};
ghost use Rattle.repo_laws.specs.Laws.{places_of, leases_of, count_of};
ghost use Rattle.repo_laws.specs.Sound.{AreNamedApart, IsSound};
ghost use Rattle.repo_laws.specs.Closed.{IsGone, IsLentAs, all_given_out, Untouched, ReadersLast};
ghost use Rattle.repo_laws.specs.Collected.{IsUnlent, IsFirstGarbage, cleared};
ghost use Rattle.repo_laws.specs.Replies.{is_under, takes_at, takes_in, uses_draft, spends, GivesDraft};

/// In every legal history from the opening state a blob number that was drawn stands in exactly one place (a draft, a row, a
/// staged file or garbage) or was given out once to be removed; any other stands in none and was not given out.
pub fn one_place()
    ensures one { (settings : Settings) (clock : Option Moments) (entries : List Entry) (n : ℕ) → AreNamedApart settings.hosted
        → let s = end settings (opening settings clock) entries in
        Legal settings (opening settings clock) entries → 0 < n → n < s.yard.next_draft → places_of s n + count_of n (all_given_out entries) ≡ 1 }
    ensures none { (settings : Settings) (clock : Option Moments) (entries : List Entry) (n : ℕ) → AreNamedApart settings.hosted
        → let s = end settings (opening settings clock) entries in
        Legal settings (opening settings clock) entries → (n ≡ 0) ⊎ (s.yard.next_draft ≤ n) → places_of s n ≡ 0 }
    ensures gone { (grace now : ℕ) (s : State) (e : Effect) (n : ℕ) → May grace now s e → IsGone n s → IsGone n (with_effect s e) }
{}

/// A blob that a Collect gave out stands nowhere from then on, is borrowed by nobody, and is not given out again.
pub fn untouched()
    ensures { (settings : Settings) (entries : List Entry) (s : State) → AreNamedApart settings.hosted → IsSound settings s
        → Legal settings s entries → Untouched settings s entries }
{}

/// Who was answered a file can read it until the lease is given back: no Collect gives its blob out before.
pub fn readers_last()
    ensures { (settings : Settings) (entries : List Entry) (s : State) → AreNamedApart settings.hosted → Legal settings s entries
        → ReadersLast settings s entries }
{}

/// A draft serves once: the command that puts, stages, lands or drops it gives it up, and it is never drawn again. It stands until then:
/// who was given a draft and is answered that it is none comes after another entry that spent it.
pub fn drafts_serve_once()
    ensures put { (settings : Settings) (old : State) (e : Entry) (repo path : List ℕ) (n : ℕ) (blob : Blob) → Fits settings old e
        → e.command ≡ put repo path n blob → is_free e.reply ≡ false → count_of n (after settings old e).yard.drafts ≡ 0 }
    ensures staged { (settings : Settings) (old : State) (e : Entry) (at : ℕ) (path : List ℕ) (n : ℕ) (blob : Blob) → Fits settings old e
        → e.command ≡ stage at path n blob → is_free e.reply ≡ false → count_of n (after settings old e).yard.drafts ≡ 0 }
    ensures landed { (settings : Settings) (old : State) (e : Entry) (plan : Plan) (outcome : Landing) (n : ℕ) → Fits settings old e
        → e.command ≡ land plan outcome → IsTrue (is_under n plan.draft) → is_free e.reply ≡ false → count_of n (after settings old e).yard.drafts ≡ 0 }
    ensures dropped { (settings : Settings) (old : State) (e : Entry) (n : ℕ) → Fits settings old e
        → e.command ≡ drop_draft n → count_of n (after settings old e).yard.drafts ≡ 0 }
    ensures gone { (settings : Settings) (old : State) (e : Entry) (n : ℕ) → n < old.yard.next_draft → count_of n old.yard.drafts ≡ 0
        → (n < (after settings old e).yard.next_draft) × (count_of n (after settings old e).yard.drafts ≡ 0) }
    ensures kept { (settings : Settings) (old : State) (e : Entry) (n : ℕ) → Fits settings old e → IsTrue (is_among n old.yard.drafts)
        → spends n e ≡ false → IsTrue (is_among n (after settings old e).yard.drafts) }
    ensures spent_between { (settings : Settings) (old : State) (given asked : Entry) (between : List Entry) (n : ℕ)
        → Legal settings old (given ∷ between ++ asked ∷ []) → GivesDraft n given.reply → IsTrue (uses_draft n asked.command) → asked.reply ≡ no_draft
        → IsTrue (list_any (spends n) between) }
{}

/// A file is answered with a lease on its blob, and a lease lasts until it is given back.
pub fn leases_last()
    ensures lent { (settings : Settings) (old : State) (e : Entry) (lease : ℕ) (blob : Blob) → Fits settings old e
        → e.reply ≡ file lease blob → IsLentAs lease blob.number (after settings old e) }
    ensures kept { (settings : Settings) (old : State) (e : Entry) (lease n : ℕ) → IsLentAs lease n old → e.command ≢ done lease
        → IsLentAs lease n (after settings old e) }
    ensures given_back { (settings : Settings) (old : State) (e : Entry) (lease : ℕ) → Fits settings old e → e.command ≡ done lease
        → leases_of (after settings old e) lease ≡ 0 }
{}

/// `spent` is the reply exactly where a number is to be drawn and the next one is 2^63.
pub fn numbers_are_spent()
    ensures end { number_end ≡ 2 ^ 63 }
    ensures drafts { (settings : Settings) (s : State) (now : ℕ) (repo path : List ℕ) →
        ((turn settings s now (may_put (repository repo) path)).reply ≡ spent) ↔ (IsTrue (takes_at repo path s) × (s.yard.next_draft ≡ number_end)) }
    ensures staged { (settings : Settings) (s : State) (now n : ℕ) (path : List ℕ) →
        ((turn settings s now (may_put (session n) path)).reply ≡ spent) ↔ (IsTrue (takes_in n path s) × (s.yard.next_draft ≡ number_end)) }
    ensures leases { (settings : Settings) (s : State) (now : ℕ) (repo path tried : List ℕ) →
        ((turn settings s now (look repo path tried)).reply ≡ spent)
        ↔ ((((blob : Blob) × (look_at settings s now repo tried path ≡ is_file blob)) × (s.yard.next_lease ≡ number_end))
        ⊎ (((member : ℕ) × (rule : ProxyRule) × (at : List ℕ) × (look_at settings s now repo tried path ≡ is_to_fetch member rule at true)) × (s.yard.next_draft ≡ number_end))) }
    ensures sessions { (settings : Settings) (s : State) (now : ℕ) (repo : List ℕ) →
        ((turn settings s now (open_session repo)).reply ≡ spent) ↔ ((count_by is_open s.sessions < most_sessions) × (s.yard.next_session ≡ number_end)) }
{}

/// A Collect gives out the first of the garbage that nobody has borrowed, in rising order and each blob once. Where it gives out
/// fewer than it may, all garbage that is left is borrowed.
pub fn collect_gives_the_first()
    ensures given { (settings : Settings) (old : State) (e : Entry) (expired : ℕ) (blobs : List ℕ) → AreNamedApart settings.hosted → IsSound settings old
        → Fits settings old e → e.command ≡ collect → e.reply ≡ collected expired blobs → IsFirstGarbage (cleared settings e.moment old).yard blobs }
    ensures left { (settings : Settings) (old : State) (e : Entry) (expired : ℕ) (blobs : List ℕ) → AreNamedApart settings.hosted → IsSound settings old
        → Fits settings old e → e.command ≡ collect → e.reply ≡ collected expired blobs → length blobs < most_collected
        → (n : ℕ) → IsUnlent n (after settings old e).yard → ⊥ }
{}

/// The most sessions that are open, files that one of them stages, rows of one turn, and blobs of one Collect.
pub fn limits()
    ensures sessions { most_sessions ≡ 64 }
    ensures staged { most_staged ≡ 1_000 }
    ensures rows { most_rows ≡ 1_000_000 }
    ensures collected { most_collected ≡ 100 }
{}
