//! The laws of what proxies keep.
ghost use Rattle.std.specs.Prelude.{◌≡◌, ◌≢◌, ℕ, List, ◌∷◌, ◌++◌, Option, Some, Ok, IsTrue, option_map};
ghost use Rattle.std.specs.List.{AllByRecursion, list_any};
ghost use Rattle.mvn_coords.specs.Kind.{kind};
ghost use Rattle.mvn_coords.specs.Layout.{Coordinates};
ghost use Rattle.mvn_coords.specs.declared.kind.Kind.TheVariants.{File};
ghost use Rattle.fetch_plan.specs.declared.Plan.{Plan};
ghost use Rattle.outside.specs.Moments.{Moments};
ghost use Rattle.repo_model.specs.Settings.{Settings};
ghost use Rattle.repo_model.specs.Data.{Blob, Row};
ghost use Rattle.repo_model.specs.State.{State, is_proxy, opening, row_at, files_of};
ghost use Rattle.repo_model.specs.Proxies.{kept_at};
ghost use Rattle.repo_model.specs.Effect.{Effect, new_row, with_effect};
ghost use Rattle.repo_model.specs.May.{May};
ghost use Rattle.repo_model.specs.Reply.{fetches, landed};
ghost use Rattle.repo_model.specs.Tables.{Tables};
ghost use Rattle.repo_model.specs.Restart.{started};
ghost use Rattle.repo_model.specs.History.{Entry, Fits, Legal, after, end};
ghost use Rattle.repo_laws.specs.Closed.{Answers};
ghost use Rattle.repo_laws.specs.Files.{documents_in};
ghost use Rattle.repo_laws.specs.Laws.{without_bytes};
ghost use Rattle.repo_laws.specs.Holds.{InOrder, Holds};
ghost use Rattle.repo_laws.specs.Proxied.{LandsFile};
ghost use Rattle.repo_laws.specs.Sound.{AreNamedApart, IsSound};
ghost use Rattle.proxy_laws.specs.Asked.{AsksFirst, LetsThrough};
ghost use Rattle.proxy_laws.specs.Limits.{KeepLimits, kept_first};

/// A file that a proxy keeps stays there, with every field the same: after each effect that may be done, and after an entry and
/// a legal history from a sound state.
pub fn kept_files_stay()
    ensures effect { (grace now : ℕ) (s : State) (e : Effect) (id path : List ℕ) (row : Row) → May grace now s e
        → row_at path (files_of id s) ≡ Some row → row_at path (files_of id (with_effect s e)) ≡ Some row }
    ensures entry { (settings : Settings) (old : State) (e : Entry) (id path : List ℕ) (row : Row) → AreNamedApart settings.hosted → IsSound settings old
        → Fits settings old e → row_at path (files_of id old) ≡ Some row → row_at path (files_of id (after settings old e)) ≡ Some row }
    ensures history { (settings : Settings) (start : State) (entries : List Entry) (id path : List ℕ) (row : Row) → AreNamedApart settings.hosted
        → IsSound settings start → Legal settings start entries → row_at path (files_of id start) ≡ Some row
        → row_at path (files_of id (end settings start entries)) ≡ Some row }
{}

/// A file that a proxy keeps, and that its patterns let through, is answered to each look there at the proxy, or at a group in which
/// it comes first, and the text of its digest to a look at a side file of it; or memory runs out, or no lease is left.
pub fn kept_files_are_answered()
    ensures { (settings : Settings) (old : State) (e : Entry) (asked id path : List ℕ) (row : Row) (c : Coordinates) → IsSound settings old
        → Fits settings old e → LetsThrough settings id path → AsksFirst settings asked id → kind path ≡ Ok (File c)
        → row_at path (files_of id old) ≡ Some row → Answers asked path row.blob old e }
{}

/// What proxies keep, files, documents and negative entries, changes only by an entry that is answered that a fetch has landed: each other
/// one leaves all of it, and so does a legal history without one.
pub fn proxies_change_by_landings()
    ensures entry { (settings : Settings) (old : State) (e : Entry) → Fits settings old e → e.reply ≢ landed
        → (after settings old e).proxies ≡ old.proxies }
    ensures history { (settings : Settings) (start : State) (entries : List Entry) → Legal settings start entries
        → AllByRecursion (λ (e : Entry). e.reply ≢ landed) entries → (end settings start entries).proxies ≡ start.proxies }
{}

/// A file that lands is kept from then on, unless its proxy keeps one at the path: that one stays.
pub fn landed_files_are_kept()
    ensures { (settings : Settings) (old : State) (e : Entry) (id path : List ℕ) (blob : Blob) → IsSound settings old → Fits settings old e
        → LandsFile id path blob e
        → row_at path (files_of id (after settings old e)) ≡ Some (kept_first (row_at path (files_of id old)) (new_row path blob e.moment)) }
{}

/// Once a file has landed for a proxy at a path, no later look in a legal history says to fetch it again.
pub fn landed_files_are_not_fetched_again()
    ensures { (settings : Settings) (start : State) (before between later : List Entry) (one other : Entry) (id path : List ℕ) (blob : Blob) (plan : Plan)
        → AreNamedApart settings.hosted → IsSound settings start → Legal settings start (before ++ (one ∷ (between ++ (other ∷ later))))
        → LandsFile id path blob one → other.reply ≡ fetches plan → plan.proxy ≡ id → plan.path ≡ path → ⊥ }
{}

/// Each proxy has its documents and its negative entries in byte order of path, each path once, and at most 10,000 negative entries: in the opening
/// state, after a start over tables in order, and after each effect, entry and history from a state in which they have them so.
pub fn proxies_keep_their_limits()
    ensures opening { (settings : Settings) (clock : Option Moments) → KeepLimits (opening settings clock) }
    ensures started { (settings : Settings) (tells : ℕ → Option (List ℕ)) (stored : List ℕ) (clock : Option Moments) (faults : ℕ) (t : Tables)
        → InOrder t → KeepLimits (started settings tells stored clock faults t) }
    ensures effect { (s : State) (e : Effect) → KeepLimits s → KeepLimits (with_effect s e) }
    ensures entry { (settings : Settings) (old : State) (e : Entry) → KeepLimits old → KeepLimits (after settings old e) }
    ensures history { (settings : Settings) (start : State) (entries : List Entry) → KeepLimits start → KeepLimits (end settings start entries) }
{}

/// Two states that the same tables tell, as those before and after a start, have the same files and documents, with the same
/// moments, at each proxy that both have, but for the bytes that the store tells of its files.
pub fn restarts_keep_what_proxies_keep()
    ensures files { (t : Tables) (old new : State) (id path : List ℕ) → Holds t old → Holds t new → IsTrue (list_any (is_proxy id) old.proxies)
        → IsTrue (list_any (is_proxy id) new.proxies)
        → option_map without_bytes (row_at path (files_of id new)) ≡ option_map without_bytes (row_at path (files_of id old)) }
    ensures documents { (t : Tables) (old new : State) (id path : List ℕ) → Holds t old → Holds t new → IsTrue (list_any (is_proxy id) old.proxies)
        → IsTrue (list_any (is_proxy id) new.proxies) → kept_at path (documents_in id new.proxies) ≡ kept_at path (documents_in id old.proxies) }
{}
