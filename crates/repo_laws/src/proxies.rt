//! What proxies keep and answer, and what a look says to fetch.
ghost use Rattle.std.specs.Prelude.{◌≡◌, ℕ, List, Some};
ghost use Rattle.repo_model.specs.Settings.{Settings};
ghost use Rattle.repo_model.specs.Data.{Row};
ghost use Rattle.repo_model.specs.State.{State, row_at, files_of};
ghost use Rattle.fetch_plan.specs.declared.Plan.{Plan};
ghost use Rattle.repo_model.specs.Asking.{IsPlan};
ghost use Rattle.repo_model.specs.Effect.{Effect, with_effect, items_of};
ghost use Rattle.repo_model.specs.May.{May};
ghost use Rattle.repo_model.specs.Tables.{Tables};
ghost use Rattle.repo_model.specs.Reply.{fetches};
ghost use Rattle.repo_model.specs.Command.{look};
ghost use Rattle.repo_model.specs.Turn.{turn};
ghost use Rattle.repo_model.specs.History.{Entry, Legal, end};
ghost use Rattle.repo_laws.specs.Files.{FilesHeld, DocumentsHeld};
ghost use Rattle.repo_laws.specs.Holds.{with_items};
ghost use Rattle.repo_laws.specs.Sound.{Sound};
ghost use Rattle.repo_laws.specs.Proxied.{Proxied, WasLanded};

/// What a look says to fetch is a plan of the settings: of one of their proxies, of a file under a draft or of a document under none, at
/// a member that was not tried before.
pub fn plans_are_the_settings()
    ensures { (settings : Settings) (s : State) (now : ℕ) (id path tried : List ℕ) (plan : Plan) → Sound settings s
        → (turn settings s now (look id path tried)).reply ≡ fetches plan → IsPlan settings id tried plan }
{}

/// A proxy keeps and answers a file only where it was landed, or was kept at the start.
pub fn proxied()
    ensures kept { (settings : Settings) (start : State) (entries : List Entry) (id path : List ℕ) (row : Row) → Legal settings start entries
        → row_at path (files_of id (end settings start entries)) ≡ Some row → WasLanded start entries id path row.blob }
    ensures answered { (settings : Settings) (start : State) (entries : List Entry) → Legal settings start entries → Proxied settings start entries }
{}

/// The tables that tell a state's cached files and documents of proxies tell them after each effect and its item.
pub fn effects_keep_files_held()
    ensures files { (grace now : ℕ) (s : State) (e : Effect) (t : Tables) → May grace now s e → FilesHeld t.cached s.proxies
        → FilesHeld (with_items t (items_of e)).cached (with_effect s e).proxies }
    ensures documents { (grace now : ℕ) (s : State) (e : Effect) (t : Tables) → May grace now s e → DocumentsHeld t.documents s.proxies
        → DocumentsHeld (with_items t (items_of e)).documents (with_effect s e).proxies }
{}
