//! What follows of a pass. No function here has code: its contract is the law.
ghost use Rattle.std.specs.Prelude.{◌≡◌, ◌⊎◌, ℕ, List, ◌∷◌, Result, Err};
ghost use Rattle.repo_model.specs.History.{Entry};
ghost use Rattle.repo_model.specs.Settings.{Settings};
ghost use Rattle.repo_model.specs.State.{State};
ghost use Rattle.repo_course.specs.Asking.{IsWoven};
ghost use Rattle.repo_course.specs.Cleaning.{Passes, Store};
ghost use Rattle.repo_course.specs.declared.outcomes.CleanFault.{CleanFault};
ghost use Rattle.repo_course.specs.declared.outcomes.CleanFault.TheVariants.{NoMemory};
ghost use Rattle.repo_course.specs.declared.outcomes.Cleaned.{Cleaned};
ghost use Rattle.pass_laws.specs.Asked.{first_asked, WantsByCommand, WantsByRemoval};

/// A pass has an entry: its first command unlists the first repository, or collects where there is none.
pub fn passes_ask()
    ensures { (repos : List (List ℕ)) (entries : List Entry) (old new : Store) (result : Result Cleaned CleanFault) → Passes repos entries old new result
        → (e : Entry) × (rest : List Entry) × (entries ≡ e ∷ rest) × (e.command ≡ first_asked repos) }
{}

/// A pass whose entries lie in a legal history runs out of memory only where a command of it was answered so, or where the removal of a blob
/// wanted it.
pub fn passes_want_memory_by_cause()
    ensures { (settings : Settings) (start end : State) (repos : List (List ℕ)) (entries : List Entry) (old new : Store) → IsWoven settings start entries end
        → Passes repos entries old new (Err NoMemory) → WantsByCommand entries ⊎ WantsByRemoval entries old new }
{}
