//! A start that is stopped, and the next one. No function here has code: its contract is the law.
ghost use Rattle.std.specs.Prelude.{ℕ, List, Option};
ghost use Rattle.repo_model.specs.Data.{Row};
ghost use Rattle.repo_model.specs.Settings.{Settings};
ghost use Rattle.repo_model.specs.Tables.{Tables};
ghost use Rattle.repo_laws.specs.Holds.{InOrder};
ghost use Rattle.repo_laws.specs.InRange.{Completes, InRange};
ghost use Rattle.crash_laws.specs.Runs.{IsAnsweredWith};
ghost use Rattle.served_laws.specs.Crashed.{IsAnsweredStill, Made};

/// Where tables answer a file, so do these with some of the further digests that a start was adding when it stopped: the next start goes on with them.
pub fn starts_that_crashed_answer_the_same_files()
    ensures bytes { (settings : Settings) (tells : ℕ → Option (List ℕ)) (repo : List ℕ) (row : Row) (bytes : Option (List ℕ)) (t u : Tables) → InOrder t → InRange t → Completes t u →
        IsAnsweredWith settings tells repo row bytes t → IsAnsweredWith settings tells repo row bytes u }
    ensures still { (settings : Settings) (made : List Made) (repo : List ℕ) (row : Row) (t u : Tables) → InOrder t → InRange t → Completes t u →
        IsAnsweredStill settings made repo row t → IsAnsweredStill settings made repo row u }
{}
