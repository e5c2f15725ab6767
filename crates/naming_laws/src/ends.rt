//! The law of what is left at the end of a history.
ghost use Rattle.std.specs.Prelude.{◌≡◌, ◌==◌, ℕ, List, [], IsTrue};
ghost use Rattle.std.specs.List.{list_any};
ghost use Rattle.repo_model.specs.Settings.{Settings};
ghost use Rattle.repo_model.specs.State.{Lease, State, is_among};
ghost use Rattle.repo_model.specs.History.{Entry, Legal, end};
ghost use Rattle.naming_laws.specs.Left.{IsDraftLeft, IsLeaseLeft};

/// A draft that stands at the end of a legal history from a state without drafts was given in it, and no later entry has put,
/// staged or dropped it. A lease that stands then, where none stood at first, was given in it, and no later entry has given it
/// back.
pub fn what_is_left_was_given()
    ensures drafts { (settings : Settings) (start : State) (entries : List Entry) (n : ℕ) → Legal settings start entries → start.yard.drafts ≡ []
        → IsTrue (is_among n (end settings start entries).yard.drafts) → IsDraftLeft n entries }
    ensures leases { (settings : Settings) (start : State) (entries : List Entry) (n : ℕ) → Legal settings start entries → start.yard.leases ≡ []
        → IsTrue (list_any (λ (lease : Lease). lease.number == n) (end settings start entries).yard.leases) → IsLeaseLeft n entries }
{}
