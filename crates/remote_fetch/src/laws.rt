//! What holds of all answers and all fetches, as contracts of functions that do nothing.
ghost use Rattle.std.specs.Prelude.{◌≡◌, ◌≤◌, ◌++◌, ℕ, List, Some, length};
ghost use Rattle.fetch_plan.specs.declared.Outcome.{Outcome};
ghost use Rattle.fetch_plan.specs.declared.Outcome.TheVariants.{Got};
ghost use Rattle.fetch_plan.specs.declared.Plan.{Plan};
ghost use Rattle.outside.specs.Told.{behind};
ghost use Rattle.outside_remote.specs.Exchanges.{Sees};
ghost use Rattle.outside_remote.specs.declared.exchange.Exchange.{Exchange};
ghost use Rattle.remote_fetch.specs.Fetching.{IsFetched};
ghost use Rattle.remote_fetch.specs.Got.{HasFetchCause, IsGot};
ghost use Rattle.remote_fetch.specs.Replies.{IsAnswer};
ghost use Rattle.remote_fetch.specs.declared.contents.Content.{Content};
ghost use Rattle.remote_fetch.specs.declared.replies.Reply.{Reply};

/// The bytes of an answer come to one thing.
pub fn answers_are_one()
    ensures { (limit : ℕ) (bytes : List ℕ) (one other : Reply) → IsAnswer limit bytes one → IsAnswer limit bytes other → one ≡ other }
{}

/// What comes of fetching a plan is determined by the exchanges that are made for it, where the remote tells them.
pub fn fetches_are_one()
    ensures { (plan : Plan) (one other : Outcome Content) (old new old' new' : Sees) (before before' made : List Exchange)
        → IsFetched plan one old new → IsFetched plan other old' new'
        → old.made ≡ Some before → new.made ≡ Some (before ++ made)
        → old'.made ≡ Some before' → new'.made ≡ Some (before' ++ made) → one ≡ other }
{}

/// A fetch makes at most three exchanges.
pub fn fetches_are_short()
    ensures { (plan : Plan) (outcome : Outcome Content) (old new : Sees) → IsFetched plan outcome old new
        → (exchanges : List Exchange) × (length exchanges ≤ 3) × (new.made ≡ behind old.made exchanges) }
{}

/// A fetch is a fault exactly where the remote's count of faults rose in it, or stands at its end.
pub fn faults_have_causes()
    ensures { (plan : Plan) (outcome : Outcome Content) (old new : Sees) → IsFetched plan outcome old new
        → HasFetchCause outcome old.faults new.faults }
{}

/// What is got has at most as many bytes as the plan allows, and a side file of the remote says their digest.
pub fn got_agrees()
    ensures { (plan : Plan) (content : Content) (old new : Sees) → IsFetched plan (Got content) old new → IsGot plan content old new }
{}
