//! What is to be fetched: a file under a draft, with which it is stored, and a document under none.
ghost use Rattle.std.specs.Prelude.{◌≡◌, ◌∷◌, [], IfOk, None, Some};
ghost use Rattle.proxy_rules.specs.Rules.{shown_rule};
ghost use Rattle.repo_model.specs.Effect.{draws};
ghost use Rattle.repo_model.specs.Reply.{fetches};
ghost use Rattle.repo_model.specs.Shown.{shown_reply};
ghost use Rattle.repo_model.specs.Turn.{draws_or_spent, file_limit, plan_of, plans};
ghost use Rattle.repo_parts.specs.Looks.{IsDueOr};
ghost use Rattle.repo_parts.specs.Numbers.{yard_looked};

use blob_yard::{DrawFault, Yard};
use fetch_plan::Plan;
use outside::{Held, NoMemory};
use proxy_rules::Rule;
use repo_config::Settings;
use repo_model::Reply;
use std::alloc::Global;
use texts::Text;

/// The longest file that is fetched, in bytes: a fetch holds the whole of it.
const LONGEST_FETCHED: u64 = 16_777_216;

/// The longest document that is fetched, in bytes.
const LONGEST_DOCUMENT: u64 = 1_048_576;

// What is to be fetched of a proxy's remote under no draft, with copies of its texts.
fn plan_of(
    alloc: Global,
    member: u64,
    rule: &Rule,
    path: &str,
    limit: u64,
) -> Result<Plan, NoMemory>
    ensures { IfOk result (λ plan. plan ≡ plan_of member (shown_rule rule.now) path.now None limit) }
{
    Ok(Plan {
        proxy: rule.id.copied(alloc)?,
        member,
        host: rule.host.copied(alloc)?,
        port: rule.port,
        prefix: rule.prefix.copied(alloc)?,
        path: Text::new(alloc, path)?,
        draft: None,
        limit,
    })
}

// The longest file that is fetched under these settings, in bytes.
fn file_limit(settings: &Settings) -> u64
    ensures { result ≡ file_limit settings.now }
{
    settings.max_file().min(LONGEST_FETCHED)
}

// A plan under the next draft.
fn under_draft<H: Held>(yard: &mut Yard, plan: Plan) -> Reply<H>
    ensures reply { IsDueOr (draws_or_spent yard.old.yard.next_draft
        (record { reply = fetches (record plan { draft = Some yard.old.yard.next_draft }); effects = draws ∷ [] })).reply (shown_reply result) }
    ensures yard { yard.new ≡ record yard.old { yard = yard_looked (shown_reply result) yard.old.yard } }
{
    match yard.draft() {
        Ok(draft) => Reply::Fetch(Plan {
            draft: Some(draft),
            ..plan
        }),
        Err(DrawFault::Spent) => Reply::Spent,
        Err(DrawFault::NoMemory) => Reply::NoMemory,
    }
}

/// What is to be fetched of the remote of a proxy, which stands at this place of a group or is asked itself: a file under the next
/// draft, or a document under none. The texts are copied first, so that when memory runs out no draft is drawn.
pub fn plan_fetch<H: Held>(
    alloc: Global,
    settings: &Settings,
    yard: &mut Yard,
    member: u64,
    rule: &Rule,
    path: &str,
    of_file: bool,
) -> Reply<H>
    ensures reply { IsDueOr (plans settings.now yard.old.yard.next_draft member (shown_rule rule.now) path.now of_file).reply (shown_reply result) }
    ensures yard { yard.new ≡ record yard.old { yard = yard_looked (shown_reply result) yard.old.yard } }
{
    let limit = if of_file {
        file_limit(settings)
    } else {
        LONGEST_DOCUMENT
    };
    let Ok(plan) = plan_of(alloc, member, rule, path, limit) else {
        return Reply::NoMemory;
    };
    if of_file {
        under_draft(yard, plan)
    } else {
        Reply::Fetch(plan)
    }
}
