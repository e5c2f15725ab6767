//! What came of a fetch lands: its file is kept, or its draft is given up.
ghost use Rattle.std.specs.Prelude.{◌≡◌, IsTrue, Some};
ghost use Rattle.std.specs.Option.{ForSome};
ghost use Rattle.proxy_rules.specs.Landings.{shown_landed};
ghost use Rattle.repo_model.specs.Command.{land, meets};
ghost use Rattle.repo_model.specs.Shown.{outcome_map, shown_got, shown_reply};
ghost use Rattle.repo_model.specs.State.{is_among};
ghost use Rattle.repo_model.specs.Turn.{is_drawn};
ghost use Rattle.row_tables.specs.Leaving.{MayTake};
ghost use Rattle.repo_parts.specs.Proxies.{kept_landed, yard_landed};
ghost use Rattle.repo_core.specs.Turn.{Recorded, items_due};
ghost use Rattle.repo_core.specs.Whole.{IsOrderly};

use crate::machine::Machine;
use blob_yard::Yard;
use fetch_plan::{Outcome, Plan};
use outside::{Clock, Held};
use proxy_rules::Landed;
use repo_model::{Got, Reply};
use repo_parts::{changed_by_landing, forget, is_of_document, land};
use row_tables::Records;

// Whether the draft of a landing is there, where it has one.
fn is_drawn(yard: &Yard, draft: Option<u64>) -> bool
    ensures { result ≡ is_drawn draft yard.now.yard.drafts }
{
    match draft {
        Some(draft) => yard.is_draft(draft),
        None => true,
    }
}

// A landing under a draft is over: what becomes of it.
fn settle_draft(yard: &mut Yard, draft: u64, did: Landed)
    requires { IsTrue (is_among draft yard.old.yard.drafts) }
    ensures { yard.new ≡ record { yard = yard_landed (Some draft) did yard.old.yard; kept = kept_landed (Some draft) did yard.old.kept } }
{
    match did {
        Landed::Kept => {
            yard.keep(draft);
        }
        Landed::NotKept => {
            yard.drop_draft(draft);
        }
        Landed::StoreFault | Landed::NoMemory => {}
    }
}

// A landing is over: what becomes of its draft, where it has one.
fn settle_landed(yard: &mut Yard, draft: Option<u64>, did: Landed)
    requires { ForSome draft (λ n. IsTrue (is_among n yard.old.yard.drafts)) }
    ensures { yard.new ≡ record { yard = yard_landed draft did yard.old.yard; kept = kept_landed draft did yard.old.kept } }
{
    if let Some(draft) = draft {
        settle_draft(yard, draft, did);
    }
}

// What a landing replies.
fn reply_of_landed<H: Held>(did: Landed) -> Reply<H>
    ensures { shown_reply result ≡ shown_landed did }
{
    match did {
        Landed::Kept | Landed::NotKept => Reply::Landed,
        Landed::StoreFault => Reply::StoreFault,
        Landed::NoMemory => Reply::NoMemory,
    }
}

impl<C: Clock, H: Held> Machine<C, H> {
    /// Lands what came of a fetch, whose draft may not be there.
    pub(crate) fn land<K: Records>(
        &mut self,
        records: &mut K,
        plan: Plan,
        outcome: Outcome<Got<H>>,
    ) -> Reply<H>
        requires meets { IsTrue (meets self.old.settings (land plan (outcome_map shown_got outcome))) }
        requires orderly { IsOrderly self.old }
        requires records { MayTake (items_due self.old (land plan (outcome_map shown_got outcome))) (K.shows records.old) }
        ensures { Recorded self.old self.new (land plan (outcome_map shown_got outcome)) (shown_reply result) (K.shows records.old) (K.shows records.new) }
    {
        if !is_drawn(&self.yard, plan.draft) {
            return Reply::NoDraft;
        }
        let of_document = is_of_document(&outcome);
        let did = land(&mut self.proxies, records, &plan, outcome, self.last);
        forget(
            &mut self.shelves,
            &changed_by_landing(plan.path.as_str(), of_document, did),
        );
        settle_landed(&mut self.yard, plan.draft, did);
        reply_of_landed(did)
    }
}
