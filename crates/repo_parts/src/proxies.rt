//! The proxies: which one is meant, how much they keep, and what lands.
ghost use Rattle.std.specs.Prelude.{◌≡◌, ◌≤◌, find, length, sum_by, IfSome, IsTrue};
ghost use Rattle.std.specs.List.{list_any, position};
ghost use Rattle.std.specs.Option.{ForSome, option_map};
ghost use Rattle.mvn_coords.specs.Kind.{kind};
ghost use Rattle.repo_model.specs.Command.{is_landing};
ghost use Rattle.repo_model.specs.Effect.{recorded};
ghost use Rattle.repo_model.specs.History.{latest_moment};
ghost use Rattle.repo_model.specs.Shown.{outcome_map, shown_got};
ghost use Rattle.repo_model.specs.State.{is_proxy};
ghost use Rattle.row_tables.specs.Items.{is_number};
ghost use Rattle.row_tables.specs.Leaving.{MayTake};
ghost use Rattle.repo_parts.specs.Proxies.{LandsIn, landing_in};

use fetch_plan::{Outcome, Plan};
use outside::Held;
use proxy_rules::{Landed, Proxy};
use repo_model::Got;
use row_tables::Records;

/// The proxy of an id.
pub fn proxy_at<'a, H: Held>(proxies: &'a [Proxy<H>], id: &str) -> Option<&'a Proxy<H>>
    ensures { option_map (λ proxy. proxy.now) result ≡ find (is_proxy id.now) proxies.now }
{
    proxies.iter().find(|proxy| proxy.has_id(id))
}

// The place of the proxy of an id.
fn place_of<H: Held>(proxies: &[Proxy<H>], id: &str) -> Option<usize>
    ensures { result ≡ position (is_proxy id.now) proxies.now }
{
    proxies.iter().position(|proxy| proxy.has_id(id))
}

/// How many files and how many documents the proxies keep. None where there are 2^64 or more of one of these.
pub fn counts_kept<H: Held>(proxies: &[Proxy<H>]) -> Option<(u64, u64)>
    ensures files { IfSome result (λ all. all.0 ≡ sum_by (λ p. length p.files) proxies.now) }
    ensures documents { IfSome result (λ all. all.1 ≡ sum_by (λ p. length p.documents) proxies.now) }
{
    let mut files: u64 = 0;
    let mut documents: u64 = 0;
    for proxy in proxies {
        let (some, others) = proxy.counts();
        files = files.checked_add(some)?;
        documents = documents.checked_add(others)?;
    }
    Some((files, documents))
}

/// Lands what came of a fetch at its proxy, which is there, once that is recorded.
pub fn land<H: Held, K: Records>(
    proxies: &mut Vec<Proxy<H>>,
    records: &mut K,
    plan: &Plan,
    outcome: Outcome<Got<H>>,
    moment: u64,
) -> Landed
    requires there { IsTrue (list_any (is_proxy plan.now.proxy) proxies.old.items) }
    requires moment { moment ≤ latest_moment }
    requires landing { IsTrue (is_landing (kind plan.now.path) plan.now.draft (outcome_map shown_got outcome)) }
    requires draft { ForSome plan.now.draft (λ n. IsTrue (is_number n)) }
    requires records { MayTake (recorded (landing_in proxies.old.items moment plan.now outcome)) (K.shows records.old) }
    ensures { LandsIn (landing_in proxies.old.items moment plan.now outcome) proxies.old.items proxies.new.items (K.shows records.old) (K.shows records.new) result }
{
    match place_of(proxies, plan.proxy.as_str()) {
        Some(place) => proxies[place].land(records, plan, outcome, moment),
        None => unreachable!(),
    }
}
