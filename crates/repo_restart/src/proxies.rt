//! Proxies that keep nothing, and the documents that are recorded of them.
ghost use Rattle.std.specs.Prelude.{◌≡◌, ◌≤◌, [], IsTrue, IfOk, OnOk, map};
ghost use Rattle.std.specs.List.{AllByRecursion};
ghost use Rattle.std.specs.List.Sorted.{IsStrictlySortedBy};
ghost use Rattle.repo_model.specs.Data.{Proxy as Plain};
ghost use Rattle.repo_model.specs.History.{latest_moment};
ghost use Rattle.repo_model.specs.State.{new_proxy};
ghost use Rattle.repo_model.specs.Tables.{RecordedDocument};
ghost use Rattle.repo_laws.specs.Holds.{document_cmp};
ghost use Rattle.repo_laws.specs.Sound.{AreProxiesApart};
ghost use Rattle.proxy_rules.specs.Rules.{shown_rule};
ghost use Rattle.row_tables.specs.Stored.{shown_document};
ghost use Rattle.repo_restart.specs.Rows.{HasProxyForm};
ghost use Rattle.repo_restart.specs.Taking.{with_taken_document, with_documents};

use crate::taking::proxy_place;
use outside::{Held, NoMemory};
use proxy_rules::{Proxy, Rule};
use repo_config::ProxyRule;
use row_tables::{KeptDocument, Place, Tables};
use std::alloc::Global;
use texts::Text;

// The rule that the settings say.
fn rule_of(alloc: Global, told: &ProxyRule) -> Result<Rule, NoMemory>
    ensures { IfOk result (λ rule. shown_rule rule ≡ told.now) }
{
    Ok(Rule {
        id: Text::new(alloc, told.id())?,
        host: Text::new(alloc, told.host())?,
        port: told.port(),
        prefix: Text::new(alloc, told.prefix())?,
        update: told.update(),
        negative_seconds: told.negative_seconds(),
        allow: told.allow().copied(alloc)?,
        block: told.block().copied(alloc)?,
    })
}

/// The proxies of the settings, which keep nothing.
pub fn empty_proxies<H: Held>(alloc: Global, rules: &[ProxyRule]) -> Result<Vec<Proxy<H>>, NoMemory>
    requires { AllByRecursion HasProxyForm rules.now }
    ensures { IfOk result (λ proxies. proxies.items ≡ map new_proxy rules.now) }
{
    let mut proxies = Vec::new(alloc);
    for rule in rules {
        proxies.push(Proxy::new(alloc, rule_of(alloc, rule)?))?;
    }
    Ok(proxies)
}

// A document comes back to the proxy of its id. Where there is none it stays in the tables alone.
fn take_document<H: Held>(
    alloc: Global,
    proxies: &mut Vec<Proxy<H>>,
    place: &Place,
    kept: &KeptDocument,
) -> Result<(), NoMemory>
    requires { kept.now.checked ≤ latest_moment }
    ensures { OnOk result (proxies.new.items ≡ with_taken_document (shown_document (place.now, kept.now)) proxies.old.items) }
{
    let Some(index) = proxy_place(proxies, place.0.as_str()) else {
        return Ok(());
    };
    let doc = kept.document.copied(alloc)?;
    proxies[index].restore_document(place.1.as_str(), doc, kept.checked)?;
    Ok(())
}

/// The documents that are recorded come back to their proxies, which keep none yet. One of an id that no proxy has stays in the
/// tables alone.
pub fn take_documents<H: Held>(
    alloc: Global,
    proxies: &mut Vec<Proxy<H>>,
    tables: &Tables,
) -> Result<(), NoMemory>
    requires apart { AreProxiesApart (map (λ (p : Plain). p.rule) proxies.old.items) }
    requires none { AllByRecursion (λ (p : Plain). p.documents ≡ []) proxies.old.items }
    requires rising { IsStrictlySortedBy document_cmp tables.now.documents }
    requires in_time { AllByRecursion (λ (d : RecordedDocument). d.checked ≤ latest_moment) tables.now.documents }
    ensures { OnOk result (proxies.new.items ≡ with_documents tables.now.documents proxies.old.items) }
{
    for (place, kept) in tables.documents() {
        take_document(alloc, proxies, place, kept)?;
    }
    Ok(())
}
