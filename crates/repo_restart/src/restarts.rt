//! What is recorded becomes repositories again.
ghost use Rattle.std.specs.Prelude.{◌≡◌, [], IsTrue, IfOk, OnOk, OnErr};
ghost use Rattle.std.specs.List.{AllByRecursion};
ghost use Rattle.repo_model.specs.Restart.{blobs_named};
ghost use Rattle.row_tables.specs.Items.{is_id};
ghost use Rattle.repo_laws.specs.Sound.{AreNamedApart, AreProxiesApart};
ghost use Rattle.blob_audit.specs.Damages.{AreDamaged, IsFirstDamaged};
ghost use Rattle.blob_audit.specs.Order.{all_rows};
ghost use Rattle.repo_restart.specs.Faults.{HasRestoreCause, OnDamage};
ghost use Rattle.repo_restart.specs.Leftovers.{Clears, ClearsFront};
ghost use Rattle.repo_restart.specs.Rows.{AreRestored, HasProxyForm, IsRestorable};

use crate::faults::RestoreFault;
use crate::leftovers::clear;
use crate::numbers::named_numbers;
use crate::proxies::take_documents;
use crate::restoring::restored;
use blob_audit::all_files;
use hosted_repo::Hosted;
use outside::{Blobs, Held};
use proxy_rules::Proxy;
use repo_config::{HostedRule, ProxyRule};
use row_tables::Tables;
use std::alloc::Global;

/// What a start makes of what is recorded.
#[derive(Drop)]
pub struct Restored<H: Held> {
    /// The hosted repositories, in the order of the settings.
    pub repos: Vec<Hosted<H>>,
    /// The proxies, in the order of the settings.
    pub proxies: Vec<Proxy<H>>,
    /// The numbers of the blobs that rows name: of hosted repositories, and then of proxies.
    pub named: Vec<u64>,
    /// The next number for a blob, from 1 to 2^63: one more than the greatest below 2^63 of all that rows name or the store had.
    pub next: u64,
}

/// Makes the hosted repositories and the proxies of these rules from what is recorded. First each recorded file is looked at, of hosted
/// repositories and of proxies, in byte order of repository and then of path, a hosted file before a proxy's: its blob is
/// read once and compared with what was recorded, and at the first that differs, or is not there, the call ends with
/// `Damaged` and has changed nothing. A file of a repository that has no rule is looked at and let go. Documents then come back to
/// their proxies, each written anew for its digests; one of a proxy that has no rule stays in the tables alone. Then the blobs that
/// no row names are removed, in the order of the store; where that fails, or memory runs out, the first ones of these are gone
/// and no others. `Store` comes where the store failed.
///
/// Beside rows, documents and numbers it holds the bytes of one blob at a time. It passes once over the rows, once over the
/// documents and once over the stored numbers, and seeks a rule for each row and document and a number for each stored blob.
pub fn restore<B: Blobs>(
    alloc: Global,
    rules: &[HostedRule],
    proxy_rules: &[ProxyRule],
    tables: &Tables,
    blobs: &mut B,
) -> Result<Restored<B::Held>, RestoreFault>
    requires ids { AllByRecursion (λ rule. IsTrue (is_id rule.id)) rules.now }
    requires forms { AllByRecursion HasProxyForm proxy_rules.now }
    requires apart { AreNamedApart rules.now }
    requires proxies { AreProxiesApart proxy_rules.now }
    requires tables { IsRestorable tables.now }
    ensures repos { IfOk result (λ r. AreRestored (B.shelf blobs.old) tables.now rules.now proxy_rules.now r.repos.items r.proxies.items) }
    ensures named { IfOk result (λ r. r.named.items ≡ blobs_named tables.now) }
    ensures next { IfOk result (λ r. Clears (blobs_named tables.now) (B.shelf blobs.old) (B.shelf blobs.new) r.next) }
    ensures sound { OnOk result (AreDamaged (B.shelf blobs.old) (all_rows tables.now) []) }
    ensures damaged { OnDamage result (λ damage.
        IsFirstDamaged (B.shelf blobs.old) (all_rows tables.now) damage × (B.shelf blobs.new ≡ B.shelf blobs.old)) }
    ensures shelf { OnErr result (ClearsFront (blobs_named tables.now) (B.shelf blobs.old) (B.shelf blobs.new)) }
    ensures cause { HasRestoreCause (B.faults blobs.old) (B.faults blobs.new) result }
{
    let files = all_files(alloc, tables)?;
    let mut goods = restored(alloc, rules, proxy_rules, &files, blobs)?;
    take_documents(alloc, &mut goods.proxies, tables)?;
    let named = named_numbers(alloc, tables)?;
    let next = clear(alloc, &named, blobs)?;
    Ok(Restored {
        repos: goods.repos,
        proxies: goods.proxies,
        named,
        next,
    })
}
