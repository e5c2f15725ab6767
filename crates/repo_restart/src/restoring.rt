//! All recorded files, one after another.
ghost use Rattle.std.specs.Prelude.{◌≡◌, [], IsTrue, IfOk, OnOk, map};
ghost use Rattle.std.specs.List.{AllByRecursion};
ghost use Rattle.row_tables.specs.Items.{is_id};
ghost use Rattle.repo_laws.specs.Sound.{AreNamedApart, AreProxiesApart};
ghost use Rattle.blob_audit.specs.Damages.{AreDamaged, IsFirstDamaged};
ghost use Rattle.blob_audit.specs.Files.{shown_file};
ghost use Rattle.repo_restart.specs.Faults.{HasRestoreCause, OnDamage};
ghost use Rattle.repo_restart.specs.Rows.{AreCachedRestorable, AreFilesRestored, AreRestorable, AreRowsRestored, HasProxyForm, cached_rows, hosted_rows};

use crate::empties::empty_repos;
use crate::faults::RestoreFault;
use crate::proxies::empty_proxies;
use crate::taking::take_file;
use blob_audit::RecordedFile;
use hosted_repo::{Hosted, HostedBuilder};
use outside::{Blobs, Held, NoMemory, Piece};
use proxy_rules::Proxy;
use repo_config::{HostedRule, ProxyRule};
use std::alloc::Global;

/// Hosted repositories and proxies, each in the order of the settings.
#[derive(Drop)]
pub struct Goods<H: Held> {
    pub repos: Vec<Hosted<H>>,
    pub proxies: Vec<Proxy<H>>,
}

// The repositories with all their documents, each written once.
fn built<H: Held>(
    alloc: Global,
    builders: Vec<HostedBuilder<H>>,
) -> Result<Vec<Hosted<H>>, NoMemory>
    ensures { IfOk result (λ repos. repos.items ≡ builders.items) }
{
    let mut repos = Vec::new(alloc);
    for builder in builders {
        repos.push(builder.build()?)?;
    }
    Ok(repos)
}

/// The repositories and proxies of these rules with the recorded files, each of which is looked at once, in this order and in the
/// same 64 KiB. A file of no such repository or proxy is looked at and let go.
pub fn restored<B: Blobs>(
    alloc: Global,
    rules: &[HostedRule],
    proxy_rules: &[ProxyRule],
    files: &[RecordedFile<'_>],
    blobs: &mut B,
) -> Result<Goods<B::Held>, RestoreFault>
    requires ids { AllByRecursion (λ rule. IsTrue (is_id rule.id)) rules.now }
    requires forms { AllByRecursion HasProxyForm proxy_rules.now }
    requires named { AreNamedApart rules.now }
    requires apart { AreProxiesApart proxy_rules.now }
    requires rows { AreRestorable (hosted_rows (map shown_file files.now)) }
    requires cached { AreCachedRestorable (cached_rows (map shown_file files.now)) }
    ensures repos { IfOk result (λ goods. AreRowsRestored (B.shelf blobs.old) (hosted_rows (map shown_file files.now)) rules.now goods.repos.items) }
    ensures proxies { IfOk result (λ goods. AreFilesRestored (B.shelf blobs.old) (cached_rows (map shown_file files.now)) proxy_rules.now goods.proxies.items) }
    ensures sound { OnOk result (AreDamaged (B.shelf blobs.old) (map (λ f. (shown_file f).row) files.now) []) }
    ensures damaged { OnDamage result (IsFirstDamaged (B.shelf blobs.old) (map (λ f. (shown_file f).row) files.now)) }
    ensures cause { HasRestoreCause (B.faults blobs.old) (B.faults blobs.new) result }
    ensures kept { B.shelf blobs.new ≡ B.shelf blobs.old }
{
    let mut repos = empty_repos(alloc, rules)?;
    let mut proxies = empty_proxies(alloc, proxy_rules)?;
    let mut room = Piece::new(alloc)?;
    for file in files {
        take_file(alloc, blobs, &mut repos, &mut proxies, file, &mut room)?;
    }
    let repos = built(alloc, repos)?;
    Ok(Goods { repos, proxies })
}
