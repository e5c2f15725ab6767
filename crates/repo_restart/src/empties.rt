//! Repositories without rows.
ghost use Rattle.std.specs.Prelude.{◌≡◌, IsTrue, IfOk, map};
ghost use Rattle.std.specs.List.{AllByRecursion};
ghost use Rattle.repo_model.specs.State.{new_hosted};
ghost use Rattle.directory_rows.specs.Rules.{shown_rule};
ghost use Rattle.row_tables.specs.Items.{is_id};

use hosted_repo::{HostedBuilder, Rule};
use outside::{Held, NoMemory};
use repo_config::HostedRule;
use std::alloc::Global;
use texts::Text;

// The rule that the settings say.
fn rule_of(alloc: Global, told: &HostedRule) -> Result<Rule, NoMemory>
    ensures { IfOk result (λ rule. shown_rule rule ≡ told.now) }
{
    Ok(Rule {
        id: Text::new(alloc, told.id())?,
        releases: told.releases(),
        snapshots: told.snapshots(),
        keep_count: told.keep_count(),
        keep_days: told.keep_days(),
    })
}

/// The hosted repositories of the settings, without rows.
pub fn empty_repos<H: Held>(
    alloc: Global,
    rules: &[HostedRule],
) -> Result<Vec<HostedBuilder<H>>, NoMemory>
    requires { AllByRecursion (λ rule. IsTrue (is_id rule.id)) rules.now }
    ensures { IfOk result (λ repos. repos.items ≡ map new_hosted rules.now) }
{
    let mut repos = Vec::new(alloc);
    for rule in rules {
        repos.push(HostedBuilder::new(alloc, rule_of(alloc, rule)?))?;
    }
    Ok(repos)
}
