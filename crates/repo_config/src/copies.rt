//! Settings copied into memory of their own.
ghost use Rattle.std.specs.Prelude.{◌≡◌, IfOk};

use crate::parts::Parts;
use crate::rules::{GroupRule, HostedRule, ProxyRule};
use outside::NoMemory;
use path_patterns::Patterns;
use std::alloc::Global;
use texts::Text;

/// The same parts.
pub(crate) fn copy_parts(alloc: Global, parts: &Parts) -> Result<Parts, NoMemory>
    ensures { IfOk result (λ copy. copy ≡ parts.now) }
{
    Ok(Parts {
        grace: parts.grace,
        clean: parts.clean,
        max_file: parts.max_file,
        hosted: copy_hosted(alloc, &parts.hosted)?,
        proxies: copy_proxies(alloc, &parts.proxies)?,
        groups: copy_groups(alloc, &parts.groups)?,
    })
}

fn copy_hosted(alloc: Global, rules: &[HostedRule]) -> Result<Vec<HostedRule>, NoMemory>
    ensures { IfOk result (λ copy. copy.items ≡ rules.now) }
{
    let mut copy = Vec::new(alloc);
    for rule in rules {
        copy.push(copy_hosted_rule(alloc, rule)?)?;
    }
    Ok(copy)
}

fn copy_hosted_rule(alloc: Global, rule: &HostedRule) -> Result<HostedRule, NoMemory>
    ensures { IfOk result (λ copy. copy ≡ rule.now) }
{
    Ok(HostedRule {
        id: rule.id.copied(alloc)?,
        releases: rule.releases,
        snapshots: rule.snapshots,
        keep_count: rule.keep_count,
        keep_days: rule.keep_days,
    })
}

fn copy_proxies(alloc: Global, rules: &[ProxyRule]) -> Result<Vec<ProxyRule>, NoMemory>
    ensures { IfOk result (λ copy. copy.items ≡ rules.now) }
{
    let mut copy = Vec::new(alloc);
    for rule in rules {
        copy.push(copy_proxy(alloc, rule)?)?;
    }
    Ok(copy)
}

fn copy_proxy(alloc: Global, rule: &ProxyRule) -> Result<ProxyRule, NoMemory>
    ensures { IfOk result (λ copy. copy ≡ rule.now) }
{
    Ok(ProxyRule {
        id: rule.id.copied(alloc)?,
        host: rule.host.copied(alloc)?,
        port: rule.port,
        prefix: rule.prefix.copied(alloc)?,
        update: rule.update,
        negative_seconds: rule.negative_seconds,
        allow: copy_patterns(alloc, &rule.allow)?,
        block: copy_patterns(alloc, &rule.block)?,
    })
}

fn copy_patterns(alloc: Global, patterns: &Patterns) -> Result<Patterns, NoMemory>
    ensures { IfOk result (λ copy. copy ≡ patterns.now) }
{
    let mut copy = Patterns::new(alloc);
    for text in patterns.texts() {
        copy.add(text.as_str())?;
    }
    Ok(copy)
}

fn copy_groups(alloc: Global, rules: &[GroupRule]) -> Result<Vec<GroupRule>, NoMemory>
    ensures { IfOk result (λ copy. copy.items ≡ rules.now) }
{
    let mut copy = Vec::new(alloc);
    for rule in rules {
        copy.push(copy_group(alloc, rule)?)?;
    }
    Ok(copy)
}

fn copy_group(alloc: Global, rule: &GroupRule) -> Result<GroupRule, NoMemory>
    ensures { IfOk result (λ copy. copy ≡ rule.now) }
{
    Ok(GroupRule {
        id: rule.id.copied(alloc)?,
        members: copy_texts(alloc, &rule.members)?,
    })
}

fn copy_texts(alloc: Global, texts: &[Text]) -> Result<Vec<Text>, NoMemory>
    ensures { IfOk result (λ copy. copy.items ≡ texts.now) }
{
    let mut copy = Vec::new(alloc);
    for text in texts {
        copy.push(text.copied(alloc)?)?;
    }
    Ok(copy)
}
