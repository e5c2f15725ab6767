//! The settings of a document, with the defaults of what it leaves out. A value that does not fit counts as left out.
ghost use Rattle.std.specs.Prelude.{◌≡◌, ◌++◌, ◌∷◌, [], IfErr, IfOk, OnOk, codes, filter, map};
ghost use Rattle.std.specs.List.{filter_map};
ghost use Rattle.toml.specs.Data.{as_str, as_table};
ghost use Rattle.toml.specs.View.{table_view, view};
ghost use Rattle.path_patterns.specs.Pattern.{is_pattern};
ghost use Rattle.repo_config.specs.Reading as spec;
ghost use Rattle.settings_keys.specs.Values.{texts_in};

use crate::faults::{SettingsFault, name_of};
use crate::rules::{GroupRule, HostedRule, ProxyRule};
use path_patterns::Patterns;
use repo_model::Update;
use settings_keys::{flag_at, items_at, items_in, number_at, text_at, value_at};
use std::alloc::Global;
use texts::Text;
use toml::{Table, Value};

/// The hosted repositories of an array of tables.
pub(crate) fn hosted_rules(alloc: Global, items: &[Value]) -> Result<Vec<HostedRule>, SettingsFault>
    ensures ok { IfOk result (λ rules. rules.items
        ≡ map spec.hosted_rule (filter_map as_table (map view items.now))) }
    ensures err { IfErr result (λ fault. fault ≡ SettingsFault.NoMemory) }
{
    let mut rules = Vec::new(alloc);
    for item in items {
        push_hosted(alloc, &mut rules, item)?;
    }
    Ok(rules)
}

fn push_hosted(
    alloc: Global,
    rules: &mut Vec<HostedRule>,
    item: &Value,
) -> Result<(), SettingsFault>
    ensures ok { OnOk result (rules.new.items
        ≡ rules.old.items ++ map spec.hosted_rule (filter_map as_table (view item.now ∷ []))) }
    ensures err { IfErr result (λ fault. fault ≡ SettingsFault.NoMemory) }
{
    let Some(table) = item.as_table() else {
        return Ok(());
    };
    let rule = hosted_rule(alloc, table)?;
    match rules.push(rule) {
        Ok(()) => Ok(()),
        Err(_) => Err(SettingsFault::NoMemory),
    }
}

fn hosted_rule(alloc: Global, table: &Table) -> Result<HostedRule, SettingsFault>
    ensures ok { IfOk result (λ rule. rule ≡ spec.hosted_rule (table_view table.now)) }
    ensures err { IfErr result (λ fault. fault ≡ SettingsFault.NoMemory) }
{
    let id = name_of(alloc, text_at(table, "id", ""))?;
    Ok(HostedRule {
        id,
        releases: flag_at(table, "releases"),
        snapshots: flag_at(table, "snapshots"),
        keep_count: number_at(table, "keep_count", 1, 1_000, 1_000),
        keep_days: number_at(table, "keep_days", 0, 36_500, 36_500),
    })
}

/// The proxies of an array of tables.
pub(crate) fn proxy_rules(alloc: Global, items: &[Value]) -> Result<Vec<ProxyRule>, SettingsFault>
    ensures ok { IfOk result (λ rules. rules.items
        ≡ map spec.proxy_rule (filter_map as_table (map view items.now))) }
    ensures err { IfErr result (λ fault. fault ≡ SettingsFault.NoMemory) }
{
    let mut rules = Vec::new(alloc);
    for item in items {
        push_proxy(alloc, &mut rules, item)?;
    }
    Ok(rules)
}

fn push_proxy(alloc: Global, rules: &mut Vec<ProxyRule>, item: &Value) -> Result<(), SettingsFault>
    ensures ok { OnOk result (rules.new.items
        ≡ rules.old.items ++ map spec.proxy_rule (filter_map as_table (view item.now ∷ []))) }
    ensures err { IfErr result (λ fault. fault ≡ SettingsFault.NoMemory) }
{
    let Some(table) = item.as_table() else {
        return Ok(());
    };
    let rule = proxy_rule(alloc, table)?;
    match rules.push(rule) {
        Ok(()) => Ok(()),
        Err(_) => Err(SettingsFault::NoMemory),
    }
}

fn proxy_rule(alloc: Global, table: &Table) -> Result<ProxyRule, SettingsFault>
    ensures ok { IfOk result (λ rule. rule ≡ spec.proxy_rule (table_view table.now)) }
    ensures err { IfErr result (λ fault. fault ≡ SettingsFault.NoMemory) }
{
    let id = name_of(alloc, text_at(table, "id", ""))?;
    let host = name_of(alloc, text_at(table, "host", ""))?;
    let prefix = name_of(alloc, text_at(table, "prefix", ""))?;
    let allow = allowed_patterns(alloc, table)?;
    let block = blocked_patterns(alloc, table)?;
    Ok(ProxyRule {
        id,
        host,
        port: number_at(table, "port", 1, 65_535, 80) as u16,
        prefix,
        update: update_of(text_at(table, "update", "daily")),
        negative_seconds: number_at(table, "negative_seconds", 0, 86_400, 3_600),
        allow,
        block,
    })
}

fn update_of(text: &str) -> Update
    ensures { result ≡ spec.update_of text.now }
{
    match text {
        "always" => Update::Always,
        "hourly" => Update::Hourly,
        "once" => Update::Once,
        "never" => Update::Never,
        _ => Update::Daily,
    }
}

fn allowed_patterns(alloc: Global, table: &Table) -> Result<Patterns, SettingsFault>
    ensures ok { IfOk result (λ list. list ≡ spec.patterns_at (codes "allow") (codes "**" ∷ []) (table_view table.now)) }
    ensures err { IfErr result (λ fault. fault ≡ SettingsFault.NoMemory) }
{
    if let Some(value) = value_at(table, "allow") {
        return patterns_in(alloc, value);
    }
    let mut patterns = Patterns::new(alloc);
    match patterns.add("**") {
        Ok(()) => Ok(patterns),
        Err(_) => Err(SettingsFault::NoMemory),
    }
}

fn blocked_patterns(alloc: Global, table: &Table) -> Result<Patterns, SettingsFault>
    ensures ok { IfOk result (λ list. list ≡ spec.patterns_at (codes "block") [] (table_view table.now)) }
    ensures err { IfErr result (λ fault. fault ≡ SettingsFault.NoMemory) }
{
    match value_at(table, "block") {
        Some(value) => patterns_in(alloc, value),
        None => Ok(Patterns::new(alloc)),
    }
}

fn patterns_in(alloc: Global, value: &Value) -> Result<Patterns, SettingsFault>
    ensures ok { IfOk result (λ list. list ≡ filter is_pattern (texts_in (view value.now))) }
    ensures err { IfErr result (λ fault. fault ≡ SettingsFault.NoMemory) }
{
    let items = items_in(value);
    let mut patterns = Patterns::new(alloc);
    for item in items {
        add_pattern(&mut patterns, item)?;
    }
    Ok(patterns)
}

fn add_pattern(patterns: &mut Patterns, item: &Value) -> Result<(), SettingsFault>
    ensures ok { OnOk result (patterns.new
        ≡ patterns.old ++ filter is_pattern (filter_map as_str (view item.now ∷ []))) }
    ensures err { IfErr result (λ fault. fault ≡ SettingsFault.NoMemory) }
{
    let Some(text) = item.as_str() else {
        return Ok(());
    };
    match patterns.add(text) {
        Ok(()) => Ok(()),
        Err(_) => Err(SettingsFault::NoMemory),
    }
}

/// The groups of an array of tables.
pub(crate) fn group_rules(alloc: Global, items: &[Value]) -> Result<Vec<GroupRule>, SettingsFault>
    ensures ok { IfOk result (λ rules. rules.items
        ≡ map spec.group_rule (filter_map as_table (map view items.now))) }
    ensures err { IfErr result (λ fault. fault ≡ SettingsFault.NoMemory) }
{
    let mut rules = Vec::new(alloc);
    for item in items {
        push_group(alloc, &mut rules, item)?;
    }
    Ok(rules)
}

fn push_group(alloc: Global, rules: &mut Vec<GroupRule>, item: &Value) -> Result<(), SettingsFault>
    ensures ok { OnOk result (rules.new.items
        ≡ rules.old.items ++ map spec.group_rule (filter_map as_table (view item.now ∷ []))) }
    ensures err { IfErr result (λ fault. fault ≡ SettingsFault.NoMemory) }
{
    let Some(table) = item.as_table() else {
        return Ok(());
    };
    let rule = group_rule(alloc, table)?;
    match rules.push(rule) {
        Ok(()) => Ok(()),
        Err(_) => Err(SettingsFault::NoMemory),
    }
}

fn group_rule(alloc: Global, table: &Table) -> Result<GroupRule, SettingsFault>
    ensures ok { IfOk result (λ rule. rule ≡ spec.group_rule (table_view table.now)) }
    ensures err { IfErr result (λ fault. fault ≡ SettingsFault.NoMemory) }
{
    let id = name_of(alloc, text_at(table, "id", ""))?;
    let members = texts_of(alloc, items_at(table, "members"))?;
    Ok(GroupRule { id, members })
}

fn texts_of(alloc: Global, items: &[Value]) -> Result<Vec<Text>, SettingsFault>
    ensures ok { IfOk result (λ texts. texts.items ≡ filter_map as_str (map view items.now)) }
    ensures err { IfErr result (λ fault. fault ≡ SettingsFault.NoMemory) }
{
    let mut texts = Vec::new(alloc);
    for item in items {
        push_text(alloc, &mut texts, item)?;
    }
    Ok(texts)
}

fn push_text(alloc: Global, texts: &mut Vec<Text>, item: &Value) -> Result<(), SettingsFault>
    ensures ok { OnOk result (texts.new.items ≡ texts.old.items ++ filter_map as_str (view item.now ∷ [])) }
    ensures err { IfErr result (λ fault. fault ≡ SettingsFault.NoMemory) }
{
    let Some(text) = item.as_str() else {
        return Ok(());
    };
    let text = name_of(alloc, text)?;
    match texts.push(text) {
        Ok(()) => Ok(()),
        Err(_) => Err(SettingsFault::NoMemory),
    }
}
