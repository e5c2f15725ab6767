//! The ids of repositories, and which of them are refused because of others.
ghost use Rattle.std.specs.Prelude.{◌≡◌, ◌&&◌, ◌++◌, ◌∷◌, [], IfErr, IfOk, None, OnOk, map, nat_le};
ghost use Rattle.std.specs.List.{find, flat_map, list_any};
ghost use Rattle.std.specs.Option.{option_copied, option_map};
ghost use Rattle.std.specs.Str.{bytes_eq};
ghost use Rattle.repo_config.specs.Names as spec;
ghost use Rattle.repo_config.specs.Refusal as refusal;
ghost use Rattle.repo_config.specs.Refusal.{IsDue};
ghost use Rattle.settings_keys.specs.Ids.{first_twice, is_among};

use crate::faults::{SettingsFault, name_of};
use crate::parts::Parts;
use crate::rules::{GroupRule, HostedRule, ProxyRule};
use std::alloc::Global;
use texts::Text;

/// Checks the repositories together: how many there are, whether an id stands twice, and the members of the groups.
pub(crate) fn check_parts(alloc: Global, parts: &Parts) -> Result<(), SettingsFault>
    ensures ok { OnOk result (refusal.name_refusal (spec.ids_of parts.now) parts.now.groups ≡ None) }
    ensures err { IfErr result (IsDue (refusal.name_refusal (spec.ids_of parts.now) parts.now.groups)) }
{
    let ids = all_ids(alloc, parts)?;
    check_names(alloc, &parts.groups, &ids)
}

fn check_names(alloc: Global, groups: &[GroupRule], ids: &[&str]) -> Result<(), SettingsFault>
    ensures ok { OnOk result (refusal.name_refusal (map (λ id. id.now) ids.now) groups.now ≡ None) }
    ensures err { IfErr result (IsDue (refusal.name_refusal (map (λ id. id.now) ids.now) groups.now)) }
{
    check_count(alloc, ids)?;
    check_twice(alloc, ids)?;
    check_members(alloc, groups, ids)
}

fn check_count(alloc: Global, ids: &[&str]) -> Result<(), SettingsFault>
    ensures ok { OnOk result (refusal.wrong_count (map (λ id. id.now) ids.now) ≡ None) }
    ensures err { IfErr result (IsDue (refusal.wrong_count (map (λ id. id.now) ids.now))) }
{
    if is_count(ids.len()) {
        return Ok(());
    }
    Err(SettingsFault::Range(name_of(alloc, "repositories")?))
}

fn is_count(count: usize) -> bool
    ensures { result ≡ (nat_le 1 count && nat_le count 64) }
{
    1 <= count && count <= 64
}

fn check_twice(alloc: Global, ids: &[&str]) -> Result<(), SettingsFault>
    ensures ok { OnOk result (first_twice [] (map (λ id. id.now) ids.now) ≡ None) }
    ensures err { IfErr result
        (IsDue (option_map SettingsFault.TwiceNamed (first_twice [] (map (λ id. id.now) ids.now)))) }
{
    match first_twice(ids) {
        Some(id) => Err(SettingsFault::TwiceNamed(name_of(alloc, id)?)),
        None => Ok(()),
    }
}

fn check_members(alloc: Global, groups: &[GroupRule], ids: &[&str]) -> Result<(), SettingsFault>
    ensures ok { OnOk result (refusal.member_refusal (map (λ id. id.now) ids.now) groups.now ≡ None) }
    ensures err { IfErr result (IsDue (refusal.member_refusal (map (λ id. id.now) ids.now) groups.now)) }
{
    check_strangers(alloc, groups, ids)?;
    check_groups(alloc, groups)
}

fn check_strangers(alloc: Global, groups: &[GroupRule], ids: &[&str]) -> Result<(), SettingsFault>
    ensures ok { OnOk result (spec.no_member (map (λ id. id.now) ids.now) groups.now ≡ None) }
    ensures err { IfErr result
        (IsDue (option_map SettingsFault.NoMember (spec.no_member (map (λ id. id.now) ids.now) groups.now))) }
{
    match first_member(groups, ids, false) {
        Some(id) => Err(SettingsFault::NoMember(name_of(alloc, id)?)),
        None => Ok(()),
    }
}

fn check_groups(alloc: Global, groups: &[GroupRule]) -> Result<(), SettingsFault>
    ensures ok { OnOk result (spec.member_is_group groups.now ≡ None) }
    ensures err { IfErr result (IsDue (option_map SettingsFault.MemberIsGroup (spec.member_is_group groups.now))) }
{
    let ids = group_ids(alloc, groups)?;
    match first_member(groups, &ids, true) {
        Some(id) => Err(SettingsFault::MemberIsGroup(name_of(alloc, id)?)),
        None => Ok(()),
    }
}

/// The first id that stands among those before it.
fn first_twice<'a>(ids: &[&'a str]) -> Option<&'a str>
    ensures { option_copied result ≡ first_twice [] (map (λ id. id.now) ids.now) }
{
    for (index, id) in ids.iter().enumerate() {
        if is_among(&ids[..index], id) {
            return Some(*id);
        }
    }
    None
}

fn is_among(ids: &[&str], id: &str) -> bool
    ensures { result ≡ is_among (map (λ id. id.now) ids.now) id.now }
{
    some_is(ids, id)
}

fn some_is(ids: &[&str], id: &str) -> bool
    ensures { result ≡ list_any (λ other. bytes_eq other.now id.now) ids.now }
{
    ids.iter().any(|other| *other == id)
}

/// The first member of the groups that is among the ids, or that is not, as asked.
fn first_member<'a>(groups: &'a [GroupRule], ids: &[&str], among: bool) -> Option<&'a str>
    ensures { option_copied result
        ≡ find (spec.is_as among (map (λ id. id.now) ids.now)) (flat_map (λ group. group.members) groups.now) }
{
    for group in groups {
        if let Some(member) = first_of(group.members(), ids, among) {
            return Some(member);
        }
    }
    None
}

fn first_of<'a>(members: &'a [Text], ids: &[&str], among: bool) -> Option<&'a str>
    ensures { option_copied result ≡ find (spec.is_as among (map (λ id. id.now) ids.now)) members.now }
{
    for member in members {
        if is_as(member.as_str(), ids, among) {
            return Some(member.as_str());
        }
    }
    None
}

fn is_as(member: &str, ids: &[&str], among: bool) -> bool
    ensures { result ≡ spec.is_as among (map (λ id. id.now) ids.now) member.now }
{
    let found = is_among(ids, member);
    if among { found } else { !found }
}

/// All ids: of the hosted repositories, the proxies and the groups, each as written.
fn all_ids(alloc: Global, parts: &Parts) -> Result<Vec<&str>, SettingsFault>
    ensures ok { IfOk result (λ ids. map (λ id. id.now) ids.items ≡ spec.ids_of parts.now) }
    ensures err { IfErr result (λ fault. fault ≡ SettingsFault.NoMemory) }
{
    let mut ids = Vec::new(alloc);
    push_hosted_ids(&mut ids, &parts.hosted)?;
    push_proxy_ids(&mut ids, &parts.proxies)?;
    push_group_ids(&mut ids, &parts.groups)?;
    Ok(ids)
}

fn group_ids(alloc: Global, groups: &[GroupRule]) -> Result<Vec<&str>, SettingsFault>
    ensures ok { IfOk result (λ ids. map (λ id. id.now) ids.items ≡ map (λ group. group.id) groups.now) }
    ensures err { IfErr result (λ fault. fault ≡ SettingsFault.NoMemory) }
{
    let mut ids = Vec::new(alloc);
    push_group_ids(&mut ids, groups)?;
    Ok(ids)
}

fn push_hosted_ids<'a>(ids: &mut Vec<&'a str>, rules: &'a [HostedRule]) -> Result<(), SettingsFault>
    ensures ok { OnOk result (map (λ id. id.now) ids.new.items
        ≡ map (λ id. id.now) ids.old.items ++ map (λ rule. rule.id) rules.now) }
    ensures err { IfErr result (λ fault. fault ≡ SettingsFault.NoMemory) }
{
    for rule in rules {
        push_id(ids, rule.id())?;
    }
    Ok(())
}

fn push_proxy_ids<'a>(ids: &mut Vec<&'a str>, rules: &'a [ProxyRule]) -> Result<(), SettingsFault>
    ensures ok { OnOk result (map (λ id. id.now) ids.new.items
        ≡ map (λ id. id.now) ids.old.items ++ map (λ rule. rule.id) rules.now) }
    ensures err { IfErr result (λ fault. fault ≡ SettingsFault.NoMemory) }
{
    for rule in rules {
        push_id(ids, rule.id())?;
    }
    Ok(())
}

fn push_group_ids<'a>(ids: &mut Vec<&'a str>, rules: &'a [GroupRule]) -> Result<(), SettingsFault>
    ensures ok { OnOk result (map (λ id. id.now) ids.new.items
        ≡ map (λ id. id.now) ids.old.items ++ map (λ rule. rule.id) rules.now) }
    ensures err { IfErr result (λ fault. fault ≡ SettingsFault.NoMemory) }
{
    for rule in rules {
        push_id(ids, rule.id())?;
    }
    Ok(())
}

fn push_id<'a>(ids: &mut Vec<&'a str>, id: &'a str) -> Result<(), SettingsFault>
    ensures ok { OnOk result (map (λ id. id.now) ids.new.items ≡ map (λ id. id.now) ids.old.items ++ id.now ∷ []) }
    ensures err { IfErr result (λ fault. fault ≡ SettingsFault.NoMemory) }
{
    match ids.push(id) {
        Ok(()) => Ok(()),
        Err(_) => Err(SettingsFault::NoMemory),
    }
}
