//! What a document of settings says, before its repositories are looked at together.
ghost use Rattle.std.specs.Prelude.{◌≡◌, IfErr, IfOk};
ghost use Rattle.toml.specs.View.{table_view};
ghost use Rattle.repo_config.specs.Reading.{settings_of};

use crate::faults::SettingsFault;
use crate::reading::{group_rules, hosted_rules, proxy_rules};
use crate::rules::{GroupRule, HostedRule, ProxyRule};
use settings_keys::{items_at, number_at};
use std::alloc::Global;
use std::marker::Model;
use toml::Table;

#[derive(Drop)]
pub(crate) struct Parts {
    pub grace: u64,
    pub clean: u64,
    pub max_file: u64,
    pub hosted: Vec<HostedRule>,
    pub proxies: Vec<ProxyRule>,
    pub groups: Vec<GroupRule>,
}

impl Model for Parts {
    ghost use Rattle.repo_model.specs.Settings.{Settings};

    ghost Value = { Settings };

    ghost view = { λ p. record {
      grace = p.grace;
      clean = p.clean;
      max_file = p.max_file;
      hosted = p.hosted.items;
      proxies = p.proxies.items;
      groups = p.groups.items;
    } };
}

pub(crate) fn parts_of(alloc: Global, document: &Table) -> Result<Parts, SettingsFault>
    ensures ok { IfOk result (λ parts. parts ≡ settings_of (table_view document.now)) }
    ensures err { IfErr result (λ fault. fault ≡ SettingsFault.NoMemory) }
{
    let hosted = hosted_rules(alloc, items_at(document, "hosted"))?;
    let proxies = proxy_rules(alloc, items_at(document, "proxy"))?;
    let groups = group_rules(alloc, items_at(document, "group"))?;
    Ok(Parts {
        grace: number_at(document, "grace_seconds", 0, 31_536_000, 86_400),
        clean: number_at(document, "clean_seconds", 1, 86_400, 3_600),
        max_file: number_at(document, "max_file", 1, 4_294_967_295, 16_777_216),
        hosted,
        proxies,
        groups,
    })
}
