//! Settings, and how a text is read as them.
ghost use Rattle.std.specs.Prelude.{◌≡◌, IfErr, IfOk, None, Ok, OnOk};
ghost use Rattle.toml.specs.View.{table_view};
ghost use Rattle.repo_config.specs.Refusal as spec;

use crate::copies::copy_parts;
use crate::faults::{SettingsFault, name_of};
use crate::names::check_parts;
use crate::parts::{Parts, parts_of};
use crate::rules::{GroupRule, HostedRule, ProxyRule};
use outside::NoMemory;
use settings_keys::{Walk, first_fault};
use std::alloc::Global;
use std::marker::Model;
use toml::Table;

/// What a repository is told: its limits, its hosted repositories, proxies and groups. The ids of the repositories are
/// distinct, there are 1 to 64 of these, and each member of a group is a hosted repository or a proxy.
#[derive(Drop)]
pub struct Settings {
    parts: Parts,
}

impl Model for Settings {
    ghost use Rattle.repo_model.specs.Settings.{Settings as SettingsValue};
    ghost use Rattle.repo_config.specs.Form.{IsSettings};

    ghost Value = { SettingsValue };

    ghost view = { λ s. s.parts };

    ghost invariant = { λ s. IsSettings s.parts };
}

impl Settings {
    ghost use Rattle.repo_config.specs.Form.{IsSettings};

    /// The same settings in memory of their own.
    pub fn copied(&self, alloc: Global) -> Result<Settings, NoMemory>
        ensures { IfOk result (λ copy. copy ≡ self.now) }
    {
        Ok(Settings {
            parts: copy_parts(alloc, &self.parts)?,
        })
    }

    /// Settings have their form.
    pub fn form(&self)
        ensures { IsSettings self.now }
    {
        let _ = &self.parts;
    }

    /// For how many seconds an unlisted file is still answered.
    pub fn grace_seconds(&self) -> u64
        ensures { result ≡ self.now.grace }
    {
        self.parts.grace
    }

    /// How many seconds lie between two cleanings.
    pub fn clean_seconds(&self) -> u64
        ensures { result ≡ self.now.clean }
    {
        self.parts.clean
    }

    /// The longest body of a file, in bytes.
    pub fn max_file(&self) -> u64
        ensures { result ≡ self.now.max_file }
    {
        self.parts.max_file
    }

    /// The hosted repositories, as written.
    pub fn hosted(&self) -> &[HostedRule]
        ensures { result.now ≡ self.now.hosted }
    {
        self.parts.hosted.as_slice()
    }

    /// The proxies, as written.
    pub fn proxies(&self) -> &[ProxyRule]
        ensures { result.now ≡ self.now.proxies }
    {
        self.parts.proxies.as_slice()
    }

    /// The groups, as written.
    pub fn groups(&self) -> &[GroupRule]
        ensures { result.now ≡ self.now.groups }
    {
        self.parts.groups.as_slice()
    }
}

/// The settings that a text says (TOML 1.1), or its first refusal.
pub fn read(alloc: Global, text: &[u8]) -> Result<Settings, SettingsFault>
    ensures ok { IfOk result (λ settings. spec.reading text.now ≡ Ok settings) }
    ensures fault { IfErr result (spec.IsFault (spec.reading text.now)) }
{
    if text.len() > 65_536 {
        return Err(SettingsFault::Range(name_of(alloc, "settings")?));
    }
    let document = document_of(alloc, text)?;
    settings_in(alloc, &document)
}

fn document_of(alloc: Global, text: &[u8]) -> Result<Table, SettingsFault>
    ensures ok { IfOk result (λ document. spec.document_of text.now ≡ Some (table_view document)) }
    ensures fault { IfErr result (spec.IsNoDocument (spec.document_of text.now)) }
{
    match toml::table_from_slice(alloc, text) {
        Ok(document) => Ok(document),
        Err(error) if error.is_memory() => Err(SettingsFault::NoMemory),
        Err(_) => Err(SettingsFault::NotToml),
    }
}

fn settings_in(alloc: Global, document: &Table) -> Result<Settings, SettingsFault>
    ensures ok { IfOk result (λ settings. spec.reading_of (table_view document.now) ≡ Ok settings) }
    ensures fault { IfErr result (spec.IsFault (spec.reading_of (table_view document.now))) }
{
    check_keys(alloc, document)?;
    let parts = parts_of(alloc, document)?;
    check_parts(alloc, &parts)?;
    Ok(Settings { parts })
}

fn check_keys(alloc: Global, document: &Table) -> Result<(), SettingsFault>
    ensures ok { OnOk result (spec.key_refusal (table_view document.now) ≡ None) }
    ensures err { IfErr result (spec.IsDue (spec.key_refusal (table_view document.now))) }
{
    if let Some(key) = first_fault(Walk::Unknown, document) {
        return Err(SettingsFault::Unknown(name_of(alloc, key)?));
    }
    if let Some(key) = first_fault(Walk::Missing, document) {
        return Err(SettingsFault::Missing(name_of(alloc, key)?));
    }
    match first_fault(Walk::Unfit, document) {
        Some(key) => Err(SettingsFault::Range(name_of(alloc, key)?)),
        None => Ok(()),
    }
}
