//! The settings of a repository: what a settings file says, or its first fault.
#![tactic(auto)]

mod copies;
mod faults;
mod names;
mod parts;
mod reading;
mod rules;
mod settings;
mod source;

pub use faults::SettingsFault;
pub use rules::{GroupRule, HostedRule, ProxyRule};
pub use settings::{Settings, read};
pub use source::{SourceFault, read_from};
