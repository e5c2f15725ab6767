//! Why a text is not settings.
ghost use Rattle.std.specs.Prelude.{◌≡◌, IfErr, IfOk};

use std::alloc::Global;
use texts::Text;

/// The first refusal of a text of settings. The tables are walked in this order: the document, then the hosted
/// repositories, the proxies and the groups, each as written, and in a table the keys in the order of their bytes.
#[derive(Drop)]
pub enum SettingsFault {
    /// The text is not UTF-8, or no document of TOML 1.1.
    NotToml,
    /// No table of its kind has this key.
    Unknown(Text),
    /// A table lacks this key.
    Missing(Text),
    /// A value of this key has another type or is out of range. `settings`: the text is longer than 65,536 bytes.
    /// `repositories`: there is none, or there are more than 64.
    Range(Text),
    /// Two repositories have this id.
    TwiceNamed(Text),
    /// A group has this member, and no repository has the id.
    NoMember(Text),
    /// A group has this group as a member.
    MemberIsGroup(Text),
    /// Memory was wanting.
    NoMemory,
}

/// A name of its own for a fault.
pub(crate) fn name_of(alloc: Global, name: &str) -> Result<Text, SettingsFault>
    ensures ok { IfOk result (λ text. text ≡ name.now) }
    ensures err { IfErr result (λ fault. fault ≡ SettingsFault.NoMemory) }
{
    match Text::new(alloc, name) {
        Ok(text) => Ok(text),
        Err(_) => Err(SettingsFault::NoMemory),
    }
}
