//! Settings that are read from a source, as a file.
ghost use Rattle.std.specs.Prelude.{◌≡◌, length, OnOk};
ghost use Rattle.outside.specs.Told.{IsAtEnd};
ghost use Rattle.repo_config.specs.Source.{HasSourceCause, IsReadFrom, TakesAtMost};

use crate::faults::SettingsFault;
use crate::settings::{Settings, read};
use outside::{Source, read_full};
use std::alloc::Global;

/// Why a source gave no settings.
#[derive(Drop)]
pub enum SourceFault {
    /// The source failed. Its count of faults rose, or stands at 2^64 - 1.
    Failed,
    /// What it had left is refused.
    Refused(SettingsFault),
}

/// The settings that a source says. Where it gives settings the source was read to its end, and it never takes more than
/// 65,537 bytes from it, one more than settings may have.
pub fn read_from<S: Source>(alloc: Global, source: &mut S) -> Result<Settings, SourceFault>
    ensures settings { IsReadFrom (S.left source.old) result }
    ensures cause { HasSourceCause (S.read_faults source.old) (S.read_faults source.new) result }
    ensures left { OnOk result (IsAtEnd (S.left source.new)) }
    ensures taken { TakesAtMost 65537 (S.left source.old) (S.left source.new) }
{
    let Ok(mut buffer) = vec![in alloc; 0; 65_537] else {
        return Err(SourceFault::Refused(SettingsFault::NoMemory));
    };
    read_into(alloc, source, &mut buffer)
}

// The buffer has room for one byte more than settings may have.
fn read_into<S: Source>(
    alloc: Global,
    source: &mut S,
    buffer: &mut [u8],
) -> Result<Settings, SourceFault>
    requires { length buffer.old ≡ 65537 }
    ensures settings { IsReadFrom (S.left source.old) result }
    ensures cause { HasSourceCause (S.read_faults source.old) (S.read_faults source.new) result }
    ensures left { OnOk result (IsAtEnd (S.left source.new)) }
    ensures taken { TakesAtMost 65537 (S.left source.old) (S.left source.new) }
{
    let Ok(count) = read_full(source, buffer) else {
        return Err(SourceFault::Failed);
    };
    match read(alloc, &buffer[..count]) {
        Ok(settings) => Ok(settings),
        Err(fault) => Err(SourceFault::Refused(fault)),
    }
}
