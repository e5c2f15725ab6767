ghost use Rattle.std.specs.Prelude.{◌≡◌, ◌<◌, ◌+◌, ◌^◌, length, take, OnOk};
ghost use Rattle.outside.specs.Faults.{HasCause};
ghost use Rattle.record_disk.specs.Disk.{content, Told, written, IsDurable, Tears, Cuts};

use crate::disk::Disk;
use outside::Failed;

/// Writes, and syncs.
pub fn write_through<D: Disk>(disk: &mut D, at: u64, bytes: &[u8]) -> Result<(), Failed>
    ensures cause { HasCause (D.faults disk.old) (D.faults disk.new) result }
    ensures within { OnOk result (at + length bytes.now < 2 ^ 63) }
    ensures told { Told (D.trace disk.old) (D.trace disk.new) (λ s t. Tears at (length bytes.now) s t) }
    ensures done { OnOk result (Told (D.trace disk.old) (D.trace disk.new) (λ s t. IsDurable (written (content s) at bytes.now) t)) }
{
    disk.write_at(at, bytes)?;
    disk.sync()
}

/// Cuts, and syncs.
pub fn cut_through<D: Disk>(disk: &mut D, size: u64) -> Result<(), Failed>
    ensures cause { HasCause (D.faults disk.old) (D.faults disk.new) result }
    ensures told { Told (D.trace disk.old) (D.trace disk.new) (λ s t. Cuts size s t) }
    ensures done { OnOk result (Told (D.trace disk.old) (D.trace disk.new) (λ s t. IsDurable (take size (content s)) t)) }
{
    disk.cut(size)?;
    disk.sync()
}
