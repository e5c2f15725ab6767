ghost use Rattle.std.specs.Prelude.{◌≡◌, ◌↔◌, ◌<◌, ◌≤◌, ◌^◌, ℕ, List, [], Some, IfOk, IfSome, IsOk, IsTrue, OnOk, length, min};
ghost use Rattle.outside.specs.Faults.{HasCause};
ghost use Rattle.record_disk.specs.Disk.{After, Sync, content, AllImages, Throughout, Told, Keeps, IsDurable};
ghost use Rattle.record_log.specs.Frames.{IsWhole, IsLong, frames, gate_of, end_of, EndsAt, HoldsFrames};
ghost use Rattle.record_log.specs.Log.{IsAtRest, MaySync, HasLogCause};

use crate::faults::LogFault;
use crate::frame::undo_frame;
use crate::frames::gate_in;
use outside::Failed;
use record_disk::{Disk, write_through};
use std::alloc::Global;

/// The magic and a closed gate.
const NEW: [u8; 9] = [77, 86, 78, 82, 79, 87, 83, 49, 0];

/// Syncs a file and gives all its bytes.
pub fn read_synced<D: Disk>(alloc: Global, disk: &mut D) -> Result<Vec<u8>, LogFault>
    ensures cause { HasLogCause (D.faults disk.old) (D.faults disk.new) result }
    ensures moments { Told (D.trace disk.old) (D.trace disk.new) MaySync }
    ensures synced { OnOk result (Told (D.trace disk.old) (D.trace disk.new) (λ s t. t ≡ After Sync (content s) s)) }
    ensures bytes { IfOk result (λ bytes. IfSome (D.trace disk.old) (λ s. bytes.items ≡ content s)) }
    ensures durable { IfOk result (λ bytes. IfSome (D.trace disk.new) (λ t. IsDurable bytes.items t)) }
{
    disk.sync()?;
    read_all(alloc, disk)
}

/// All bytes of the file.
fn read_all<D: Disk>(alloc: Global, disk: &mut D) -> Result<Vec<u8>, LogFault>
    ensures cause { HasLogCause (D.faults disk.old) (D.faults disk.new) result }
    ensures told { IfOk result (λ bytes. IfSome (D.trace disk.old) (λ s. bytes.items ≡ content s)) }
    ensures same { D.trace disk.new ≡ D.trace disk.old }
{
    let size = disk.size()?;
    let mut bytes = vec![in alloc; 0; size as usize]?;
    disk.read(0, &mut bytes)?;
    Ok(bytes)
}

/// Makes a file that holds nothing anew, of at most as many bytes as are written over them. Nothing is cut, so at no moment it
/// is shorter than it was.
fn renew<D: Disk>(disk: &mut D) -> Result<(), Failed>
    ensures cause { HasCause (D.faults disk.old) (D.faults disk.new) result }
    ensures told { Told (D.trace disk.old) (D.trace disk.new) (λ s t. AllImages (λ image. length image ≤ 9) s → Keeps (HoldsFrames []) s t) }
    ensures done { OnOk result (Told (D.trace disk.old) (D.trace disk.new) (λ s t. length (content s) ≤ 9 → IsAtRest 8 [] t)) }
    ensures length { Told (D.trace disk.old) (D.trace disk.new) (λ s t. (n : ℕ) → AllImages (IsLong n) s → Throughout (IsLong n) s t) }
{
    write_through(disk, 0, &NEW)
}

/// Whether a file with these bytes ends with a closed gate at a place.
fn ends_at(bytes: &[u8], gate: u64) -> bool
    ensures { IsTrue result ↔ EndsAt gate bytes.now }
{
    let end = bytes.len();
    end > 0 && end as u64 - 1 == gate && bytes[end - 1] == 0
}

/// Closes the gate of a file with these bytes, all of them on the disk, where it isn't closed or something stands after it.
fn close<D: Disk>(disk: &mut D, bytes: &[u8], gate: u64) -> Result<(), Failed>
    requires { gate_of (frames bytes.now) ≡ Some gate }
    ensures cause { HasCause (D.faults disk.old) (D.faults disk.new) result }
    ensures told { Told (D.trace disk.old) (D.trace disk.new) (λ s t. IsDurable bytes.now s
        → (payloads : List (List ℕ)) → HoldsFrames payloads bytes.now → Keeps (HoldsFrames payloads) s t) }
    ensures done { OnOk result (Told (D.trace disk.old) (D.trace disk.new) (λ s t. IsDurable bytes.now s
        → (payloads : List (List ℕ)) → HoldsFrames payloads bytes.now → IsAtRest gate payloads t)) }
    ensures still { EndsAt gate bytes.now → IsOk result × (disk.new ≡ disk.old) }
    ensures length { Told (D.trace disk.old) (D.trace disk.new) (λ s t. IsDurable bytes.now s → Throughout (IsLong 8) s t) }
{
    if ends_at(bytes, gate) {
        return Ok(());
    }
    undo_frame(disk, gate)?;
    Ok(())
}

/// Mends the end of a file with these bytes, all of them on the disk, and gives the place of its gate.
pub fn mend_file<D: Disk>(disk: &mut D, bytes: &[u8]) -> Result<u64, Failed>
    requires { IsWhole bytes.now }
    ensures cause { HasCause (D.faults disk.old) (D.faults disk.new) result }
    ensures told { Told (D.trace disk.old) (D.trace disk.new) (λ s t. IsDurable bytes.now s
        → (payloads : List (List ℕ)) → HoldsFrames payloads bytes.now → Keeps (HoldsFrames payloads) s t) }
    ensures done { IfOk result (λ gate. Told (D.trace disk.old) (D.trace disk.new) (λ s t. IsDurable bytes.now s
        → (payloads : List (List ℕ)) → HoldsFrames payloads bytes.now → IsAtRest gate payloads t)) }
    ensures place { IfOk result (λ gate. gate < 2 ^ 63) }
    ensures end { IfOk result (λ gate. gate ≡ end_of (frames bytes.now)) }
    ensures still { (gate : ℕ) → gate_of (frames bytes.now) ≡ Some gate → EndsAt gate bytes.now → IsOk result × (disk.new ≡ disk.old) }
    ensures length { Told (D.trace disk.old) (D.trace disk.new) (λ s t. IsDurable bytes.now s → Throughout (IsLong (min 8 (length bytes.now))) s t) }
{
    match gate_in(bytes) {
        None => {
            renew(disk)?;
            Ok(8)
        }
        Some(gate) => {
            close(disk, bytes, gate)?;
            Ok(gate)
        }
    }
}
