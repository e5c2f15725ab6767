ghost use Rattle.std.specs.Prelude.{◌≡◌, ◌≤◌, ◌<◌, ◌+◌, ◌^◌, ℕ, Option, None, length, take, drop, IfOk, IfSome, OnOk, MatchResult};
ghost use Rattle.outside.specs.Faults.{HasCause};
ghost use Rattle.record_disk.specs.Disk.{Trace, Write, Cut, Sync, After, content, IsImage, Told, MayHave, written};

use outside::Failed;

/// A file on a disk, of at most 2^63 - 1 bytes. Each call is whole or `Failed`; a write or a cut that failed may have
/// been made in part, as the trace tells.
pub trait Disk {
    // How many calls have failed. It never falls.
    ghost faults: { Self → ℕ };

    // The calls made since the file was opened, where the disk tells them, as it then does for good. What a read gives
    // and what a crash may leave is read off it.
    ghost trace: { Self → Option Trace } = { λ _. None };

    /// How many bytes the file has. What a read gives is one of the images that a crash may leave.
    fn size(&mut self) -> Result<u64, Failed>
        ensures cause { HasCause (faults self.old) (faults self.new) result }
        ensures within { IfOk result (λ size. size < 2 ^ 63) }
        ensures told { IfOk result (λ size. IfSome (trace self.old) (λ s. size ≡ length (content s))) }
        ensures image { IfSome (trace self.old) (λ s. IsImage s (content s)) }
        ensures same { trace self.new ≡ trace self.old };

    /// Reads as many bytes as `buffer` has, from the place `at` on. Fewer are `Failed`.
    fn read(&mut self, at: u64, buffer: &mut [u8]) -> Result<(), Failed>
        ensures cause { HasCause (faults self.old) (faults self.new) result }
        ensures length { length buffer.new ≡ length buffer.old }
        ensures told { OnOk result (IfSome (trace self.old) (λ s. buffer.new ≡ take (length buffer.old) (drop at (content s)))) }
        ensures same { trace self.new ≡ trace self.old };

    /// Writes over what stands at the place `at`, and past the end. A write that would leave a gap after the end, or
    /// pass 2^63 - 1 bytes, is `Failed`.
    fn write_at(&mut self, at: u64, bytes: &[u8]) -> Result<(), Failed>
        ensures cause { HasCause (faults self.old) (faults self.new) result }
        ensures within { OnOk result (at + length bytes.now < 2 ^ 63) }
        ensures no_gap { OnOk result (IfSome (trace self.old) (λ s. at ≤ length (content s))) }
        ensures told { Told (trace self.old) (trace self.new) (λ s t. MayHave (Write at (length bytes.now)) s t) }
        ensures done { OnOk result (Told (trace self.old) (trace self.new) (λ s t. content t ≡ written (content s) at bytes.now)) };

    /// Cuts the file to its first `size` bytes. A file that has no more stays as it is.
    fn cut(&mut self, size: u64) -> Result<(), Failed>
        ensures cause { HasCause (faults self.old) (faults self.new) result }
        ensures told { Told (trace self.old) (trace self.new) (λ s t. MayHave (Cut size) s t) }
        ensures done { OnOk result (Told (trace self.old) (trace self.new) (λ s t. content t ≡ take size (content s))) };

    /// After it a crash leaves what a read gives.
    fn sync(&mut self) -> Result<(), Failed>
        ensures cause { HasCause (faults self.old) (faults self.new) result }
        ensures told { Told (trace self.old) (trace self.new)
            (λ s t. MatchResult result (λ _. t ≡ After Sync (content s) s) (λ _. t ≡ s)) };
}
