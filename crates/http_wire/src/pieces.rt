//! Bodies that are taken off a stream piece by piece.
ghost use Rattle.std.specs.Prelude.{◌≡◌, ◌<◌, ◌≤◌, ◌++◌, ◌⊎◌, ℕ, [], length, take, IfErr, IfOk, OnErr};
ghost use Rattle.outside.specs.Faults.{HasCause};
ghost use Rattle.outside.specs.Told.{IsAtEnd, in_front};

use crate::faults::WireFault;
use crate::wires::Wire;
use outside::{Failed, Source};

/// Reads once, at most `most` bytes, into the front of `buffer`.
fn read_front<S: Source>(source: &mut S, buffer: &mut [u8], most: usize) -> Result<usize, Failed>
    requires { most ≤ length buffer.old }
    ensures cause { HasCause (S.read_faults source.old) (S.read_faults source.new) result }
    ensures count { IfOk result (λ n. n ≤ most) }
    ensures given { IfOk result (λ n. S.left source.old ≡ in_front (take n buffer.new) (S.left source.new)) }
    ensures end { IfOk result (λ n. n ≡ 0 → 0 < most → IsAtEnd (S.left source.new)) }
    ensures failed { OnErr result (S.left source.new ≡ S.left source.old) }
    ensures length { length buffer.new ≡ length buffer.old }
    ensures taken { S.taken source.new ≡ S.taken source.old }
    ensures write_faults { S.write_faults source.new ≡ S.write_faults source.old }
{
    source.read(&mut buffer[..most])
}

impl Wire {
    ghost use Rattle.http_wire.specs.Stream.{CountsFaults, unread};
    ghost use Rattle.http_wire.specs.declared.faults.WireFault.TheVariants.{SourceFault, Torn};

    /// Moves at most `most` of the bytes that are held, from their front, to the front of `buffer`.
    fn hand_over(&mut self, buffer: &mut [u8], most: usize) -> usize
        requires { most ≤ length buffer.old }
        ensures count { result ≤ most }
        ensures some { 0 < length self.old → 0 < most → 0 < result }
        ensures given { self.old ≡ take result buffer.new ++ self.new }
        ensures length { length buffer.new ≡ length buffer.old }
    {
        let count = most.min(self.held().len());
        buffer[..count].copy_from_slice(&self.held()[..count]);
        self.use_up(count);
        count
    }

    /// Takes some of the next `left` bytes from the wire, or where it holds none by one read of the source, into the front of
    /// `buffer`, and says how many. It takes no memory. What stands in `buffer` after them isn't said.
    ///
    /// After `Torn` the stream is at its end, and was before. After `SourceFault` no byte is gone. Where the wire holds a byte
    /// the source isn't read.
    pub fn piece<S: Source>(
        &mut self,
        source: &mut S,
        left: u64,
        buffer: &mut [u8],
    ) -> Result<usize, WireFault>
        ensures count { IfOk result (λ n. (n ≤ left) × (n ≤ length buffer.new)) }
        ensures given { IfOk result (λ n. unread self.old (S.left source.old)
            ≡ in_front (take n buffer.new) (unread self.new (S.left source.new))) }

        // What the wire holds comes first, and nothing is held back.
        ensures held { 0 < length self.old → (n : ℕ) × (result ≡ Ok n) × (self.old ≡ take n buffer.new ++ self.new) }
        ensures still { self.old ≡ [] → self.new ≡ [] }

        // It gives none exactly where none is wanted.
        ensures some { IfOk result (λ n. n ≡ 0 → (left ≡ 0) ⊎ (length buffer.new ≡ 0)) }
        ensures none { (left ≡ 0) ⊎ (length buffer.old ≡ 0) → result ≡ Ok 0 }

        // Each fault comes only for its cause, over a wire that holds nothing, and no byte is gone.
        ensures torn { result ≡ Err WireFault.Torn → IsAtEnd (unread self.old (S.left source.old)) }
        ensures empty { OnErr result (self.old ≡ []) }
        ensures kept { OnErr result (unread self.new (S.left source.new) ≡ unread self.old (S.left source.old)) }
        ensures kinds { IfErr result (λ fault. (fault ≡ WireFault.Torn) ⊎ (fault ≡ WireFault.SourceFault)) }
        ensures unasked { 0 < length self.old → source.new ≡ source.old }
        ensures unwanted { (left ≡ 0) ⊎ (length buffer.old ≡ 0) → source.new ≡ source.old }
        ensures faults { CountsFaults (S.read_faults source.old) (S.read_faults source.new) result }
        ensures taken { S.taken source.new ≡ S.taken source.old }
        ensures write_faults { S.write_faults source.new ≡ S.write_faults source.old }
    {
        let most = left.min(buffer.len() as u64) as usize;
        if most == 0 {
            return Ok(0);
        }
        if !self.held().is_empty() {
            return Ok(self.hand_over(buffer, most));
        }
        let count = read_front(source, buffer, most)?;
        if count == 0 {
            return Err(WireFault::Torn);
        }
        Ok(count)
    }
}
