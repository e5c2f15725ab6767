//! Blobs that are read piece by piece, whose bytes are gathered meanwhile.
ghost use Rattle.std.specs.Prelude.{◌≡◌, ◌++◌, [], Some, true, false, IfOk, IfSome};
ghost use Rattle.outside.specs.Faults.{HasCause};
ghost use Rattle.outside.specs.Parcel.{Describes};
ghost use Rattle.outside.specs.Readings.{Gives, GoesOn, IsReadOut, reading_of};

use crate::contents::{KEPT_BYTES, KeptContent};
use crate::faults::{Failed, NoMemory};
use crate::readings::{Reading, Step};
use crate::stores::Blobs;
use mvn_digest::Digests;
use std::alloc::Global;
use std::marker::Model;

/// A reading that gathers its pieces as it gives them, if its blob is no longer than what is kept, and memory allows. It gives
/// just what the reading gives; contracts see that.
#[derive(Drop)]
pub struct Gathering {
    reading: Reading,
    bytes: Option<Vec<u8>>,
}

impl Model for Gathering {
    ghost use Rattle.std.specs.Prelude.{IfSome};
    ghost use Rattle.outside.specs.Gathered.{IsGathered};
    ghost use Rattle.outside.specs.Readings.{ReadingState};

    ghost Value = { ReadingState };

    ghost view = { λ g. g.reading };

    ghost invariant = { λ g. IfSome g.bytes (λ bytes. IsGathered bytes.items g.reading) };
}

// Room for all bytes of a blob of this length, if it may be kept and there is memory.
fn room_for(alloc: Global, length: u64) -> Option<Vec<u8>>
    ensures { IfSome result (λ bytes. bytes.items ≡ []) }
{
    if length > KEPT_BYTES {
        return None;
    }
    Vec::with_capacity(alloc, length as usize).ok()
}

// The bytes with a piece after them, if memory allows.
fn grown(mut bytes: Vec<u8>, piece: &[u8]) -> Option<Vec<u8>>
    ensures { IfSome result (λ new. new.items ≡ bytes.items ++ piece.now) }
{
    match bytes.extend_from_slice(piece) {
        Ok(()) => Some(bytes),
        Err(_) => None,
    }
}

impl Gathering {
    /// A reading from the first byte on of a blob with this length in bytes and these digests.
    pub fn new(alloc: Global, length: u64, digests: Digests) -> Result<Gathering, NoMemory>
        ensures { IfOk result (λ reading. reading ≡ reading_of length digests) }
    {
        let reading = Reading::new(alloc, length, digests)?;
        Ok(Gathering {
            reading,
            bytes: room_for(alloc, length),
        })
    }

    /// The piece that was given last.
    pub fn piece(&self) -> &[u8]
        ensures { result.now ≡ self.now.piece }
    {
        self.reading.piece()
    }

    /// Reads the next piece, as `Reading::next` does.
    pub fn next<B: Blobs>(&mut self, blobs: &mut B, held: &B::Held) -> Result<Step, Failed>
        requires live { self.old.is_spent ≡ false }
        ensures cause { HasCause (B.faults blobs.old) (B.faults blobs.new) result }
        ensures goes { GoesOn (B.Held.bytes held.now) self.old self.new }
        ensures gives { IfOk result (λ step. Gives self.old self.new step) }
        ensures ended { self.old.is_whole ≡ true → result ≡ Ok Step.End }
        ensures told { IfOk result (λ step. IsReadOut (B.Held.bytes held.now) self.old self.new step) }
        ensures kept { B.shelf blobs.new ≡ B.shelf blobs.old }
    {
        let bytes = self.bytes.take();
        match self.reading.next(blobs, held) {
            Ok(Step::Piece) => {
                if let Some(bytes) = bytes {
                    self.bytes = grown(bytes, self.reading.piece());
                }
                Ok(Step::Piece)
            }
            Ok(Step::End) => {
                self.bytes = bytes;
                Ok(Step::End)
            }
            Ok(Step::Differs { length, digests }) => Ok(Step::Differs { length, digests }),
            Err(fault) => Err(fault),
        }
    }

    /// All bytes of the blob, if they were found whole and equal, and gathered.
    pub fn content(self) -> Option<KeptContent>
        ensures whole { IfSome result (λ _. self.is_whole ≡ true) }
        ensures print { IfSome result (λ content. Describes (Some content) self.recorded self.digests) }
    {
        let Gathering { reading, bytes } = self;
        let bytes = bytes?;
        let digests = reading.found()?;
        KeptContent::of_found(bytes, digests).ok()
    }
}
