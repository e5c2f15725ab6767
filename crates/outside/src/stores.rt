ghost use Rattle.std.specs.Prelude.{◌≡◌, ◌<◌, ◌≤◌, ◌+◌, ◌^◌, ℕ, List, [], Option, Some, None, length, IfOk, IfSome, OnOk, OnErr};
ghost use Rattle.outside.specs.Blobs.{HasBlobCause, IsAdopted, IsPart, Shelf, bytes_at, numbers_of, sealed, untold, without_blob, without_bytes};
ghost use Rattle.outside.specs.Faults.{HasCause};
ghost use Rattle.outside.specs.Parcel.{Describes};
ghost use Rattle.outside.specs.Told.{IsWhereTold, behind};

use crate::contents::KeptContent;
use crate::faults::{BlobFault, Failed, NoMemory};
use mvn_digest::Digests;

/// A stored blob in use: while it is held, its bytes can be read.
pub trait Held: Drop {
    // The blob's bytes.
    ghost bytes: { Self → Option (List ℕ) } = { λ _. None };

    /// One more hold on the same bytes.
    fn share(&self) -> Result<Self, NoMemory>
        ensures { IfOk result (λ held. bytes held ≡ bytes self.now) };
}

/// A blob that is being written, under a number.
///
/// One that is let go leaves no blob; what it leaves goes by a `remove` of its number.
pub trait Pen: Drop {
    // The number of the blob.
    ghost number: { Self → ℕ };

    // The bytes so far.
    ghost bytes: { Self → Option (List ℕ) } = { λ _. None };
}

/// A store of blobs, each under a number.
///
/// A call that fails, or that memory runs out for, leaves the blobs that the store tells as they were.
pub trait Blobs {
    /// A stored blob in use.
    type Held: Held;

    /// A blob that is being written.
    type Pen: Pen;

    // How many calls have failed. It never falls.
    ghost faults: { Self → ℕ };

    // Its blobs by their numbers, and the numbers that were removed.
    ghost shelf: { Self → Shelf } = { λ _. untold };

    /// Begins to write the blob of a number. Bytes that stood there are gone, and until the pen is sealed nothing stands there:
    /// the number is neither listed nor adopted. A store that tells its blobs gives a pen that tells its bytes.
    fn begin(&mut self, blob: u64) -> Result<Self::Pen, BlobFault>
        ensures cause { HasBlobCause (faults self.old) (faults self.new) result }
        ensures number { IfOk result (λ pen. Self.Pen.number pen ≡ blob) }
        ensures told { IfOk result (λ pen. IsWhereTold (Self.Pen.bytes pen) []) }
        ensures tells { IfOk result (λ pen. IfSome (shelf self.old).blobs (λ _. Self.Pen.bytes pen ≡ Some [])) }
        ensures begun { OnOk result (shelf self.new ≡ without_bytes blob (shelf self.old)) }
        ensures kept { OnErr result (shelf self.new ≡ shelf self.old) };

    /// Writes bytes after those of a pen. A blob has at most 2^63 - 1 bytes: an append that would pass this is `Failed`.
    fn append(&mut self, pen: &mut Self::Pen, bytes: &[u8]) -> Result<(), BlobFault>
        ensures cause { HasBlobCause (faults self.old) (faults self.new) result }
        ensures number { Self.Pen.number pen.new ≡ Self.Pen.number pen.old }
        ensures grown { OnOk result (Self.Pen.bytes pen.new ≡ behind (Self.Pen.bytes pen.old) bytes.now) }
        ensures most { OnOk result (IfSome (Self.Pen.bytes pen.new) (λ them. length them < 2 ^ 63)) }
        ensures same { OnErr result (Self.Pen.bytes pen.new ≡ Self.Pen.bytes pen.old) }
        ensures kept { shelf self.new ≡ shelf self.old };

    /// Ends the blob of a pen, which is stored from here on.
    fn seal(&mut self, pen: Self::Pen) -> Result<Self::Held, BlobFault>
        ensures cause { HasBlobCause (faults self.old) (faults self.new) result }
        // What is held tells no bytes but those of the pen.
        ensures told { IfOk result (λ held. IfSome (Self.Held.bytes held) (λ bytes. Self.Pen.bytes pen ≡ Some bytes)) }
        ensures tells { IfOk result (λ held. IfSome (shelf self.old).blobs (λ _. Self.Held.bytes held ≡ Self.Pen.bytes pen)) }
        ensures stored { OnOk result (shelf self.new ≡ sealed (Self.Pen.number pen) (Self.Pen.bytes pen) (shelf self.old)) }
        ensures kept { OnErr result (shelf self.new ≡ shelf self.old) };

    /// Reads some of a stored blob's bytes from the place `at` on into the front of `buffer`, and says how many. 0 for a buffer
    /// that isn't empty is the end. No read gives a byte past 2^63 - 1.
    fn read_at(&mut self, held: &Self::Held, at: u64, buffer: &mut [u8]) -> Result<usize, Failed>
        ensures cause { HasCause (faults self.old) (faults self.new) result }
        ensures count { IfOk result (λ n. n ≤ length buffer.new) }
        ensures below { IfOk result (λ n. 0 < n → at + n < 2 ^ 63) }
        ensures told { IfOk result (λ n. IfSome (Self.Held.bytes held.now) (λ bytes. IsPart bytes at n buffer.new)) }
        ensures kept { shelf self.new ≡ shelf self.old };

    /// Removes the blob of a number. Where there is none, that is no fault.
    fn remove(&mut self, blob: u64) -> Result<(), BlobFault>
        ensures cause { HasBlobCause (faults self.old) (faults self.new) result }
        ensures removed { OnOk result (shelf self.new ≡ without_blob blob (shelf self.old)) }
        ensures kept { OnErr result (shelf self.new ≡ shelf self.old) };

    /// Takes the blob that was stored under a number into use. None comes exactly where there is none.
    fn adopt(&mut self, blob: u64) -> Result<Option<Self::Held>, BlobFault>
        ensures cause { HasBlobCause (faults self.old) (faults self.new) result }
        ensures adopted { IfOk result (λ held. IfSome (shelf self.old).blobs
            (λ blobs. IsAdopted Self.Held.bytes (bytes_at blob blobs) held)) }
        ensures kept { shelf self.new ≡ shelf self.old };

    /// The numbers of the blobs, in rising order.
    fn list(&mut self) -> Result<Vec<u64>, BlobFault>
        ensures cause { HasBlobCause (faults self.old) (faults self.new) result }
        ensures listed { IfOk result (λ numbers. IsWhereTold (numbers_of (shelf self.old)) numbers.items) }
        ensures kept { shelf self.new ≡ shelf self.old };

    /// A content that stays in memory since it was found whole and equal: with this length and these digests, and the bytes of
    /// what is held if these are told. A store need keep none.
    fn kept(&mut self, _held: &Self::Held, _length: u64, _digests: &Digests) -> Option<KeptContent>
        ensures print { IfSome result (λ content. Describes (Some content) _length _digests.now) }
        ensures told { IfSome result (λ content. IsWhereTold (Self.Held.bytes _held.now) content) }
        ensures cause { faults self.new ≡ faults self.old }
        ensures kept { shelf self.new ≡ shelf self.old }
    {
        None
    }

    /// Keeps a content of what is held, which was found whole and equal, or lets it go.
    fn keep(&mut self, _held: &Self::Held, _content: KeptContent)
        ensures cause { faults self.new ≡ faults self.old }
        ensures kept { shelf self.new ≡ shelf self.old }
    {}
}
