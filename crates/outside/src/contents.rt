//! Contents that were found whole and equal, and stay in memory.
ghost use Rattle.std.specs.Prelude.{◌≡◌, Some, true, IfOk};
ghost use Rattle.mvn_digest.specs.Digests.{digests_of};
ghost use Rattle.outside.specs.Parcel.{Describes};

use crate::faults::NoMemory;
use mvn_digest::Digests;
use std::marker::Model;
use std::sync::ArcSlice;

/// The greatest length of a content that is kept, in bytes.
pub const KEPT_BYTES: u64 = 1_048_576;

/// A content with its digests, which are those of its bytes. A share of it costs no copy. Contracts see the bytes.
#[derive(Drop)]
pub struct KeptContent {
    bytes: ArcSlice<u8>,
    digests: Digests,
}

impl Model for KeptContent {
    ghost use Rattle.std.specs.Prelude.{◌≡◌, List, ℕ};
    ghost use Rattle.std.specs.Arc.{arc_slice_items};
    ghost use Rattle.mvn_digest.specs.Digests.{digests_of};

    ghost Value = { List ℕ };

    ghost view = { λ c. arc_slice_items c.bytes };

    ghost invariant = { λ c. c.digests ≡ digests_of (arc_slice_items c.bytes) };
}

impl KeptContent {
    /// Bytes of which these are the digests. They are not copied.
    pub(crate) fn of_found(bytes: Vec<u8>, digests: Digests) -> Result<KeptContent, NoMemory>
        requires { digests ≡ digests_of bytes.items }
        ensures { IfOk result (λ content. content ≡ bytes.items) }
    {
        Ok(KeptContent {
            bytes: ArcSlice::from_vec(bytes)?,
            digests,
        })
    }

    /// The bytes.
    pub fn bytes(&self) -> &[u8]
        ensures { result.now ≡ self.now }
    {
        self.bytes.as_slice()
    }

    /// Whether these are its length and its digests.
    pub fn has_print(&self, length: u64, digests: &Digests) -> bool
        ensures { result ≡ true → Describes (Some self.now) length digests.now }
    {
        self.bytes.as_slice().len() as u64 == length && self.digests == *digests
    }

    /// One more share of it.
    pub fn share(&self) -> Result<KeptContent, NoMemory>
        ensures { IfOk result (λ content. content ≡ self.now) }
    {
        Ok(KeptContent {
            bytes: self.bytes.clone()?,
            digests: self.digests,
        })
    }
}
