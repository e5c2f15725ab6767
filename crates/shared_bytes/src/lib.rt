//! Bytes that several owners share, which contracts see as plain lists.
#![tactic(auto)]

ghost use Rattle.std.specs.Prelude.{◌≡◌, IfOk, List, ℕ};
ghost use Rattle.std.specs.Arc.{arc_slice_items};

use std::alloc::{AllocError, Global};
use std::marker::Model;
use std::sync::ArcSlice;

/// Bytes of a memory that is counted: a share of them costs no copy. A contract sees the list.
#[derive(Drop)]
pub struct SharedBytes {
    inner: ArcSlice<u8>,
}

impl Model for SharedBytes {
    ghost Value = { List ℕ };

    ghost view = { λ b. arc_slice_items b.inner };
}

impl SharedBytes {
    /// The bytes of a `Vec`, which are not copied.
    pub fn from_vec(bytes: Vec<u8>) -> Result<SharedBytes, AllocError>
        ensures { IfOk result (λ b. b ≡ bytes.items) }
    {
        let inner = ArcSlice::from_vec(bytes)?;
        Ok(SharedBytes { inner })
    }

    /// A copy of the bytes.
    pub fn new(alloc: Global, bytes: &[u8]) -> Result<SharedBytes, AllocError>
        ensures { IfOk result (λ b. b ≡ bytes.now) }
    {
        let inner = ArcSlice::from_slice(alloc, bytes)?;
        Ok(SharedBytes { inner })
    }

    /// One more share of the same bytes. It fails only where there are too many to count.
    pub fn share(&self) -> Result<SharedBytes, AllocError>
        ensures { IfOk result (λ b. b ≡ self.now) }
    {
        let inner = self.inner.clone()?;
        Ok(SharedBytes { inner })
    }

    /// The bytes, lent.
    pub fn as_slice(&self) -> &[u8]
        ensures { result.now ≡ self.now }
    {
        self.inner.as_slice()
    }
}
