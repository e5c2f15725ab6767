ghost use Rattle.std.specs.Prelude.{◌≡◌};
ghost use Rattle.record_journal.specs.declared.faults.FrameFault.TheVariants.{NoMemory as no_memory};

use std::alloc::AllocError;

/// Why a frame was not applied.
#[derive(Clone, Copy, Debug, PartialEq, Eq)]
pub enum FrameFault {
    /// There was no memory left for it.
    NoMemory,
    /// The field or item that begins at this byte of its payload is not there whole, is out of its form, or does not fit.
    At(u64),
}

impl From<AllocError> for FrameFault {
    ghost from_gives = { λ _ fault. fault ≡ no_memory };

    fn from(_error: AllocError) -> FrameFault {
        FrameFault::NoMemory
    }
}
