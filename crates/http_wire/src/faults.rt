//! Why a head or a body is not given.
use outside::Failed;
use std::alloc::AllocError;

/// Why a request head is refused.
#[derive(Clone, Copy, Debug, PartialEq, Eq)]
pub enum HeadFault {
    /// The first `HEAD_BYTES` bytes hold no whole head, or the head has more than `FIELD_LINES` field lines.
    TooLong,
    /// A whole head that is no request head of HTTP/1.0 or HTTP/1.1 (RFC 9112, sections 3 and 5).
    Broken,
}

/// Why no request and no body was given.
#[derive(Clone, Copy, Debug, PartialEq, Eq)]
pub enum WireFault {
    /// There was no memory for the request or the body.
    NoMemory,
    /// The stream ended inside a head, or before the body's last byte.
    Torn,
    /// The source failed.
    SourceFault,
    /// The head is refused.
    Refused(HeadFault),
}

impl From<AllocError> for WireFault {
    ghost use Rattle.std.specs.Prelude.{◌≡◌};
    ghost use Rattle.http_wire.specs.declared.faults.WireFault.TheVariants.{NoMemory};

    ghost from_gives = { λ _ fault. fault ≡ NoMemory };

    fn from(_fault: AllocError) -> WireFault {
        WireFault::NoMemory
    }
}

impl From<Failed> for WireFault {
    ghost use Rattle.std.specs.Prelude.{◌≡◌};
    ghost use Rattle.http_wire.specs.declared.faults.WireFault.TheVariants.{SourceFault};

    ghost from_gives = { λ _ fault. fault ≡ SourceFault };

    fn from(_fault: Failed) -> WireFault {
        WireFault::SourceFault
    }
}
