use crate::refusal::Refusal;
use std::alloc::AllocError;

/// Why a head could not be judged to a request: it is refused, or memory ran out.
#[derive(Drop)]
pub enum Fault {
    Refused(Refusal),
    NoMemory,
}

impl From<Refusal> for Fault {
    ghost use Rattle.std.specs.Prelude.{◌≡◌};
    ghost use Rattle.repo_routes.specs.declared.fault.Fault.TheVariants.{Refused};

    ghost from_gives = { λ refusal fault. fault ≡ Refused refusal };

    fn from(refusal: Refusal) -> Fault {
        Fault::Refused(refusal)
    }
}

impl From<AllocError> for Fault {
    ghost use Rattle.std.specs.Prelude.{◌≡◌};
    ghost use Rattle.repo_routes.specs.declared.fault.Fault.TheVariants.{NoMemory};

    ghost from_gives = { λ _ fault. fault ≡ NoMemory };

    fn from(_: AllocError) -> Fault {
        Fault::NoMemory
    }
}
