//! Why a text is no service.

ghost use Rattle.std.specs.Prelude.{◌≡◌};

use std::alloc::{AllocError, AllocFailed};

/// Why a text is no service.
#[derive(Clone, Copy, Debug, PartialEq, Eq)]
pub enum ServiceFault {
    /// The first line that isn't in the grammar, counted from 1: also one with a job, or with a stream
    /// and a file, that a line before it has.
    Line(u64),
    /// Memory ran out.
    NoMemory,
}

impl From<AllocError> for ServiceFault {
    ghost use Rattle.thing_service.specs.declared.faults.ServiceFault.TheVariants.{NoMemory};

    ghost from_gives = { λ _ e. e ≡ NoMemory };

    fn from(_: AllocError) -> ServiceFault {
        ServiceFault::NoMemory
    }
}

impl<T: Drop> From<AllocFailed<T>> for ServiceFault {
    ghost use Rattle.thing_service.specs.declared.faults.ServiceFault.TheVariants.{NoMemory};

    ghost from_gives = { λ _ e. e ≡ NoMemory };

    fn from(_: AllocFailed<T>) -> ServiceFault {
        ServiceFault::NoMemory
    }
}
