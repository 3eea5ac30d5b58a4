//! Why a session wasn't restored, and why it wasn't saved.

ghost use Rattle.std.specs.Prelude.{◌≡◌};
ghost use Rattle.session_text.specs.declared.fault.RestoreFault.TheVariants.{NoMemory};

use std::alloc::{AllocError, AllocFailed};

/// Why a session wasn't restored.
#[derive(Clone, Copy, Debug, PartialEq, Eq)]
pub enum RestoreFault {
    /// The bytes aren't the text of a saved session, or what they say doesn't fit the agent.
    Bad,
    /// Memory ran out.
    NoMemory,
}

impl From<AllocError> for RestoreFault {
    ghost from_gives = { λ _ e. e ≡ NoMemory };

    fn from(_: AllocError) -> RestoreFault {
        RestoreFault::NoMemory
    }
}

impl<T: Drop> From<AllocFailed<T>> for RestoreFault {
    ghost from_gives = { λ _ e. e ≡ NoMemory };

    fn from(_: AllocFailed<T>) -> RestoreFault {
        RestoreFault::NoMemory
    }
}

/// The buffer is too short for the text of a session.
#[derive(Clone, Copy, Debug, PartialEq, Eq)]
pub struct TooSmall;
