//! Why a script has no topics.

ghost use Rattle.std.specs.Prelude.{◌≡◌};

use std::alloc::AllocFailed;

/// Why a script's lines can't all be made requests.
#[derive(Clone, Copy, Debug, PartialEq, Eq)]
pub enum LineFault {
    /// The number of the first line on a shadow or a job that has no topic: there is no thing, or a
    /// name isn't of its class.
    Line(u64),
    /// Memory ran out.
    NoMemory,
}

impl<T: Drop> From<AllocFailed<T>> for LineFault {
    ghost use Rattle.thing_script.specs.declared.faults.LineFault.TheVariants.{NoMemory};

    ghost from_gives = { λ _ e. e ≡ NoMemory };

    fn from(_: AllocFailed<T>) -> LineFault {
        LineFault::NoMemory
    }
}
