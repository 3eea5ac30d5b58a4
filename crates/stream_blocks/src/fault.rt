//! Why a message isn't read, and why one isn't written.

ghost use Rattle.std.specs.Prelude.{◌≡◌};
ghost use Rattle.stream_blocks.specs.Reading.{fault_of};

/// Why a message isn't a data message or a request. `Bad` and `Twice` come by their place in the
/// message, before the others; then `Missing`, then `TooBig`. Keys are letters in ASCII.
#[derive(Clone, Copy, Debug, PartialEq, Eq)]
pub enum CborFault {
    /// At this offset the message can't be read on: where the item begins that isn't right, or at the
    /// end where another one is wanted.
    Bad { at: usize },
    /// The first of the wanted keys, in their order, that isn't there.
    Missing { key: u8 },
    /// A wanted key that comes again.
    Twice { key: u8 },
    /// The first key by place whose value is above what there is room for.
    TooBig { key: u8 },
}

/// The buffer is too short for the message.
#[derive(Clone, Copy, Debug, PartialEq, Eq)]
pub struct TooSmall {
    /// How many bytes the message has.
    pub needed: usize,
}

/// Where the reading of a map stops.
#[derive(Clone, Copy, Debug, PartialEq, Eq)]
pub(crate) enum Stop {
    /// With so many bytes of the message left.
    Bad { left: usize },
    /// At a wanted key that comes again.
    Twice { key: u8 },
}

impl Stop {
    /// The fault in a message of so many bytes.
    pub(crate) fn in_message(self, len: usize) -> CborFault
        ensures { result ≡ fault_of len self }
    {
        match self {
            // Never more bytes are left than there are.
            Stop::Bad { left } => CborFault::Bad {
                at: len.saturating_sub(left),
            },
            Stop::Twice { key } => CborFault::Twice { key },
        }
    }
}
