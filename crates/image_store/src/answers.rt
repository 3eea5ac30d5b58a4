//! What a writer answers.

ghost use Rattle.std.specs.Prelude.{◌≡◌};
ghost use Rattle.image_store.specs.Faults.{of_bank};

use agent_link::Fault;

/// A block that was put.
#[derive(Clone, Copy, Debug, PartialEq, Eq)]
pub enum Put {
    /// It was missing, and is there now.
    New,
    /// It was there already. Nothing changed.
    Again,
}

/// Why a block wasn't put. The first three come in this order, before the bank is asked.
#[derive(Clone, Copy, Debug, PartialEq, Eq)]
pub enum PutFault {
    /// It is of another file than the wanted one.
    File { wanted: u32 },
    /// The image has only so many blocks.
    Index { blocks: u32 },
    /// It has another length than the wanted one.
    Length { wanted: u32 },
    /// The bank failed. Its count of faults rose in the call.
    Bank,
    /// Memory ran out in the bank.
    NoMemory,
}

/// What became of an image.
#[derive(Clone, Copy, Debug, PartialEq, Eq)]
pub enum Verdict {
    /// This block is the first that is missing.
    Missing { first: u32 },
    /// All blocks are there, and the digest isn't the wanted one.
    Differs { wanted: [u8; 32], found: [u8; 32] },
    /// The digest is the wanted one, and the new image is Testing from now on.
    Testing,
}

impl From<Fault> for PutFault {
    ghost from_gives = { λ fault e. e ≡ of_bank fault };

    fn from(fault: Fault) -> PutFault {
        match fault {
            Fault::Failed => PutFault::Bank,
            Fault::NoMemory => PutFault::NoMemory,
        }
    }
}
