//! The digest of what stands in a bank.

ghost use Rattle.std.specs.Prelude.{◌≡◌, ℕ, ◌≤◌, List, Some, IfOk, IsErrOf};
ghost use Rattle.agent_link.specs.Counts.{Counted};
ghost use Rattle.sha2.specs.Sha256.{sha256};
ghost use Rattle.image_store.specs.Banks.{size_of, fresh_of};

use crate::bank::Bank;
use agent_link::Fault;
use sha2::{Digest, Sha256};

/// How many bytes are read at once.
const PIECE: usize = 4096;

/// The digest of the new image, which has so many bytes.
pub(crate) fn digest_of<B: Bank>(bank: &mut B, size: u32) -> Result<[u8; 32], Fault>
    requires made { size_of (B.shape bank.old) ≡ Some size }
    ensures digest { IfOk result (λ d. (bytes : List ℕ) → fresh_of (B.contents bank.old) ≡ Some bytes → d ≡ sha256 bytes) }
    ensures shape { B.shape bank.new ≡ B.shape bank.old }
    ensures contents { B.contents bank.new ≡ B.contents bank.old }
    ensures cause { Counted (IsErrOf result Fault.Failed) (B.faults bank.old) (B.faults bank.new) }
{
    let mut hasher = Sha256::new();
    let mut piece = [0; PIECE];
    let mut at = 0;
    while at < size {
        let count = (size - at).min(PIECE as u32);
        let bytes = &mut piece[..count as usize];
        bank.read_at(at, bytes)?;
        hasher.update(&piece[..count as usize]);
        at += count;
    }
    Ok(hasher.finalize())
}
