//! Where bytes come from.

ghost use Rattle.std.specs.Prelude.{◌≡◌, ℕ, ◌<◌, ◌≤◌, List, length, IfOk, IsErrOf};
ghost use Rattle.std.specs.declared.option.Option.{Option};
ghost use Rattle.std.specs.Io.{ReadsAtMost};
ghost use Rattle.std.specs.Io.KnownBytes.{ReadConsumes, Consumes, IsAtEnd};
ghost use Rattle.agent_link.specs.Counts.{counted};

use crate::fault::Fault;
use std::alloc::Global;

/// A device that gives bytes until it is at its end.
pub trait Source {
    /// The bytes that are left, where the source tells them.
    ghost left: { Self → Option (List ℕ) };

    /// How often a call answered `Failed`.
    ghost faults: { Self → ℕ };

    /// Reads into the front of `buf`, and answers how many bytes. 0 is the end.
    fn read(&mut self, buf: &mut [u8]) -> Result<usize, Fault>
        requires { 0 < length buf.old }
        ensures bound { ReadsAtMost result buf.new }
        ensures bytes { ReadConsumes (left self.old) (left self.new) result buf.new }
        ensures cause { faults self.new ≡ counted result (faults self.old) };
}

/// All bytes of a source, or as soon as there are more than `limit`, those that came so far.
pub fn read_all<S: Source>(alloc: Global, source: &mut S, limit: usize) -> Result<Vec<u8>, Fault>
    ensures bytes { IfOk result (λ v. Consumes (S.left source.old) (S.left source.new) v.items) }
    ensures whole { IfOk result (λ v. length v.items ≤ limit → IsAtEnd (S.left source.new)) }
    ensures cause { S.faults source.new ≡ counted result (S.faults source.old) }
{
    let mut bytes = Vec::new(alloc);
    let mut buffer = [0u8; 4096];
    'pieces: while bytes.len() <= limit {
        let count = source.read(buffer.as_mut_slice())?;
        if count == 0 {
            break;
        }
        bytes.extend_from_slice(&buffer[..count])?;
    }
    Ok(bytes)
}
