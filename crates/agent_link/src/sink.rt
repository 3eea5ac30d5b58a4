//! Where bytes go to.

ghost use Rattle.std.specs.Prelude.{◌≡◌, ℕ, ◌<◌, List, length, IfOk, IsErrOf};
ghost use Rattle.std.specs.declared.option.Option.{Option};
ghost use Rattle.std.specs.Io.{WritesAtMost};
ghost use Rattle.std.specs.Io.KnownBytes.{WriteAppends};
ghost use Rattle.agent_link.specs.Counts.{counted};
ghost use Rattle.agent_link.specs.Writes.{Writes};

use crate::fault::Fault;

/// A device that takes bytes.
pub trait Sink {
    /// The bytes that were taken so far, where the sink tells them.
    ghost written: { Self → Option (List ℕ) };

    /// How often a call answered `Failed`.
    ghost faults: { Self → ℕ };

    /// Takes a front of the bytes, at least one, and answers how many. After a fault none was taken.
    fn write(&mut self, bytes: &[u8]) -> Result<usize, Fault>
        requires { 0 < length bytes.now }
        ensures bound { WritesAtMost result bytes.now }
        ensures some { IfOk result (λ n. 0 < n) }
        ensures bytes { WriteAppends (written self.old) (written self.new) result bytes.now }
        ensures cause { faults self.new ≡ counted result (faults self.old) };
}

/// Writes all of the bytes. After a fault a front of them was written.
pub fn write_all<O: Sink>(out: &mut O, bytes: &[u8]) -> Result<(), Fault>
    ensures text { Writes (O.written out.old) (O.written out.new) result bytes.now }
    ensures cause { O.faults out.new ≡ counted result (O.faults out.old) }
{
    let mut at = 0;
    while at < bytes.len() {
        let (_, rest) = bytes.split_at(at);
        at += out.write(rest)?;
    }
    Ok(())
}
