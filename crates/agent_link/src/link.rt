//! Connections to a broker.

ghost use Rattle.std.specs.Prelude.{◌≡◌, ℕ, ◌<◌, ◌≤◌, List, length, Ok, IfOk, IsErrOf};
ghost use Rattle.std.specs.declared.option.Option.{Option};
ghost use Rattle.std.specs.Io.{WritesAtMost};
ghost use Rattle.agent_link.specs.Counts.{counted};
ghost use Rattle.agent_link.specs.Wires.{after_open, after_send, after_recv, ended, silent, FitsIn};

use crate::fault::Fault;

/// What a receive brought.
#[derive(Clone, Copy, Debug, PartialEq, Eq)]
pub enum Heard {
    /// So many bytes, in the front of the buffer.
    Bytes(usize),
    /// Nothing yet.
    Nothing,
    /// The connection has ended.
    End,
}

/// One connection at a time, which may be opened again. Connections are counted from 0.
pub trait Link {
    /// The bytes that each connection took, where the link tells them.
    ghost taken: { Self → Option (List (List ℕ)) };

    /// The bytes that each connection gave, where the link tells them.
    ghost given: { Self → Option (List (List ℕ)) };

    /// How often a call answered `Failed`.
    ghost faults: { Self → ℕ };

    /// How often a receive answered `End`.
    ghost ends: { Self → ℕ };

    /// How often a receive answered `Nothing`.
    ghost nothings: { Self → ℕ };

    /// Begins the next connection, to an address.
    fn open(&mut self, to: &str) -> Result<(), Fault>
        ensures taken { taken self.new ≡ after_open (taken self.old) result }
        ensures given { given self.new ≡ after_open (given self.old) result }
        ensures cause { faults self.new ≡ counted result (faults self.old) }
        ensures ends { ends self.new ≡ ends self.old }
        ensures nothings { nothings self.new ≡ nothings self.old };

    /// Sends a front of the bytes, at least one, and answers how many.
    fn send(&mut self, bytes: &[u8]) -> Result<usize, Fault>
        requires { 0 < length bytes.now }
        ensures bound { WritesAtMost result bytes.now }
        ensures some { IfOk result (λ n. 0 < n) }
        ensures taken { taken self.new ≡ after_send (taken self.old) result bytes.now }
        ensures given { given self.new ≡ given self.old }
        ensures cause { faults self.new ≡ counted result (faults self.old) }
        ensures ends { ends self.new ≡ ends self.old }
        ensures nothings { nothings self.new ≡ nothings self.old };

    /// Receives into the front of `buf`.
    fn recv(&mut self, buf: &mut [u8]) -> Result<Heard, Fault>
        requires { 0 < length buf.old }
        ensures bound { FitsIn result buf.new }
        ensures taken { taken self.new ≡ taken self.old }
        ensures given { given self.new ≡ after_recv (given self.old) result buf.new }
        ensures cause { faults self.new ≡ counted result (faults self.old) }
        ensures ends { ends self.new ≡ ended result (ends self.old) }
        ensures nothings { nothings self.new ≡ silent result (nothings self.old) };

    /// Ends the present connection.
    fn shut(&mut self)
        ensures taken { taken self.new ≡ taken self.old }
        ensures given { given self.new ≡ given self.old }
        ensures faults { faults self.new ≡ faults self.old }
        ensures ends { ends self.new ≡ ends self.old }
        ensures nothings { nothings self.new ≡ nothings self.old };
}
