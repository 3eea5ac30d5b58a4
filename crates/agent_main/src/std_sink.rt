//! A writer of std as a sink.

ghost use Rattle.std.specs.Prelude.{◌≡◌};

use agent_link::{Fault, Sink};
use std::alloc::Global;
use std::io::Write;

/// How much of a write is looked at for its last line: a line that tells a fault is shorter.
const LOOKED_AT: usize = 64;

/// A sink over any writer. Each error of the writer counts as a fault, and so does a write of no
/// bytes.
#[derive(Debug, Drop)]
pub struct StdSink<W: Write> {
    inner: W,
    faults: u64,
    /// The line that was written last, or its end. Only what a person is told depends on it.
    line: Vec<u8>,
}

impl<W: Write> StdSink<W> {
    pub fn new(alloc: Global, inner: W) -> Self
        ensures inner { result.inner ≡ inner }
        ensures faults { result.faults ≡ 0 }
    {
        StdSink {
            inner,
            faults: 0,
            line: Vec::new(alloc),
        }
    }

    /// The line that was written last, or its end.
    pub fn line(&self) -> &[u8] {
        self.line.as_slice()
    }
}

impl<W: Write> Sink for StdSink<W> {
    ghost written = { λ s. W.contents s.inner };

    ghost faults = { λ s. s.faults };

    fn write(&mut self, bytes: &[u8]) -> Result<usize, Fault> {
        match self.inner.write(bytes) {
            Ok(0) | Err(_) => {
                self.faults = self.faults.saturating_add(1);
                Err(Fault::Failed)
            }
            Ok(count) => {
                keep_line(&mut self.line, &bytes[..count]);
                Ok(count)
            }
        }
    }
}

/// Keeps the last line of what is written on.
fn keep_line(line: &mut Vec<u8>, bytes: &[u8]) {
    let (_, end) = bytes.split_at(bytes.len().saturating_sub(LOOKED_AT));
    for byte in end {
        if line.last() == Some(&b'\n') {
            line.clear();
        }
        // A line that memory doesn't hold tells nothing.
        let _ = line.push(*byte);
    }
}
