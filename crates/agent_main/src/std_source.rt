//! A reader of std as a source.

ghost use Rattle.std.specs.Prelude.{◌≡◌, ◌<◌, length};
ghost use Rattle.std.specs.Io.{ReadsAtMost};
ghost use Rattle.std.specs.Io.KnownBytes.{ReadConsumes};

use agent_link::{Fault, Source};
use std::alloc::Global;
use std::io::Read;

/// A source over any reader. Each error of the reader counts as a fault.
#[derive(Debug, Drop)]
pub struct StdSource<R: Read> {
    inner: R,
    faults: u64,
    /// What was read, as far as memory held it. Only what a person is told depends on it.
    heard: Vec<u8>,
}

impl<R: Read> StdSource<R> {
    pub fn new(alloc: Global, inner: R) -> Self
        ensures inner { result.inner ≡ inner }
        ensures faults { result.faults ≡ 0 }
    {
        StdSource {
            inner,
            faults: 0,
            heard: Vec::new(alloc),
        }
    }

    /// What was read so far.
    pub fn heard(&self) -> &[u8] {
        self.heard.as_slice()
    }
}

impl<R: Read> Source for StdSource<R> {
    ghost left = { λ s. R.remaining s.inner };

    ghost faults = { λ s. s.faults };

    fn read(&mut self, buf: &mut [u8]) -> Result<usize, Fault> {
        match self.inner.read(buf) {
            Ok(count) => {
                // A text that memory doesn't hold ends the command anyway.
                let _ = self.heard.extend_from_slice(&buf[..count]);
                Ok(count)
            }
            Err(_) => {
                self.faults = self.faults.saturating_add(1);
                Err(Fault::Failed)
            }
        }
    }
}
