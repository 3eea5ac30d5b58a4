//! A link over TCP.

ghost use Rattle.std.specs.Prelude.{◌≡◌, ◌<◌, ◌≤◌, length, Ok, Err, None, IsSome, IfSome, IfOk, OnOk, OnErr};
ghost use Rattle.std.specs.Io.{WritesAtMost};
ghost use Rattle.agent_link.specs.Counts.{uncounted, counted, with_fault};
ghost use Rattle.agent_link.specs.Wires.{after_open, after_send, after_recv, ended, silent, FitsIn};
ghost use Rattle.agent_link.specs.declared.fault.Fault.TheVariants.{Failed};
ghost use Rattle.tcp_link.specs.Looks.{fresh_looks, looks_after, with_heard};

use crate::counts::Counts;
use crate::stream::{await_end, connect, read_now, read_soon, write_some};
use agent_link::{Fault, Heard, Link};
use std::net::{Net, OpenStream, Shutdown};
use std::time::Clock;

/// How many receives in a row don't wait, behind an opening or bytes that came or went. All others
/// that hear nothing take a millisecond, so that an agent with nothing to do looks once a
/// millisecond, and 10,000 looks in a row that hear nothing take 9.5 seconds or more.
const QUICK: u32 = 500;

/// One TCP connection at a time. It tells no bytes. A send or a receive fails where no connection
/// is open: before the first opening, behind `shut`, and behind an opening that failed.
#[derive(Drop)]
pub struct TcpLink<'r, R: Net + Clock> {
    rt: &'r R,
    stream: Option<R::Stream>,
    quick: u32,
    counts: Counts,
}

impl<'r, R: Net + Clock> TcpLink<'r, R> {
    /// A link that was never opened.
    pub fn new(rt: &'r R) -> Self
        ensures counts { result.counts ≡ uncounted }
        ensures closed { result.stream ≡ None }
    {
        TcpLink {
            rt,
            stream: None,
            quick: 0,
            counts: Counts::new(),
        }
    }

    /// Counts a fault.
    fn fail(&mut self) -> Fault
        ensures fault { result ≡ Failed }
        ensures counts { self.new.counts ≡ with_fault self.old.counts }
        ensures quick { self.new.quick ≡ self.old.quick }
        ensures stream { self.new.stream ≡ self.old.stream }
    {
        self.counts.fault();
        Fault::Failed
    }

    /// Sends a front of the bytes. `None` is a fault that isn't counted yet.
    fn put(&mut self, bytes: &[u8]) -> Option<usize>
        ensures some { IfSome result (λ n. (0 < n) × (n ≤ length bytes.now)) }
        ensures closed { self.old.stream ≡ None → result ≡ None }
        ensures counts { self.new.counts ≡ self.old.counts }
        ensures quick { self.new.quick ≡ fresh_looks }
    {
        self.quick = QUICK;
        match &mut self.stream {
            Some(stream) => write_some(self.rt, stream, bytes),
            None => None,
        }
    }

    /// What a receive brings. `None` is a fault. Neither is counted yet.
    fn look(&mut self, buf: &mut [u8]) -> Option<Heard>
        requires { 0 < length buf.old }
        ensures fits { IfSome result (λ heard. FitsIn (Ok heard) buf.new) }
        ensures len { length buf.new ≡ length buf.old }
        ensures closed { self.old.stream ≡ None → result ≡ None }
        ensures counts { self.new.counts ≡ self.old.counts }
        ensures quick { self.new.quick ≡ self.old.quick }
    {
        match &mut self.stream {
            Some(stream) => {
                if self.quick > 0 {
                    read_now(stream, buf)
                } else {
                    read_soon(self.rt, stream, buf)
                }
            }
            None => None,
        }
    }

    /// Counts what a receive brought.
    fn note(&mut self, heard: Heard)
        ensures counts { self.new.counts ≡ with_heard heard self.old.counts }
        ensures quick { self.new.quick ≡ looks_after heard self.old.quick }
    {
        self.counts.heard(heard);
        match heard {
            Heard::Bytes(_) => self.quick = QUICK,
            Heard::Nothing => self.quick = self.quick.saturating_sub(1),
            Heard::End => {}
        }
    }
}

impl<'r, R: Net + Clock> Link for TcpLink<'r, R> {
    ghost taken = { λ _. None };

    ghost given = { λ _. None };

    ghost faults = { λ l. l.counts.faults };

    ghost ends = { λ l. l.counts.ends };

    ghost nothings = { λ l. l.counts.nothings };

    /// Ends the connection that may still be open, and opens one to `host:port`. It fails where the
    /// host has no address, or none of its addresses answers within ten seconds.
    fn open(&mut self, to: &str) -> Result<(), Fault>
        ensures taken { None ≡ after_open None result }
        ensures given { None ≡ after_open None result }
        ensures cause { self.new.counts.faults ≡ counted result self.old.counts.faults }
        ensures ends { self.new.counts.ends ≡ self.old.counts.ends }
        ensures nothings { self.new.counts.nothings ≡ self.old.counts.nothings }
        ensures opened { OnOk result (IsSome self.new.stream) }
        ensures closed { OnErr result (self.new.stream ≡ None) }
    {
        self.shut();
        match connect(self.rt, to) {
            Ok(stream) => {
                self.stream = Some(stream);
                self.quick = QUICK;
                Ok(())
            }
            Err(_) => Err(self.fail()),
        }
    }

    /// Sends at once what there is room for. It waits for room, and fails where there is none for
    /// ten seconds.
    fn send(&mut self, bytes: &[u8]) -> Result<usize, Fault>
        ensures bound { WritesAtMost result bytes.now }
        ensures some { IfOk result (λ n. 0 < n) }
        ensures taken { None ≡ after_send None result bytes.now }
        ensures cause { self.new.counts.faults ≡ counted result self.old.counts.faults }
        ensures ends { self.new.counts.ends ≡ self.old.counts.ends }
        ensures nothings { self.new.counts.nothings ≡ self.old.counts.nothings }
        ensures quick { self.new.quick ≡ fresh_looks }
        ensures closed { self.old.stream ≡ None → result ≡ Err Failed }
    {
        match self.put(bytes) {
            Some(n) => Ok(n),
            None => Err(self.fail()),
        }
    }

    fn recv(&mut self, buf: &mut [u8]) -> Result<Heard, Fault>
        requires { 0 < length buf.old }
        ensures bound { FitsIn result buf.new }
        ensures given { None ≡ after_recv None result buf.new }
        ensures cause { self.new.counts.faults ≡ counted result self.old.counts.faults }
        ensures ends { self.new.counts.ends ≡ ended result self.old.counts.ends }
        ensures nothings { self.new.counts.nothings ≡ silent result self.old.counts.nothings }
        ensures quick { IfOk result (λ heard. self.new.quick ≡ looks_after heard self.old.quick) }
        ensures closed { self.old.stream ≡ None → result ≡ Err Failed }
    {
        match self.look(buf) {
            Some(heard) => {
                self.note(heard);
                Ok(heard)
            }
            None => Err(self.fail()),
        }
    }

    /// Closes the connection once the peer has closed it too, or after about a second. What was sent
    /// last may be lost where a connection is closed with bytes in it that nobody read.
    fn shut(&mut self)
        ensures faults { self.new.counts.faults ≡ self.old.counts.faults }
        ensures ends { self.new.counts.ends ≡ self.old.counts.ends }
        ensures nothings { self.new.counts.nothings ≡ self.old.counts.nothings }
        ensures closed { self.new.stream ≡ None }
    {
        if let Some(stream) = &mut self.stream {
            if stream.shutdown(Shutdown::Write).is_ok() {
                await_end(self.rt, stream);
            }
        }
        self.stream = None;
    }
}

#[cfg(test)]
mod tests;
