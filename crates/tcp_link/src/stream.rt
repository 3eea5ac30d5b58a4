//! One call of a stream that doesn't wait: connecting, a read, a write, and waiting for the end.

ghost use Rattle.std.specs.Prelude.{◌≡◌, ◌<◌, ◌≤◌, length, Ok, IfSome};
ghost use Rattle.agent_link.specs.Wires.{FitsIn};

use agent_link::Heard;
use std::io::{Read, Write};
use std::net::{Net, OpenStream, TcpStream, ToSocketAddrs};
use std::time::{Clock, Duration, Instant};
use std::{io, thread};

/// How long it may take to connect, once the system has found the addresses of a name.
const CONNECT_SECS: u64 = 10;

/// How often a write that finds no room is tried again, a millisecond apart.
const TRIES: u32 = 10_000;

/// How often the peer's end is looked for, a millisecond apart where nothing came.
const LAST_LOOKS: u32 = 1_000;

/// Connects to an address, as `host:port`: to the first of the host's addresses that answers.
pub fn connect<R: Net + Clock>(rt: &R, to: &str) -> io::Result<R::Stream> {
    let start = Instant::now(rt)?;
    let mut cause = io::Error::from(io::ErrorKind::NotFound);
    for addr in to.to_socket_addrs(rt)? {
        let left = Duration::from_secs(CONNECT_SECS).saturating_sub(start.elapsed(rt)?);
        match TcpStream::connect_timeout(rt, &addr, left) {
            Ok(stream) => {
                stream.set_nodelay(true)?;
                stream.set_nonblocking(true)?;
                return Ok(stream);
            }
            Err(e) => cause = e,
        }
    }
    Err(cause)
}

/// What a read brought. `None` is a fault.
pub fn read_now<S: Read>(stream: &mut S, buf: &mut [u8]) -> Option<Heard>
    requires { 0 < length buf.old }
    ensures fits { IfSome result (λ heard. FitsIn (Ok heard) buf.new) }
    ensures len { length buf.new ≡ length buf.old }
{
    match stream.read(buf) {
        Ok(0) => Some(Heard::End),
        Ok(n) => Some(Heard::Bytes(n)),
        Err(e) => {
            if waits(e.kind()) {
                Some(Heard::Nothing)
            } else {
                None
            }
        }
    }
}

/// What a read brought, or where it heard nothing, a second one a millisecond later.
pub fn read_soon<S: Read, R: Clock>(rt: &R, stream: &mut S, buf: &mut [u8]) -> Option<Heard>
    requires { 0 < length buf.old }
    ensures fits { IfSome result (λ heard. FitsIn (Ok heard) buf.new) }
    ensures len { length buf.new ≡ length buf.old }
{
    match read_now(stream, buf) {
        Some(Heard::Nothing) => {
            pause(rt);
            read_now(stream, buf)
        }
        heard => heard,
    }
}

/// Writes some bytes, and waits where there is no room. `None` is a fault.
pub fn write_some<S: Write, R: Clock>(rt: &R, stream: &mut S, bytes: &[u8]) -> Option<usize>
    ensures { IfSome result (λ n. (0 < n) × (n ≤ length bytes.now)) }
{
    for _ in 0..TRIES {
        match stream.write(bytes) {
            Ok(0) => return None,
            Ok(n) => return Some(n),
            Err(e) => {
                if !waits(e.kind()) {
                    return None;
                }
            }
        }
        pause(rt);
    }
    None
}

/// Reads what still comes, to the peer's end or for about a second, and drops it.
pub fn await_end<S: Read, R: Clock>(rt: &R, stream: &mut S) {
    for _ in 0..LAST_LOOKS {
        match drop_some(rt, stream) {
            Some(Heard::Bytes(_) | Heard::Nothing) => {}
            Some(Heard::End) | None => return,
        }
    }
}

fn drop_some<S: Read, R: Clock>(rt: &R, stream: &mut S) -> Option<Heard> {
    let mut dropped = [0u8; 4096];
    read_soon(rt, stream, dropped.as_mut_slice())
}

fn pause<R: Clock>(rt: &R) {
    thread::sleep(rt, Duration::from_millis(1));
}

/// Whether a call may be tried again, and no fault was found.
fn waits(kind: io::ErrorKind) -> bool {
    kind == io::ErrorKind::WouldBlock || kind == io::ErrorKind::Interrupted
}
