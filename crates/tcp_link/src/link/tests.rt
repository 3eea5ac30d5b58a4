//! A link and a peer on loopback, in one thread. No test depends on time: where bytes may still be on
//! their way, it looks until they are there.

use super::*;
use std::io::{self, Read, Write};
use std::net::{Ipv4Addr, SocketAddr, TcpListener, TcpStream};
use std::test::Fail;

/// A listener, and the address of it as text.
fn listen(rt: &HostRuntime) -> Result<(TcpListener, String), Fail> {
    let listener = TcpListener::bind(rt, SocketAddr::from((Ipv4Addr::LOCALHOST, 0)))?;
    let port = listener.local_addr()?.port();
    let to = format!(in rt.alloc(); "127.0.0.1:{port}")?;
    Ok((listener, to))
}

/// What a receive brings, and the buffer behind it.
fn look(link: &mut TcpLink<'_, HostRuntime>) -> (Result<Heard, Fault>, [u8; 8]) {
    let mut buf = [b'.'; 8];
    let heard = link.recv(buf.as_mut_slice());
    (heard, buf)
}

/// What comes next, past all that is nothing yet.
fn hear(link: &mut TcpLink<'_, HostRuntime>) -> (Result<Heard, Fault>, [u8; 8]) {
    for _ in 0..60_000 {
        match look(link) {
            (Ok(Heard::Nothing), _) => {}
            heard => return heard,
        }
    }
    look(link)
}

#[test]
fn bytes_go_both_ways_and_then_the_peer_closes(rt: HostRuntime) -> Result<(), Fail> {
    let (listener, to) = listen(&rt)?;
    let mut link = TcpLink::new(&rt);
    assert_eq!(rt; link.open(&to), Ok(()));
    let (mut peer, _) = listener.accept()?;

    assert_eq!(rt; link.send(b"ping"), Ok(4));
    let mut buf = [0u8; 4];
    peer.read_exact(buf.as_mut_slice())?;
    assert_eq!(rt; &buf, b"ping");

    peer.write_all(b"pong")?;
    assert_eq!(rt; hear(&mut link), (Ok(Heard::Bytes(4)), *b"pong...."));

    drop(peer);
    assert_eq!(rt; hear(&mut link), (Ok(Heard::End), *b"........"));
    assert_eq!(rt; (link.counts.faults, link.counts.ends), (0, 1));
    Ok(())
}

#[test]
fn a_silent_peer_is_heard_as_nothing(rt: HostRuntime) -> Result<(), Fail> {
    let (listener, to) = listen(&rt)?;
    let mut link = TcpLink::new(&rt);
    assert_eq!(rt; link.open(&to), Ok(()));
    let (_peer, _) = listener.accept()?;
    for _ in 0..502 {
        assert_eq!(rt; look(&mut link), (Ok(Heard::Nothing), *b"........"));
    }
    assert_eq!(rt; (link.counts.nothings, link.quick), (502, 0));
    Ok(())
}

#[test]
fn nobody_is_there(rt: HostRuntime) -> Result<(), Fail> {
    let mut link = TcpLink::new(&rt);
    // Never opened.
    assert_eq!(rt; link.send(b"ping"), Err(Fault::Failed));
    assert_eq!(rt; look(&mut link).0, Err(Fault::Failed));
    // Nobody listens on port 1, and the others are no addresses.
    for to in ["127.0.0.1:1", "", "127.0.0.1", "127.0.0.1:65536", "[::1:1"] {
        assert_eq!(rt; link.open(to), Err(Fault::Failed), "to {to}");
    }
    assert_eq!(rt; link.counts.faults, 7);
    Ok(())
}

#[test]
fn one_connection_at_a_time(rt: HostRuntime) -> Result<(), Fail> {
    let (listener, to) = listen(&rt)?;
    let mut link = TcpLink::new(&rt);
    assert_eq!(rt; link.open(&to), Ok(()));
    let (mut first, _) = listener.accept()?;
    // The peer has ended its side, so that the next opening need not wait for it.
    first.write_all(b"unread")?;
    first.shutdown(Shutdown::Write)?;
    assert_eq!(rt; link.send(b"last"), Ok(4));

    assert_eq!(rt; link.open(&to), Ok(()));
    assert_eq!(rt; to_end(&mut first)?, *b"last");
    let (mut second, _) = listener.accept()?;
    second.shutdown(Shutdown::Write)?;
    assert_eq!(rt; link.send(b"more"), Ok(4));

    assert_eq!(rt; link.open("127.0.0.1:1"), Err(Fault::Failed));
    assert_eq!(rt; to_end(&mut second)?, *b"more");
    assert_eq!(rt; link.send(b"lost"), Err(Fault::Failed));
    Ok(())
}

/// The four bytes that a connection brings before it ends.
fn to_end(peer: &mut TcpStream) -> io::Result<[u8; 4]> {
    let mut bytes = [0u8; 4];
    peer.read_exact(bytes.as_mut_slice())?;
    if peer.read(&mut [0u8; 1])? == 0 {
        Ok(bytes)
    } else {
        Err(io::Error::from(io::ErrorKind::InvalidData))
    }
}
