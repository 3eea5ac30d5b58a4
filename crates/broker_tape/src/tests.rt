//! Tapes, good and bad, and how they play.

use super::*;
use agent_link::{Fault, Heard, Link};
use std::alloc::Global;
use std::test::Fail;

#[test]
fn tapes_of_the_grammar_are_read(rt: HostRuntime) -> Result<(), Fail> {
    let alloc = rt.alloc();
    for text in [
        "",
        "\n# no broker at all\n",
        "open",
        "open\nopen\n",
        "fail\nfail\nopen\nfail\nfail\nopen\nend\nfail\n",
        "open\n# its room\n\nroom 0\nhear 2002Ff00\nquiet 1000000000\nquiet 1\nend\n",
        "open\nroom 1000000000\nopen\nhear 00\n",
    ] {
        assert!(rt; read_tape(alloc, text.as_bytes()).is_ok(), "at {text:?}");
    }
    Ok(())
}

#[test]
fn the_first_bad_line_is_told(rt: HostRuntime) -> Result<(), Fail> {
    let alloc = rt.alloc();
    for (text, line) in [
        ("hear 00\n", 1),
        ("end\n", 1),
        ("# a tape\nroom 1\n", 2),
        ("open\nhear 00\nroom 1\n", 3),
        ("open\nroom 1\nroom 1\n", 3),
        ("open\nroom 1000000001\n", 2),
        ("open\nquiet 0\n", 2),
        ("open\nquiet 01\n", 2),
        ("open\nhear -\n", 2),
        ("open\nhear 0\n", 2),
        ("open\nhear 00 00\n", 2),
        ("open\nend\nhear 00\n", 3),
        ("open\nfail\nend\n", 3),
        ("open \n", 1),
        ("open\ntape\nopen 1\n", 2),
    ] {
        match read_tape(alloc, text.as_bytes()) {
            Ok(_) => panic!(rt; "{text:?} was read"),
            Err(fault) => assert_eq!(rt; fault, TapeFault::Line(line), "at {text:?}"),
        }
    }
    Ok(())
}

#[test]
fn a_hear_has_at_most_4096_bytes(rt: HostRuntime) -> Result<(), Fail> {
    let alloc = rt.alloc();
    for (count, is_read) in [(4096, true), (4097, false)] {
        let mut text = Vec::new(alloc);
        text.extend_from_slice(b"open\nhear ")?;
        for _ in 0..count {
            text.extend_from_slice(b"00")?;
        }
        assert_eq!(rt; read_tape(alloc, text.as_slice()).is_ok(), is_read);
    }
    Ok(())
}

fn play(alloc: Global, text: &str) -> Result<TapeLink, Fail> {
    Ok(TapeLink::new(alloc, read_tape(alloc, text.as_bytes())?))
}

#[test]
fn each_item_is_heard_in_turn(rt: HostRuntime) -> Result<(), Fail> {
    let alloc = rt.alloc();
    let mut link = play(
        alloc,
        "open\nhear 010203\nquiet 2\nhear 04\nend\nopen\nfail\n",
    )?;
    let mut buffer = [0; 2];
    assert_eq!(rt; link.recv(buffer.as_mut_slice()), Ok(Heard::End));
    assert_eq!(rt; link.open("broker"), Ok(()));
    for (want, front) in [
        (Ok(Heard::Bytes(2)), [1, 2]),
        (Ok(Heard::Bytes(1)), [3, 0]),
        (Ok(Heard::Nothing), [0, 0]),
        (Ok(Heard::Nothing), [0, 0]),
        (Ok(Heard::Bytes(1)), [4, 0]),
        (Ok(Heard::End), [0, 0]),
        (Ok(Heard::End), [0, 0]),
    ] {
        let mut buffer = [0; 2];
        assert_eq!(rt; link.recv(buffer.as_mut_slice()), want);
        assert_eq!(rt; buffer, front);
    }
    assert_eq!(rt; link.open("broker"), Ok(()));
    assert_eq!(rt; link.recv(buffer.as_mut_slice()), Err(Fault::Failed));
    assert_eq!(rt; link.recv(buffer.as_mut_slice()), Ok(Heard::End));
    assert_eq!(rt; link.open("broker"), Err(Fault::Failed));
    Ok(())
}

fn is(taken: Option<&[u8]>, bytes: &[u8]) -> bool {
    match taken {
        Some(taken) => taken == bytes,
        None => false,
    }
}

#[test]
fn a_connection_takes_what_it_has_room_for(rt: HostRuntime) -> Result<(), Fail> {
    let alloc = rt.alloc();
    let mut link = play(alloc, "fail\nopen\nroom 3\nhear 01\nopen\n")?;
    assert_eq!(rt; link.send(b"a".as_slice()), Err(Fault::Failed));
    assert_eq!(rt; link.open("broker"), Err(Fault::Failed));
    assert_eq!(rt; link.open("broker"), Ok(()));
    assert_eq!(rt; link.send(b"ab".as_slice()), Ok(2));
    assert_eq!(rt; link.send(b"cd".as_slice()), Ok(1));
    assert_eq!(rt; link.send(b"d".as_slice()), Err(Fault::Failed));
    assert_eq!(rt; link.open("broker"), Ok(()));
    assert_eq!(rt; link.send(b"ef".as_slice()), Ok(2));
    link.shut();
    assert_eq!(rt; link.send(b"g".as_slice()), Err(Fault::Failed));
    assert!(rt; is(link.taken(0), b"abc".as_slice()));
    assert!(rt; is(link.taken(1), b"ef".as_slice()));
    assert!(rt; link.taken(2).is_none());
    Ok(())
}
