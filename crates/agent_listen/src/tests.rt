//! Callers over memory.

ghost use Rattle.std.specs.Prelude.{IfOk};
ghost use Rattle.agent_listen.specs.Waiting.{IsCaller};

use super::*;
use agent_link::{Heard, Link};
use broker_tape::{TapeLink, read_tape};
use std::alloc::Global;
use std::test::Fail;

fn calls(alloc: Global, text: &str) -> Result<TapeLink, Fail>
    ensures { IfOk result IsCaller }
{
    let tape = read_tape(alloc, text.as_bytes())?;
    Ok(caller(alloc, tape).ok_or("no caller")?)
}

/// Whether no caller comes.
fn is_alone(listen: &mut MemListen) -> bool {
    match listen.next() {
        Ok(_) => false,
        Err(_) => true,
    }
}

#[test]
fn callers_come_in_order_and_stand_where_they_came_back(rt: HostRuntime) -> Result<(), Fail> {
    let alloc = rt.alloc();
    let first = calls(alloc, "open\nhear 01\n")?;
    let second = calls(alloc, "open\nhear 0203\n")?;
    let mut listen = MemListen::new(vec![in alloc; first, second]?, vec![in alloc; 1]?);
    assert_eq!(rt; listen.bind("x"), Ok(()));
    assert!(rt; is_alone(&mut listen));
    let mut buffer = [0u8; 4];
    let Ok(mut one) = listen.next() else {
        return Err(Fail::from("no first caller"));
    };
    assert_eq!(rt; one.recv(buffer.as_mut_slice()), Ok(Heard::Bytes(1)));
    let Ok(mut two) = listen.next() else {
        return Err(Fail::from("no second caller"));
    };
    assert_eq!(rt; two.recv(buffer.as_mut_slice()), Ok(Heard::Bytes(2)));
    assert_eq!(rt; two.send([7].as_slice()), Ok(1));
    listen.back(two);
    listen.back(one);
    assert!(rt; is_alone(&mut listen));
    assert_eq!(rt; listen.served().len(), 2);
    assert!(rt; took(&listen, 0, [7].as_slice()));
    assert!(rt; took(&listen, 1, [].as_slice()));
    Ok(())
}

/// Whether the caller at this place of those that came back took these bytes.
fn took(listen: &MemListen, place: usize, bytes: &[u8]) -> bool {
    match listen.served().get(place) {
        Some(link) => link.taken(0) == Some(bytes),
        None => false,
    }
}

#[test]
fn a_tape_that_begins_with_a_fault_is_no_caller(rt: HostRuntime) -> Result<(), Fail> {
    let alloc = rt.alloc();
    let tape = read_tape(alloc, b"fail\nopen\n".as_slice())?;
    assert!(rt; caller(alloc, tape).is_none());
    Ok(())
}
