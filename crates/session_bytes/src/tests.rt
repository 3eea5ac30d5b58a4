//! Texts that were worked out by hand, and what is wrong with texts beside them.

use agent_journal::Phase;
use list_types::{Blob, Text};
use mqtt_packet::{Packet, Qos};
use session_text::{Bounds, RestoreFault, Session, Stage, fits, read};
use std::alloc::{AllocError, Global};
use std::process::Abort;
use std::test::Fail;

const TWO_TASKS: Bounds = Bounds {
    tasks: 2,
    acks: 1,
    inbound: 1,
    routes: 1,
};

/// Down, one CONNACK accepted and one break since, task 1 has left, three requests of task 0; at 1,000 ms.
const HEAD: [u8; 10] = [0, 0, 0, 0, 1, 0, 0, 0, 1, 2];
/// The newest entry, then a held identifier and a released publish of `hi` to `a/b`, and an unsure route of `a/#`.
const TAIL: [u8; 58] = [
    0, 0, 0, 0, 0, 0, 0, 3, 232, 0, 2, 0, 1, 0, 7, 0, 1, 0, 0, 0, 0, 0, 0, 0, 2, 2, 0, 0, 0, 11,
    52, 9, 0, 3, 97, 47, 98, 0, 2, 104, 105, 0, 1, 0, 2, 0, 1, 0, 0, 0, 0, 1, 1, 0, 3, 97, 47, 35,
];

/// The text of a new agent: its phase is Down, and its first CONNACK is still to come.
fn first_text(alloc: Global) -> Result<Vec<u8>, AllocError> {
    let mut bytes = vec![in alloc; 0u8; 93]?;
    if let Some(first) = bytes.get_mut(3) {
        *first = 1;
    }
    Ok(bytes)
}

/// The text of an agent with one of each.
fn rich_text(alloc: Global) -> Result<Vec<u8>, AllocError> {
    let mut bytes = Vec::new(alloc);
    bytes.extend_from_slice(HEAD.as_slice())?;
    bytes.extend_from_slice([0, 0, 0, 0, 0, 0, 0, 3].as_slice())?;
    bytes.extend_from_slice(&[0; 56])?;
    bytes.extend_from_slice(TAIL.as_slice())?;
    Ok(bytes)
}

/// 0 where the text fits, 1 where it is read and doesn't, 2 where it is none.
fn verdict(alloc: Global, bytes: &[u8], bounds: &Bounds) -> u8 {
    match read(alloc, bytes) {
        Ok(session) => u8::from(!fits_two(bounds, &session)),
        Err(RestoreFault::Bad) => 2,
        Err(RestoreFault::NoMemory) => 3,
    }
}

fn fits_two(bounds: &Bounds, session: &Session) -> bool {
    bounds.tasks <= 8 && fits(bounds, session)
}

/// The verdict on a text with one byte changed.
fn changed(alloc: Global, bytes: &mut [u8], at: usize, byte: u8) -> u8 {
    match bytes.get(at).copied() {
        Some(old) => {
            set(bytes, at, byte);
            let verdict = verdict(alloc, bytes, &TWO_TASKS);
            set(bytes, at, old);
            verdict
        }
        None => 4,
    }
}

fn set(bytes: &mut [u8], at: usize, byte: u8) {
    if let Some(place) = bytes.get_mut(at) {
        *place = byte;
    }
}

/// The first row whose change of one byte hasn't the wanted verdict, and how many rows there are where all have.
fn first_wrong(alloc: Global, bytes: &mut [u8], rows: &[(usize, u8, u8)]) -> usize {
    for (place, row) in rows.iter().enumerate() {
        let (at, byte, wanted) = *row;
        if changed(alloc, bytes, at, byte) != wanted {
            return place;
        }
    }
    rows.len()
}

/// All but the last byte.
fn shorter(bytes: &[u8]) -> &[u8] {
    match bytes {
        [front @ .., _] => front,
        [] => bytes,
    }
}

#[test]
fn a_new_agent(rt: HostRuntime) -> Result<(), Fail> {
    let alloc = rt.alloc();
    let mut bytes = first_text(alloc)?;
    let session = read(alloc, &bytes).ok().ok_or("it is a text")?;
    assert_eq!(rt; session.connections.phase, Phase::Down);
    assert_eq!(rt;
        (session.connections.first, session.connections.accepted),
        (true, false)
    );
    assert_eq!(rt; session.taken.len(), 8);
    assert!(rt; fits(&TWO_TASKS, &session));
    let rows = [
        (0, 1, 0),
        (0, 4, 1),
        (0, 5, 2),
        (1, 1, 1),
        (1, 5, 2),
        (1, 9, 2),
        (2, 1, 2),
        (3, 2, 2),
        (4, 2, 2),
        (9, 3, 0),
        (9, 4, 1),
        (12, 1, 1),
        (13, 1, 0),
        (25, 5, 0),
        (33, 5, 1),
        (74, 2, 2),
        (86, 1, 2),
        (88, 1, 2),
        (90, 1, 2),
        (92, 1, 2),
    ];
    assert_eq!(rt; first_wrong(alloc, &mut bytes, rows.as_slice()), 20);
    assert_eq!(rt; verdict(alloc, shorter(&bytes), &TWO_TASKS), 2);
    bytes.push(0)?;
    assert_eq!(rt; verdict(alloc, &bytes, &TWO_TASKS), 2);
    Ok(())
}

#[test]
fn one_of_each(rt: HostRuntime) -> Result<(), Fail> {
    let alloc = rt.alloc();
    let mut bytes = rich_text(alloc)?;
    let session = read(alloc, &bytes).ok().ok_or("it is a text")?;
    assert_eq!(rt; (session.connections.breaks, session.left), (1, 2));
    assert_eq!(rt; (session.last.time, session.last.id), (1_000, 2));
    assert_eq!(rt; session.held.get(0), Some(&7));
    assert_eq!(rt; session.released.get(0), Some(&2));
    let command = session.commands.get(0).ok_or("a command is open")?;
    assert_eq!(rt; (command.seq, command.stage), (2, Stage::Released));
    let packet = Packet::Publish {
        dup: false,
        qos: Qos::ExactlyOnce,
        retain: false,
        topic: Text::from_str(alloc, "a/b")?,
        id: 2,
        payload: Blob::from_vec(b"hi".to_vec(alloc)?),
    };
    assert!(rt; command.packet == packet);
    let route = session.routes.get(0).ok_or("a route was granted")?;
    assert_eq!(rt;
        (route.task, route.qos, route.unsure),
        (0, Qos::AtLeastOnce, true)
    );
    assert_eq!(rt; route.filter.as_str(), "a/#");
    assert!(rt; fits(&TWO_TASKS, &session));
    let rows = [
        (88, 0, 1),
        (94, 2, 1),
        (99, 0, 1),
        (99, 1, 1),
        (99, 3, 2),
        (103, 10, 2),
        (104, 48, 1),
        (104, 50, 1),
        (104, 60, 1),
        (112, 3, 1),
        (118, 3, 1),
        (124, 2, 1),
        (125, 3, 2),
        (126, 2, 2),
        (130, 35, 2),
        (131, 98, 0),
    ];
    assert_eq!(rt; first_wrong(alloc, &mut bytes, rows.as_slice()), 16);
    let mut none = TWO_TASKS;
    none.acks = 0;
    assert_eq!(rt; verdict(alloc, &bytes, &none), 1);
    Ok(())
}
