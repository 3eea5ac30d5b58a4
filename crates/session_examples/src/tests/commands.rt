//! What no clause says: that there is room for ACKS commands, and each call at a small and a large size.

ghost use Rattle.std.specs.Prelude.{◌<◌, ◌≤◌};

use agent_journal::Request;
use list_types::Seq;
use pending_acks::{Pending, PendingAcks};
use std::alloc::{AllocError, Global};
use std::process::Abort;
use std::test::Fail;

/// As many commands as there is room for, of the identifiers 1, 2, 3 and so on.
fn filled<const ACKS: usize>(alloc: Global) -> Result<PendingAcks<ACKS>, AllocError>
    requires { (0 < ACKS) × (ACKS ≤ 1024) }
{
    let mut commands = PendingAcks::new(alloc)?;
    for id in 1..2_000u16 {
        add(alloc, &mut commands, id);
    }
    Ok(commands)
}

/// Adds a command where there is room, and none of its identifier.
fn add<const ACKS: usize>(alloc: Global, commands: &mut PendingAcks<ACKS>, id: u16) {
    if !commands.is_full() && !commands.has(id) {
        commands.add(Pending {
            id,
            task: 3,
            seq: u32::from(id) * 2,
            request: Request::Ping,
            sent_filters: Seq::new(alloc),
        });
    }
}

/// The identifier at place `k`, and 0 where there is none.
fn id_at<const ACKS: usize>(commands: &PendingAcks<ACKS>, k: usize) -> u16 {
    id_of(commands.get(k))
}

/// The identifier of a command, and 0 where there is none.
fn id_of(command: Option<&Pending>) -> u16 {
    match command {
        Some(command) => command.id,
        None => 0,
    }
}

/// Each call, in commands that are as many as there is room for.
fn each_call<const ACKS: usize>(rt: &impl Abort, alloc: Global, commands: &mut PendingAcks<ACKS>) {
    assert_eq!(rt;
        (commands.len(), commands.is_full(), commands.is_empty()),
        (ACKS, true, false)
    );
    assert_eq!(rt;
        [
            id_at(commands, 0),
            id_at(commands, 1),
            id_at(commands, ACKS)
        ],
        [1, 2, 0]
    );
    assert_eq!(rt; [commands.has(2), commands.has(2_000)], [true, false]);
    assert_eq!(rt;
        [id_of(commands.find(2)), id_of(commands.find(2_000))],
        [2, 0]
    );
    assert_eq!(rt;
        [
            id_of(commands.find_command(3, 4)),
            id_of(commands.find_command(4, 4))
        ],
        [2, 0]
    );
    let taken = commands.take(1);
    assert_eq!(rt; id_of(taken.as_ref()), 1);
    assert!(rt; commands.take(1).is_none());
    add(alloc, commands, 40_001);
    assert_eq!(rt;
        [id_at(commands, 0), id_at(commands, ACKS - 1)],
        [2, 40_001]
    );
}

#[test]
fn each_call_at_2(rt: HostRuntime) -> Result<(), Fail> {
    let mut commands = filled::<2>(rt.alloc())?;
    each_call(&rt, rt.alloc(), &mut commands);
    Ok(())
}

#[test]
fn each_call_at_1024(rt: HostRuntime) -> Result<(), Fail> {
    let mut commands = filled::<1024>(rt.alloc())?;
    each_call(&rt, rt.alloc(), &mut commands);
    Ok(())
}

#[test]
fn what_was_added_is_taken(rt: HostRuntime) -> Result<(), Fail> {
    let mut commands = filled::<2>(rt.alloc())?;
    let first = commands.take(1).ok_or("1 is there")?;
    assert_eq!(rt; (first.id, first.task, first.seq), (1, 3, 2));
    assert!(rt; first.request == Request::Ping);
    assert!(rt; !commands.is_full());
    assert!(rt; commands.take(2).is_some());
    assert!(rt; commands.is_empty());
    Ok(())
}

#[test]
fn the_others_keep_their_order(rt: HostRuntime) -> Result<(), Fail> {
    let mut commands = filled::<1024>(rt.alloc())?;
    assert!(rt; commands.is_full());
    let taken = commands.take(512).ok_or("512 is there")?;
    assert_eq!(rt; taken.seq, 1_024);
    assert_eq!(rt; commands.len(), 1_023);
    assert!(rt; commands.find(512).is_none());
    if !commands.is_full() && !commands.has(taken.id) {
        commands.add(taken);
    }
    assert!(rt; commands.find(512).is_some());
    assert_eq!(rt; [id_at(&commands, 510), id_at(&commands, 511)], [511, 513]);
    assert_eq!(rt;
        [id_at(&commands, 1_022), id_at(&commands, 1_023)],
        [1_024, 512]
    );
    Ok(())
}
