//! What no clause says: the statuses of worked runs.

use super::*;
use agent_journal::{Cause, Effect, Entry, Journal, Request, Why};
use list_types::Seq;
use mqtt_packet::Packet;
use std::alloc::Global;
use std::test::Fail;

/// One more entry, which sends a packet or nothing.
fn note(
    alloc: Global,
    journal: &mut Journal,
    cause: Cause,
    sent: Option<Packet>,
) -> Result<(), Fail> {
    let mut effects = Seq::new(alloc);
    if let Some(packet) = sent {
        effects
            .push(Effect::Send { packet })
            .ok()
            .ok_or("no memory")?;
    }
    let at = 0;
    journal
        .push(Entry { at, cause, effects })
        .ok()
        .ok_or("no memory")?;
    Ok(())
}

fn take(seq: u32, request: Request) -> Cause {
    Cause::Take {
        task: 0,
        seq,
        request,
    }
}

fn answer(present: bool, code: u8) -> Cause {
    Cause::Arrived {
        packet: Packet::ConnAck { present, code },
    }
}

#[test]
fn a_first_answer_refuses_or_holds_a_session(rt: HostRuntime) -> Result<(), Fail> {
    let alloc = rt.alloc();
    for (present, code, status) in [(false, 5, 4), (false, 1, 4), (true, 0, 6)] {
        let mut journal = Journal::new(alloc);
        note(alloc, &mut journal, Cause::Opened, None)?;
        note(alloc, &mut journal, answer(present, code), None)?;
        note(alloc, &mut journal, take(0, Request::Ping), None)?;
        note(alloc, &mut journal, take(1, Request::Leave), None)?;
        assert_eq!(rt; status_of(&journal), status);
    }
    Ok(())
}

#[test]
fn a_second_answer_is_a_wrong_packet(rt: HostRuntime) -> Result<(), Fail> {
    let alloc = rt.alloc();
    let mut journal = Journal::new(alloc);
    note(alloc, &mut journal, Cause::Opened, None)?;
    note(alloc, &mut journal, answer(false, 0), None)?;
    note(alloc, &mut journal, answer(false, 5), None)?;
    note(alloc, &mut journal, take(0, Request::Leave), None)?;
    assert_eq!(rt; status_of(&journal), 5);
    Ok(())
}

#[test]
fn connections_break_until_the_agent_gives_up(rt: HostRuntime) -> Result<(), Fail> {
    let alloc = rt.alloc();
    let mut journal = Journal::new(alloc);
    note(alloc, &mut journal, Cause::Opened, None)?;
    note(alloc, &mut journal, answer(false, 0), None)?;
    note(alloc, &mut journal, Cause::Tick, Some(Packet::PingReq))?;
    let why = Why::KeepAlive;
    note(alloc, &mut journal, Cause::Broke { why }, None)?;
    note(alloc, &mut journal, Cause::GaveUp, None)?;
    note(alloc, &mut journal, take(0, Request::Leave), None)?;
    assert_eq!(rt; status_of(&journal), 3);
    Ok(())
}

#[test]
fn bytes_that_are_no_packet_end_a_run(rt: HostRuntime) -> Result<(), Fail> {
    let alloc = rt.alloc();
    let mut journal = Journal::new(alloc);
    note(alloc, &mut journal, Cause::Opened, None)?;
    let why = Why::Bad { at: 0 };
    note(alloc, &mut journal, Cause::Broke { why }, None)?;
    note(alloc, &mut journal, take(0, Request::Leave), None)?;
    assert_eq!(rt; status_of(&journal), 5);
    Ok(())
}

#[test]
fn a_task_ends_a_run_also_where_its_last_packet_fails(rt: HostRuntime) -> Result<(), Fail> {
    let alloc = rt.alloc();
    let mut journal = Journal::new(alloc);
    note(alloc, &mut journal, Cause::Opened, None)?;
    note(alloc, &mut journal, answer(false, 0), None)?;
    let last = Some(Packet::Disconnect);
    note(alloc, &mut journal, take(0, Request::Terminate), last)?;
    let why = Why::Fault;
    note(alloc, &mut journal, Cause::Broke { why }, None)?;
    note(alloc, &mut journal, take(1, Request::Ping), None)?;
    note(alloc, &mut journal, take(2, Request::Leave), None)?;
    assert_eq!(rt; status_of(&journal), 0);
    Ok(())
}
