//! Scripts as texts with the topics that were written out by hand, and a journal's messages.

use super::*;
use agent_journal::{Cause, Effect, Entry, Message, Request};
use agent_script::{Script, Step, read_script};
use list_types::{Blob, Seq, Text};
use mqtt_packet::Qos;
use std::alloc::{AllocError, Global};
use std::test::Fail;

/// The script of one task with these lines.
fn script_of(alloc: Global, lines: &str) -> Result<Script, Fail> {
    let mut text = String::new(alloc);
    text.push_str("tasks 1\n")?;
    text.push_str(lines)?;
    match read_script(alloc, text.as_bytes()) {
        Ok((script, _)) => Ok(script),
        Err(_) => Err(Fail::new("no script")),
    }
}

/// Whether a line is a publish at QoS 1 on this topic of the thing `T`.
fn is_on(alloc: Global, line: &str, wanted: &str) -> Result<bool, Fail> {
    let script = script_of(alloc, line)?;
    let Ok(made) = with_topics(alloc, script, Some("T")) else {
        return Ok(false);
    };
    match made.lines.into_vec().pop() {
        Some(line) => match line.step {
            Step::Do(
                Request::Publish {
                    qos: Qos::AtLeastOnce,
                    topic,
                    ..
                },
            ) => Ok(topic.as_str() == wanted),
            _ => Ok(false),
        },
        None => Ok(false),
    }
}

#[test]
fn lines_are_published_on_their_topics(rt: HostRuntime) -> Result<(), Fail> {
    let alloc = rt.alloc();
    for (line, topic) in [
        ("0 shadow get - -", "$aws/things/T/shadow/get"),
        (
            "0 shadow update N 7b7d",
            "$aws/things/T/shadow/name/N/update",
        ),
        (
            "0 shadow delete a:b -",
            "$aws/things/T/shadow/name/a:b/delete",
        ),
        ("0 jobs start-next -", "$aws/things/T/jobs/start-next"),
        ("0 jobs get 7b7d", "$aws/things/T/jobs/get"),
        ("0 jobs describe $next -", "$aws/things/T/jobs/$next/get"),
        ("0 jobs describe j1 -", "$aws/things/T/jobs/j1/get"),
        ("0 jobs update j1 7b7d", "$aws/things/T/jobs/j1/update"),
    ] {
        assert!(rt; is_on(alloc, line, topic)?, "at {line:?}");
    }
    Ok(())
}

/// The number of the line that is refused, or 0 where none is.
fn refused_at(alloc: Global, lines: &str, thing: Option<&str>) -> Result<u64, Fail> {
    let script = script_of(alloc, lines)?;
    match with_topics(alloc, script, thing) {
        Ok(_) => Ok(0),
        Err(LineFault::Line(number)) => Ok(number),
        Err(LineFault::NoMemory) => Err(Fail::new("no memory")),
    }
}

#[test]
fn lines_without_a_topic_are_refused(rt: HostRuntime) -> Result<(), Fail> {
    let alloc = rt.alloc();
    assert_eq!(rt; refused_at(alloc, "0 shadow get - -", None)?, 2);
    assert_eq!(rt; refused_at(alloc, "0 ping\n\n0 jobs get -", None)?, 4);
    for (lines, number) in [
        ("0 ping\n0 shadow get N -\n0 jobs get -", 0),
        ("0 ping\n0 shadow get a/b -\n0 jobs update $next -", 3),
        ("0 jobs update $next -", 2),
        ("0 jobs describe a:b -", 2),
        ("0 shadow get $next -", 2),
        ("# of class N\n0 shadow get - -\n0 shadow get N+ -", 4),
    ] {
        assert_eq!(rt;
            refused_at(alloc, lines, Some("T"))?,
            number,
            "at {lines:?}"
        );
    }
    assert_eq!(rt; refused_at(alloc, "0 shadow get - -", Some("a/b"))?, 2);
    Ok(())
}

#[test]
fn other_lines_stay(rt: HostRuntime) -> Result<(), Fail> {
    let alloc = rt.alloc();
    let lines = "0 ping\n0 wait\n\n0 publish 0 a 00\n0 listen 3";
    let script = script_of(alloc, lines)?;
    let before = script_of(alloc, lines)?;
    let Ok(after) = with_topics(alloc, script, None) else {
        return Err(Fail::new("refused"));
    };
    assert!(rt; after == before);
    Ok(())
}

fn pass(alloc: Global, task: u32, topic: &str) -> Result<Effect, AllocError> {
    let topic = Text::from_str(alloc, topic)?;
    Ok(Effect::Pass {
        task,
        message: Message {
            topic,
            qos: Qos::AtMostOnce,
            payload: Blob::new(alloc),
        },
    })
}

#[test]
fn messages_are_counted_by_their_topics(rt: HostRuntime) -> Result<(), Fail> {
    let alloc = rt.alloc();
    let mut effects = Seq::new(alloc);
    for topic in [
        "$aws/things/T/shadow/get/accepted",
        "$aws/things/T/shadow/name/N/update/delta",
        "$aws/things/T/jobs/$next/get/accepted",
        "$aws/things/U/shadow/get/accepted",
        "$aws/things/T/shadow/got",
        "$aws/things/T/streams/S/data/cbor",
        "a/b",
    ] {
        let effect = pass(alloc, 0, topic)?;
        effects.push(effect)?;
    }
    let effect = pass(alloc, 1, "$aws/things/T/jobs/notify")?;
    effects.push(effect)?;
    let entry = Entry {
        at: 0,
        cause: Cause::Tick,
        effects,
    };
    let journal = [entry];
    assert_eq!(rt;
        kinds_of("T", journal.as_slice(), 0),
        Kinds { shadow: 2, jobs: 1 }
    );
    assert_eq!(rt;
        kinds_of("T", journal.as_slice(), 1),
        Kinds { shadow: 0, jobs: 1 }
    );
    assert_eq!(rt;
        kinds_of("T", journal.as_slice(), 2),
        Kinds { shadow: 0, jobs: 0 }
    );
    Ok(())
}

#[test]
fn laws_can_be_called() {
    read_scripts_are_short();
    shadows_are_found();
    jobs_are_found();
}
