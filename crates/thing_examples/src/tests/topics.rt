//! Each call against texts that were written out by hand.

use std::test::Fail;
use thing_topics::{
    JobsKind, JobsMatch, NameFault, ShadowKind, ShadowMatch, StreamKind, StreamMatch, TopicFault,
    jobs_topic, match_jobs, match_shadow, match_stream, shadow_topic, stream_topic,
};

fn is_shadow_topic(text: &str, name: Option<&str>, kind: ShadowKind) -> bool {
    let parts = ShadowMatch {
        thing: "T",
        name,
        kind,
    };
    match shadow_topic("T", name, kind) {
        Ok(topic) => topic.as_str() == text && match_shadow(text) == Ok(parts),
        Err(_) => false,
    }
}

#[test]
fn topics_of_shadows_are_written_and_read(rt: HostRuntime) {
    for (text, kind) in [
        ("$aws/things/T/shadow/get", ShadowKind::Get),
        ("$aws/things/T/shadow/get/accepted", ShadowKind::GetAccepted),
        ("$aws/things/T/shadow/get/rejected", ShadowKind::GetRejected),
        ("$aws/things/T/shadow/update", ShadowKind::Update),
        (
            "$aws/things/T/shadow/update/accepted",
            ShadowKind::UpdateAccepted,
        ),
        (
            "$aws/things/T/shadow/update/rejected",
            ShadowKind::UpdateRejected,
        ),
        ("$aws/things/T/shadow/update/delta", ShadowKind::UpdateDelta),
        (
            "$aws/things/T/shadow/update/documents",
            ShadowKind::UpdateDocuments,
        ),
        ("$aws/things/T/shadow/delete", ShadowKind::Delete),
        (
            "$aws/things/T/shadow/delete/accepted",
            ShadowKind::DeleteAccepted,
        ),
        (
            "$aws/things/T/shadow/delete/rejected",
            ShadowKind::DeleteRejected,
        ),
    ] {
        assert!(rt; is_shadow_topic(text, None, kind), "at {text}");
    }
    for (text, kind) in [
        ("$aws/things/T/shadow/name/a:b/get", ShadowKind::Get),
        (
            "$aws/things/T/shadow/name/a:b/get/accepted",
            ShadowKind::GetAccepted,
        ),
        (
            "$aws/things/T/shadow/name/a:b/get/rejected",
            ShadowKind::GetRejected,
        ),
        ("$aws/things/T/shadow/name/a:b/update", ShadowKind::Update),
        (
            "$aws/things/T/shadow/name/a:b/update/accepted",
            ShadowKind::UpdateAccepted,
        ),
        (
            "$aws/things/T/shadow/name/a:b/update/rejected",
            ShadowKind::UpdateRejected,
        ),
        (
            "$aws/things/T/shadow/name/a:b/update/delta",
            ShadowKind::UpdateDelta,
        ),
        (
            "$aws/things/T/shadow/name/a:b/update/documents",
            ShadowKind::UpdateDocuments,
        ),
        ("$aws/things/T/shadow/name/a:b/delete", ShadowKind::Delete),
        (
            "$aws/things/T/shadow/name/a:b/delete/accepted",
            ShadowKind::DeleteAccepted,
        ),
        (
            "$aws/things/T/shadow/name/a:b/delete/rejected",
            ShadowKind::DeleteRejected,
        ),
    ] {
        assert!(rt; is_shadow_topic(text, Some("a:b"), kind), "at {text}");
    }
}

fn is_jobs_topic(text: &str, job: Option<&str>, kind: JobsKind) -> bool {
    let parts = JobsMatch {
        thing: "T",
        job,
        kind,
    };
    match jobs_topic("T", job, kind) {
        Ok(topic) => topic.as_str() == text && match_jobs(text) == Ok(parts),
        Err(_) => false,
    }
}

#[test]
fn topics_of_jobs_are_written_and_read(rt: HostRuntime) {
    for (text, kind) in [
        ("$aws/things/T/jobs/notify", JobsKind::Notify),
        ("$aws/things/T/jobs/notify-next", JobsKind::NotifyNext),
        ("$aws/things/T/jobs/get", JobsKind::Pending),
        ("$aws/things/T/jobs/get/accepted", JobsKind::PendingAccepted),
        ("$aws/things/T/jobs/get/rejected", JobsKind::PendingRejected),
        ("$aws/things/T/jobs/start-next", JobsKind::StartNext),
        (
            "$aws/things/T/jobs/start-next/accepted",
            JobsKind::StartNextAccepted,
        ),
        (
            "$aws/things/T/jobs/start-next/rejected",
            JobsKind::StartNextRejected,
        ),
    ] {
        assert!(rt; is_jobs_topic(text, None, kind), "at {text}");
    }
    for (text, job, kind) in [
        ("$aws/things/T/jobs/j-1/get", "j-1", JobsKind::Describe),
        ("$aws/things/T/jobs/get/get", "get", JobsKind::Describe),
        (
            "$aws/things/T/jobs/$next/get/accepted",
            "$next",
            JobsKind::DescribeAccepted,
        ),
        (
            "$aws/things/T/jobs/j-1/get/rejected",
            "j-1",
            JobsKind::DescribeRejected,
        ),
        (
            "$aws/things/T/jobs/start-next/update",
            "start-next",
            JobsKind::Update,
        ),
        (
            "$aws/things/T/jobs/j-1/update/accepted",
            "j-1",
            JobsKind::UpdateAccepted,
        ),
        (
            "$aws/things/T/jobs/j-1/update/rejected",
            "j-1",
            JobsKind::UpdateRejected,
        ),
    ] {
        assert!(rt; is_jobs_topic(text, Some(job), kind), "at {text}");
    }
}

#[test]
fn topics_of_streams_are_written_and_read(rt: HostRuntime) {
    for (text, kind) in [
        ("$aws/things/T/streams/s-1/get/cbor", StreamKind::Get),
        ("$aws/things/T/streams/s-1/data/cbor", StreamKind::Data),
        (
            "$aws/things/T/streams/s-1/rejected/cbor",
            StreamKind::Rejected,
        ),
    ] {
        match stream_topic("T", "s-1", kind) {
            Ok(topic) => assert_eq!(rt; topic.as_str(), text),
            Err(fault) => panic!(rt; "no topic: {fault:?}"),
        }
        let parts = StreamMatch {
            thing: "T",
            stream: "s-1",
            kind,
        };
        assert_eq!(rt; match_stream(text), Ok(parts), "at {text}");
    }
}

#[test]
fn the_first_part_with_a_fault_is_named(rt: HostRuntime) {
    assert_eq!(rt;
        shadow_topic("", Some("/"), ShadowKind::Get).err(),
        Some(NameFault::Thing)
    );
    assert_eq!(rt;
        shadow_topic("T", Some("a/b"), ShadowKind::Get).err(),
        Some(NameFault::Name)
    );
    for (job, kind) in [
        (None, JobsKind::Describe),
        (Some("j"), JobsKind::Notify),
        (Some("$next"), JobsKind::Update),
        (Some("a:b"), JobsKind::Describe),
    ] {
        assert_eq!(rt; jobs_topic("T", job, kind).err(), Some(NameFault::Job));
    }
    assert_eq!(rt;
        jobs_topic("#", None, JobsKind::Describe).err(),
        Some(NameFault::Thing)
    );
    assert_eq!(rt;
        stream_topic("T", "a:b", StreamKind::Get).err(),
        Some(NameFault::Stream)
    );
    assert_eq!(rt;
        stream_topic("é", "s", StreamKind::Get).err(),
        Some(NameFault::Thing)
    );
}

#[test]
fn the_first_fault_of_a_text_is_named(rt: HostRuntime) {
    for (text, fault) in [
        ("", TopicFault::Root),
        ("$aws/things", TopicFault::Root),
        ("a/things/T/shadow/get", TopicFault::Root),
        ("$aws/things/", TopicFault::Thing),
        ("$aws/things/a+b/shadow/get", TopicFault::Thing),
        ("$aws/things//shadow/get", TopicFault::Thing),
        ("$aws/things/T", TopicFault::Kind),
        ("$aws/things/T/shadow", TopicFault::Kind),
        ("$aws/things/T/jobs/get", TopicFault::Kind),
        ("$aws/things/T/shadow/", TopicFault::Kind),
        ("$aws/things/T/shadow/name", TopicFault::Kind),
        ("$aws/things/T/shadow/name/N", TopicFault::Kind),
        ("$aws/things/T/shadow/name//get", TopicFault::Part),
        ("$aws/things/T/shadow/name/é/no", TopicFault::Part),
        ("$aws/things/T/shadow/name/N/no", TopicFault::Kind),
        ("$aws/things/T/shadow/get/", TopicFault::Kind),
    ] {
        assert_eq!(rt; match_shadow(text), Err(fault), "at {text}");
    }
    for (text, fault) in [
        ("$aws/things/T/jobs/$next/update", TopicFault::Part),
        ("$aws/things/T/jobs/a:b/get", TopicFault::Part),
        ("$aws/things/T/jobs//get/accepted", TopicFault::Part),
        ("$aws/things/T/jobs/a:b/no", TopicFault::Kind),
        ("$aws/things/T/jobs/accepted", TopicFault::Kind),
        ("$aws/things/T/jobs/j/get/no", TopicFault::Kind),
    ] {
        assert_eq!(rt; match_jobs(text), Err(fault), "at {text}");
    }
    for (text, fault) in [
        ("$aws/things/T/streams/", TopicFault::Part),
        ("$aws/things/T/streams/a:b/get/cbor", TopicFault::Part),
        ("$aws/things/T/streams/s", TopicFault::Kind),
        ("$aws/things/T/streams/s/get/json", TopicFault::Kind),
    ] {
        assert_eq!(rt; match_stream(text), Err(fault), "at {text}");
    }
}

#[test]
fn a_thing_has_at_most_128_letters(rt: HostRuntime) -> Result<(), Fail> {
    let alloc = rt.alloc();
    let mut thing = String::new(alloc);
    for _ in 0..128 {
        thing.push('t')?;
    }
    let longest = stream_topic(thing.as_str(), thing.as_str(), StreamKind::Rejected);
    assert_eq!(rt; longest.map(|topic| topic.len()), Ok(291));
    let mut text = String::from_str(alloc, "$aws/things/")?;
    text.push_str(thing.as_str())?;
    text.push_str("/shadow/get")?;
    assert!(rt; match_shadow(text.as_str()).is_ok());
    thing.push('t')?;
    let fault = shadow_topic(thing.as_str(), None, ShadowKind::Get).err();
    assert_eq!(rt; fault, Some(NameFault::Thing));
    let mut text = String::from_str(alloc, "$aws/things/")?;
    text.push_str(thing.as_str())?;
    text.push_str("/shadow/get")?;
    assert_eq!(rt; match_shadow(text.as_str()), Err(TopicFault::Thing));
    Ok(())
}
