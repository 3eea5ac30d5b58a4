//! What no clause says: a service asked in order, images with digests of FIPS 180-4, requests for blocks, and each bad line
//! of a text. Memory is ample here, and no call answers that it isn't.

use arrayvec::ArrayVec;
use device_docs::{Job, JobStatus, read_execution, write_update};
use sha2::{Digest, Sha256};
use std::alloc::Global;
use std::test::Fail;
use stream_blocks::{AskBlocks, read_block, write_request};
use thing_service::{Service, ServiceFault, read_service};

/// Two jobs: of 300 bytes and of 1,048,576, both of seed 1.
const TWO_JOBS: &[u8] =
    b"# two jobs\n\nthing t1\njob j1 s1 /img 0 1 300\n\njob j2 s1 /a%20b 1 1 1048576\n";

const ONE_JOB: &[u8] = b"thing t1\njob j1 s1 /img 0 7 10\n";

/// The digests of the first bytes of seed 1: 300, and 1,048,576.
const SHORT: [u8; 32] =
    *b"\x37\xf8\x0d\x41\x4a\xe9\x0e\x66\xae\x61\x07\x31\x08\x6f\xa2\xfb\xe2\x17\x42\x05\x24\x56\x45\xda\x80\x26\xde\xf7\xff\x3b\x74\xee";

const LONG: [u8; 32] =
    *b"\xbd\x2c\xbe\xbd\x68\x61\xd7\xbe\xee\x9b\xb0\xcc\x3c\x12\x3b\x64\x82\xbf\x58\x85\x2e\xf9\xb9\xc3\x4a\xa8\x66\x50\xaa\x32\xd8\x8b";

const START_NEXT: &str = "$aws/things/t1/jobs/start-next";

const GET: &str = "$aws/things/t1/streams/s1/get/cbor";

const DATA: &str = "$aws/things/t1/streams/s1/data/cbor";

const REJECTED: &str = "$aws/things/t1/streams/s1/rejected/cbor";

/// The one answer to a message, on this topic: `None` where there is none or several, or where its topic is another.
fn answer(
    service: &mut Service,
    topic: &str,
    payload: &[u8],
    wanted: &str,
) -> Result<Option<Vec<u8>>, Fail> {
    let answers = service.on(topic, payload)?.into_vec();
    let mut found = None;
    let count = answers.len();
    for (on, payload) in answers {
        if on.as_str() == wanted && count == 1 {
            found = Some(payload.into_vec());
        }
    }
    Ok(found)
}

/// Whether the one answer is this text on this topic.
fn answers(
    service: &mut Service,
    topic: &str,
    payload: &[u8],
    on: &str,
    text: &[u8],
) -> Result<bool, Fail> {
    match answer(service, topic, payload, on)? {
        Some(found) => Ok(found.as_slice() == text),
        None => Ok(false),
    }
}

/// The job that is next, or `None` where there is none.
fn next_job(alloc: Global, service: &mut Service) -> Result<Option<Job>, Fail> {
    let accepted = "$aws/things/t1/jobs/start-next/accepted";
    let document = answer(service, START_NEXT, b"{}", accepted)?.ok_or("no answer")?;
    match read_execution(alloc, document.as_slice()) {
        Ok(job) => Ok(job),
        Err(_) => Err("no document")?,
    }
}

/// Whether the next job has this name, file and digest.
fn is_next(
    alloc: Global,
    service: &mut Service,
    name: &str,
    file: u32,
    digest: [u8; 32],
) -> Result<bool, Fail> {
    match next_job(alloc, service)? {
        Some(job) => Ok(job.job.as_str() == name && job.file == file && job.digest == digest),
        None => Ok(false),
    }
}

/// Whether no job is next.
fn none_is_next(service: &mut Service) -> Result<bool, Fail> {
    let accepted = "$aws/things/t1/jobs/start-next/accepted";
    answers(service, START_NEXT, b"{}", accepted, b"{}")
}

/// Whether an update of job `j1` or `j2` is accepted.
fn update(service: &mut Service, topic: &str, status: JobStatus) -> Result<bool, Fail> {
    let accepted = match topic {
        "$aws/things/t1/jobs/j1/update" => "$aws/things/t1/jobs/j1/update/accepted",
        _ => "$aws/things/t1/jobs/j2/update/accepted",
    };
    answers(
        service,
        topic,
        write_update(status).as_bytes(),
        accepted,
        b"{}",
    )
}

#[test]
fn two_jobs_are_asked_in_order(rt: HostRuntime) -> Result<(), Fail> {
    let alloc = rt.alloc();
    let mut service = read_service(alloc, TWO_JOBS)?;
    assert!(rt; is_next(alloc, &mut service, "j1", 0, SHORT)?);
    let first = "$aws/things/t1/jobs/j1/update";
    let second = "$aws/things/t1/jobs/j2/update";
    assert!(rt; update(&mut service, first, JobStatus::InProgress)?);
    assert!(rt; is_next(alloc, &mut service, "j1", 0, SHORT)?);
    assert!(rt; update(&mut service, first, JobStatus::Succeeded)?);
    assert!(rt; is_next(alloc, &mut service, "j2", 1, LONG)?);
    assert!(rt; update(&mut service, second, JobStatus::Rejected)?);
    assert!(rt; none_is_next(&mut service)?);
    Ok(())
}

#[test]
fn only_job_that_failed_is_over(rt: HostRuntime) -> Result<(), Fail> {
    let alloc = rt.alloc();
    let mut service = read_service(alloc, ONE_JOB)?;
    assert!(rt;
        update(
            &mut service,
            "$aws/things/t1/jobs/j1/update",
            JobStatus::Failed
        )?
    );
    assert!(rt; none_is_next(&mut service)?);
    Ok(())
}

#[test]
fn nothing_else_is_answered(rt: HostRuntime) -> Result<(), Fail> {
    let alloc = rt.alloc();
    let mut service = read_service(alloc, ONE_JOB)?;
    let succeeded = write_update(JobStatus::Succeeded).as_bytes();
    let others = [
        "$aws/things/t1/jobs/j2/update",
        "$aws/things/t2/jobs/j1/update",
        "$aws/things/t2/jobs/start-next",
        "$aws/things/t1/jobs/j1/get",
        "$aws/things/t1/streams/s1/data/cbor",
        "$aws/things/t2/streams/s1/get/cbor",
        "a/b",
        "",
    ];
    for topic in others {
        assert!(rt; service.on(topic, succeeded)?.is_empty());
    }
    assert!(rt; !none_is_next(&mut service)?);
    Ok(())
}

/// The request for these blocks of a file, at most 16.
fn request(
    alloc: Global,
    file: u32,
    size: u32,
    offset: u32,
    bitmap: &[u8],
) -> Result<Vec<u8>, Fail> {
    let mut map = ArrayVec::new();
    for byte in bitmap {
        let _full = map.try_push(*byte);
    }
    let asked = AskBlocks {
        file,
        size,
        offset,
        number: 16,
        map,
    };
    let mut message = Vec::from_elem(alloc, 0, 128)?;
    let count = match write_request(&asked, message.as_mut_slice()) {
        Ok(count) => count,
        Err(_) => 0,
    };
    message.truncate(count);
    Ok(message)
}

/// How many blocks of so many bytes are sent, from this one on and without a gap: `None` where an answer is another.
fn sent(
    service: &mut Service,
    asked: &[u8],
    first: u64,
    size: usize,
) -> Result<Option<usize>, Fail> {
    let mut out = [0; 4096];
    let mut next = first;
    let mut count: usize = 0;
    for (topic, payload) in service.on(GET, asked)?.into_vec() {
        match read_block(payload.as_slice(), &mut out) {
            Ok(head) if topic.as_str() == DATA && head.index == next && head.len == size => {}
            _ => return Ok(None),
        }
        next = next.wrapping_add(1);
        count = count.wrapping_add(1);
    }
    Ok(Some(count))
}

#[test]
fn blocks_that_are_asked_for_are_sent(rt: HostRuntime) -> Result<(), Fail> {
    let alloc = rt.alloc();
    let mut service = read_service(alloc, TWO_JOBS)?;
    let one = request(alloc, 1, 4096, 255, b"\x01")?;
    assert_eq!(rt; sent(&mut service, one.as_slice(), 255, 4096)?, Some(1));
    let sixteen = request(alloc, 1, 4096, 3, b"\xff\xff")?;
    assert_eq!(rt; sent(&mut service, sixteen.as_slice(), 3, 4096)?, Some(16));
    let more = request(alloc, 1, 4096, 3, b"\xff\xff\x01")?;
    assert_eq!(rt; sent(&mut service, more.as_slice(), 3, 4096)?, Some(16));
    let beyond = request(alloc, 1, 4096, 256, b"\xff")?;
    assert_eq!(rt; sent(&mut service, beyond.as_slice(), 256, 4096)?, Some(0));
    Ok(())
}

#[test]
fn blocks_are_those_of_the_image(rt: HostRuntime) -> Result<(), Fail> {
    let alloc = rt.alloc();
    let mut service = read_service(alloc, TWO_JOBS)?;
    let asked = request(alloc, 0, 256, 0, b"\xff")?;
    let mut hasher = Sha256::new();
    let mut out = [0; 256];
    let mut count: usize = 0;
    for (_, payload) in service.on(GET, asked.as_slice())?.into_vec() {
        if let Ok(head) = read_block(payload.as_slice(), &mut out) {
            hasher.update(&out[..head.len.min(256)]);
            count = count.wrapping_add(1);
        }
    }
    assert_eq!(rt; count, 2);
    assert_eq!(rt; hasher.finalize(), SHORT);
    Ok(())
}

#[test]
fn other_requests_are_rejected(rt: HostRuntime) -> Result<(), Fail> {
    let alloc = rt.alloc();
    let mut service = read_service(alloc, TWO_JOBS)?;
    let other = request(alloc, 2, 4096, 0, b"\x01")?;
    let hundred = request(alloc, 0, 100, 0, b"\x01")?;
    for asked in [other.as_slice(), hundred.as_slice(), b"", b"\xa0"] {
        assert!(rt; answers(&mut service, GET, asked, REJECTED, b"\xa0")?);
    }
    let good = request(alloc, 0, 256, 0, b"\x01")?;
    let elsewhere = "$aws/things/t1/streams/s2/get/cbor";
    let rejected = "$aws/things/t1/streams/s2/rejected/cbor";
    assert!(rt; answers(&mut service, elsewhere, good.as_slice(), rejected, b"\xa0")?);
    Ok(())
}

/// The first bad line of a text, or 0.
fn bad_line(alloc: Global, text: &[u8]) -> u64 {
    match read_service(alloc, text) {
        Ok(_) => 0,
        Err(ServiceFault::Line(number)) => number,
        Err(ServiceFault::NoMemory) => 999,
    }
}

#[test]
fn first_bad_line_is_told(rt: HostRuntime) -> Result<(), Fail> {
    let alloc = rt.alloc();
    let good = [
        b"".as_slice(),
        b"# nothing\n\n",
        b"thing t1",
        b"thing t1\njob j s /p 4294967295 18446744073709551615 1\n",
        b"thing t1\njob j s /p 0 1 1\njob k s /p 1 1 1\njob l r /p 0 1 1",
    ];
    for text in good {
        assert_eq!(rt; bad_line(alloc, text), 0);
    }
    let bad = [
        (b"thing\n".as_slice(), 1),
        (b"thing a b\n", 1),
        (b"#\njob j s /p 0 1 1\n", 2),
        (b"thing t1\nthing t2\n", 2),
        (b"thing t1\n\njob j s /p 0 1\n", 3),
        (b"thing t1\njob j s /p 0 1 1 1\n", 2),
        (b"thing t1\njob j. s /p 0 1 1\n", 2),
        (b"thing t1\njob j s. /p 0 1 1\n", 2),
        (b"thing t1\njob j s /%2 0 1 1\n", 2),
        (b"thing t1\njob j s /p 4294967296 1 1\n", 2),
        (b"thing t1\njob j s /p 0 18446744073709551616 1\n", 2),
        (b"thing t1\njob j s /p 0 1 0\n", 2),
        (b"thing t1\njob j s /p 0 1 16777217\n", 2),
        (b"thing t1\njob j s /p 0 01 1\n", 2),
        (b"thing t1\njob j s /p 0 1 1\njob j r /p 0 1 1\n", 3),
        (b"thing t1\njob j s /p 0 1 1\njob k s /q 0 1 1\n", 3),
    ];
    for (text, number) in bad {
        assert_eq!(rt; bad_line(alloc, text), number);
    }
    Ok(())
}

#[test]
fn service_without_thing_answers_nothing(rt: HostRuntime) -> Result<(), Fail> {
    let alloc = rt.alloc();
    let mut service = read_service(alloc, b"# nothing\n")?;
    for topic in [START_NEXT, GET, "$aws/things/t1/jobs/j1/update"] {
        assert!(rt; service.on(topic, b"{}")?.is_empty());
    }
    Ok(())
}
