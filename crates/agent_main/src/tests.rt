//! The program over sources and sinks in memory, with ample memory. The texts were worked out by
//! hand.

use super::*;
use agent_link::{MemSink, MemSource};
use std::test::Fail;

mod deliveries;
mod journals;
mod links;
mod replays;
mod told;

const PUBLISHED: &[u8] = b"tasks 1\n0 publish 0 a/b 6869\ntape\nopen\nhear 20020000\n";

const PRINTED: &[u8] =
    b"@0 opened\n  send 100f00044d5154540400003c0003646576\n@0 arrived 20020000\n@0 take 0 0 publish 0 a/b 6869\n  send 30070003612f626869\n  done 0 0 done\n@0 take 0 1 leave\n@0 finish\n  send e000\ntask 0 sent 1 got 1 messages 0\nok\n";

const LEFT: &[u8] =
    b"@0 opened\n  send 100f00044d5154540400003c0003646576\n@0 arrived 20020000\n@0 take 0 0 leave\n@0 finish\n  send e000\ntask 0 sent 0 got 0 messages 0\nok\n";

/// {"version":1,"state":{"desired":{"a":1}}}
/// {"version":2,"state":{"desired":{"a":null,"b":"x"}}}
const CHANGED: &[u8] =
    b"change 7b2276657273696f6e223a312c227374617465223a7b2264657369726564223a7b2261223a317d7d7d\n\
     publish\n\
     change 7b2276657273696f6e223a322c227374617465223a7b2264657369726564223a7b2261223a6e756c6c2c\
     2262223a2278227d7d7d\n\
     publish\n";

#[test]
fn each_command_has_its_text_and_status(rt: HostRuntime) -> Result<(), Fail> {
    let alloc = rt.alloc();
    let words = ["replay", "--client", "dev"];
    for (words, text, want, status) in [
        (words.as_slice(), PUBLISHED, PRINTED, 0),
        (
            words.as_slice(),
            b"tasks 1\ntape\nopen\nhear 20020000\n".as_slice(),
            LEFT,
            0,
        ),
        (
            words.as_slice(),
            b"tasks 1\ntape\nopen\nhear 2\n".as_slice(),
            b"fault script 4\n".as_slice(),
            2,
        ),
        (
            words.as_slice(),
            b"".as_slice(),
            b"fault script 1\n".as_slice(),
            2,
        ),
        ([].as_slice(), PUBLISHED, b"fault words\n".as_slice(), 1),
        (
            ["replay"].as_slice(),
            PUBLISHED,
            b"fault words\n".as_slice(),
            1,
        ),
        (
            ["--help"].as_slice(),
            PUBLISHED,
            b"fault words\n".as_slice(),
            1,
        ),
        (
            ["replay", "--client", "dev", "--client", "x"].as_slice(),
            PUBLISHED,
            b"fault words\n".as_slice(),
            1,
        ),
        (
            ["replay", "--client", "dev", "--"].as_slice(),
            PUBLISHED,
            b"fault words\n".as_slice(),
            1,
        ),
        (["replay", "--client=dev"].as_slice(), PUBLISHED, PRINTED, 0),
        (
            ["world", "--seed", "1", "--events", "4"].as_slice(),
            PUBLISHED,
            b"seed 1 events 4\ntaken 0 done 0 passed 0 local 0 told 0 breaks 0\nok\n".as_slice(),
            0,
        ),
        (
            ["mirror", "--readers", "2", "--reads", "3"].as_slice(),
            CHANGED,
            b"reader 0 reads 3 last 2\nreader 1 reads 3 last 2\nkey b x\nok\n".as_slice(),
            0,
        ),
        (
            ["mirror", "--readers", "9", "--reads", "3"].as_slice(),
            CHANGED,
            b"fault words\n".as_slice(),
            1,
        ),
        (
            ["mirror", "--readers", "1", "--reads", "0"].as_slice(),
            b"publish\ntasks 1\n".as_slice(),
            b"fault script 2\n".as_slice(),
            2,
        ),
    ] {
        let mut source = MemSource::new(text.to_vec(alloc)?, Vec::new(alloc));
        let mut sink = MemSink::new(alloc, Vec::new(alloc));
        assert_eq!(rt; top(&rt, alloc, words, &mut source, &mut sink), status);
        assert_eq!(rt; sink.bytes(), want);
    }
    Ok(())
}

#[test]
fn a_source_may_not_be_too_long(rt: HostRuntime) -> Result<(), Fail> {
    let alloc = rt.alloc();
    let words = ["replay", "--client", "dev"];
    let mut source = MemSource::new(vec![in alloc; b'#'; 1_048_577]?, Vec::new(alloc));
    let mut sink = MemSink::new(alloc, Vec::new(alloc));
    assert_eq!(rt;
        top(&rt, alloc, words.as_slice(), &mut source, &mut sink),
        2
    );
    assert_eq!(rt; sink.bytes(), b"fault script long\n".as_slice());
    Ok(())
}

#[test]
fn a_fault_of_source_or_sink_is_told(rt: HostRuntime) -> Result<(), Fail> {
    let alloc = rt.alloc();
    let words = ["replay", "--client", "dev"];
    let mut source = MemSource::new(PUBLISHED.to_vec(alloc)?, vec![in alloc; 1]?);
    let mut sink = MemSink::new(alloc, Vec::new(alloc));
    assert_eq!(rt;
        top(&rt, alloc, words.as_slice(), &mut source, &mut sink),
        9
    );
    assert_eq!(rt; sink.bytes(), b"fault source\n".as_slice());
    let mut source = MemSource::new(PUBLISHED.to_vec(alloc)?, Vec::new(alloc));
    let mut sink = MemSink::new(alloc, vec![in alloc; 0]?);
    assert_eq!(rt;
        top(&rt, alloc, words.as_slice(), &mut source, &mut sink),
        8
    );
    assert_eq!(rt; sink.bytes(), b"".as_slice());
    Ok(())
}

#[test]
fn readers_and_writers_of_std_do(rt: HostRuntime) -> Result<(), Fail> {
    let alloc = rt.alloc();
    let words = ["replay", "--client", "dev"];
    let mut source = StdSource::new(alloc, PUBLISHED);
    let mut written = Vec::new(alloc);
    let (status, last) = {
        let mut sink = StdSink::new(alloc, &mut written);
        let status = top(&rt, alloc, words.as_slice(), &mut source, &mut sink);
        (status, sink.line() == b"ok\n".as_slice())
    };
    assert_eq!(rt; status, 0);
    assert!(rt; last);
    assert_eq!(rt; source.heard(), PUBLISHED);
    assert_eq!(rt; written.as_slice(), PRINTED);
    Ok(())
}

#[test]
fn a_writer_that_is_full_has_taken_a_front(rt: HostRuntime) -> Result<(), Fail> {
    let alloc = rt.alloc();
    let words = ["replay", "--client", "dev"];
    let mut source = StdSource::new(alloc, PUBLISHED);
    let mut room = [0; 9];
    let status = {
        let mut sink = StdSink::new(alloc, room.as_mut_slice());
        top(&rt, alloc, words.as_slice(), &mut source, &mut sink)
    };
    assert_eq!(rt; status, 8);
    assert_eq!(rt; room.as_slice(), b"@0 opened".as_slice());
    Ok(())
}
