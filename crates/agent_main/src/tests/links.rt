//! Replays over links that break and brokers that say what they shouldn't, through the whole program.

use super::replays::{LISTENED, PASSED, answers};
use super::*;

#[test]
fn a_broker_may_say_what_it_should_not(rt: HostRuntime) -> Result<(), Fail> {
    for (words, text, want, status) in [
        (
            ["replay", "--client", "dev"].as_slice(),
            b"tasks 1\n0 publish 1 a/b 6869\ntape\nopen\nhear 20020000\nhear 40020007\nhear 70020001\nhear 9003000100\nhear 40020001\n".as_slice(),
            b"@0 opened\n  send 100f00044d5154540400003c0003646576\n@0 arrived 20020000\n@0 take 0 0 publish 1 a/b 6869\n  send 32090003612f6200016869\n@0 arrived 40020007\n@0 arrived 70020001\n@0 arrived 9003000100\n@0 arrived 40020001\n  done 0 0 done\n@0 take 0 1 leave\n@0 finish\n  send e000\ntask 0 sent 1 got 1 messages 0\nok\n".as_slice(),
            0,
        ),
        (
            ["replay", "--client", "dev"].as_slice(),
            b"tasks 1\n0 listen 1\ntape\nopen\nhear 2002000020020000\n".as_slice(),
            b"@0 opened\n  send 100f00044d5154540400003c0003646576\n@0 arrived 20020000\n@0 arrived 20020000\n  closed 0\n@0 take 0 0 leave\ntask 0 sent 0 got 0 messages 0\nfault bytes\n".as_slice(),
            5,
        ),
        (
            ["replay", "--client", "dev", "--reopen", "0"].as_slice(),
            b"tasks 1\n0 listen 1\ntape\nopen\nhear 20020000\nhear 30\nhear 06\nhear 00\nhear 01\nhear 61\nhear 00\nhear 01\nhear 78\n".as_slice(),
            b"@0 opened\n  send 100f00044d5154540400003c0003646576\n@0 arrived 20020000\n@0 arrived 3006000161000178\n@0 broke end\n@0 gaveup\n  closed 0\n@0 take 0 0 leave\ntask 0 sent 0 got 0 messages 0\nfault link\n".as_slice(),
            3,
        ),
        (
            ["replay", "--client", "dev", "--reopen", "0"].as_slice(),
            b"tasks 1\n0 listen 1\ntape\nopen\nhear 20020000\nhear 3007\n".as_slice(),
            b"@0 opened\n  send 100f00044d5154540400003c0003646576\n@0 arrived 20020000\n@0 broke end\n@0 gaveup\n  closed 0\n@0 take 0 0 leave\ntask 0 sent 0 got 0 messages 0\nfault link\n".as_slice(),
            3,
        ),
    ] {
        assert!(rt; answers(&rt, words, text, want, status)?);
    }
    Ok(())
}

/// The connection broke before it had taken CONNECT.
const BEFORE_CONNECT: &[u8] =
    b"@0 opened\n  send 100f00044d5154540400003c0003646576\n@0 broke fault\n@0 opened\n  send 100f00044d5154540400003c0003646576\n@0 arrived 20020000\n@0 take 0 0 publish 0 a/b 6869\n  send 30070003612f626869\n  done 0 0 done\n@0 take 0 1 leave\n@0 finish\n  send e000\ntask 0 sent 1 got 1 messages 0\nok\n";

/// It broke at the PUBLISH.
const AT_PUBLISH: &[u8] =
    b"@0 opened\n  send 100f00044d5154540400003c0003646576\n@0 arrived 20020000\n@0 take 0 0 publish 0 a/b 6869\n  send 30070003612f626869\n  done 0 0 done\n@0 broke fault\n@0 opened\n  send 100f00044d5154540400003c0003646576\n@0 arrived 20020000\n@0 take 0 1 leave\n@0 finish\n  send e000\ntask 0 sent 1 got 1 messages 0\nok\n";

/// It broke at the DISCONNECT.
const AT_DISCONNECT: &[u8] =
    b"@0 opened\n  send 100f00044d5154540400003c0003646576\n@0 arrived 20020000\n@0 take 0 0 publish 0 a/b 6869\n  send 30070003612f626869\n  done 0 0 done\n@0 take 0 1 leave\n@0 finish\n  send e000\n@0 broke fault\ntask 0 sent 1 got 1 messages 0\nok\n";

/// A connection takes the 28 bytes of a run in which CONNECT has 17, PUBLISH 9 and DISCONNECT 2.
#[test]
fn a_connection_may_break_at_each_byte(rt: HostRuntime) -> Result<(), Fail> {
    let alloc = rt.alloc();
    for room in 0..29 {
        let text = format!(in alloc;
            "tasks 1\n0 publish 0 a/b 6869\ntape\nopen\nroom {room}\nhear 20020000\nopen\nhear 20020000\n"
        )?;
        let want = match room {
            0..17 => BEFORE_CONNECT,
            17..26 => AT_PUBLISH,
            26 | 27 => AT_DISCONNECT,
            _ => PRINTED,
        };
        assert!(rt;
            answers(
                &rt,
                ["replay", "--client", "dev"].as_slice(),
                text.as_bytes(),
                want,
                0
            )?,
            "at {room}"
        );
    }
    Ok(())
}

/// The status where call k of the source fails, and what is written.
fn read_failing<R: Threads + Wait + Sync + AllocGlobal>(
    rt: &R,
    k: u64,
) -> Result<(u8, bool), Fail> {
    let alloc = rt.alloc();
    let mut source = MemSource::new(PUBLISHED.to_vec(alloc)?, vec![in alloc; k]?);
    let mut sink = MemSink::new(alloc, Vec::new(alloc));
    let words = ["replay", "--client", "dev"];
    let status = top(rt, alloc, words.as_slice(), &mut source, &mut sink);
    Ok((status, sink.bytes() == b"fault source\n".as_slice()))
}

/// The status where call k of the sink fails, and whether a front of the text was written.
fn write_failing<R: Threads + Wait + Sync + AllocGlobal>(
    rt: &R,
    k: u64,
) -> Result<(u8, bool), Fail> {
    let alloc = rt.alloc();
    let mut source = MemSource::new(LISTENED.to_vec(alloc)?, Vec::new(alloc));
    let mut sink = MemSink::new(alloc, vec![in alloc; k]?);
    let words = ["replay", "--client", "dev"];
    let status = top(rt, alloc, words.as_slice(), &mut source, &mut sink);
    Ok((status, PASSED.starts_with(sink.bytes())))
}

#[test]
fn each_call_of_source_and_sink_may_fail(rt: HostRuntime) -> Result<(), Fail> {
    assert_eq!(rt; read_failing(&rt, 0)?, (9, true));
    assert_eq!(rt; read_failing(&rt, 1)?, (9, true));
    assert_eq!(rt; read_failing(&rt, 2)?, (0, false));
    assert_eq!(rt; write_failing(&rt, 0)?, (8, true));
    assert_eq!(rt; write_failing(&rt, 1)?, (0, true));
    Ok(())
}

/// A message that nobody subscribed to comes a thousand times, while a publish is open.
#[test]
fn messages_without_a_route_have_no_effects(rt: HostRuntime) -> Result<(), Fail> {
    let alloc = rt.alloc();
    let messages = "30070003612f626869".repeat(alloc, 250)?;
    let line = format!(in alloc; "hear {messages}\n")?;
    let heard = line.repeat(alloc, 4)?;
    let text = format!(in alloc;
        "tasks 1\n0 publish 1 a/b 6869\ntape\nopen\nhear 20020000\n{heard}hear 40020001\n"
    )?;
    let arrived = "@0 arrived 30070003612f626869\n".repeat(alloc, 1000)?;
    let want = format!(in alloc;
        "@0 opened\n  send 100f00044d5154540400003c0003646576\n@0 arrived 20020000\n@0 take 0 0 publish 1 a/b 6869\n  send 32090003612f6200016869\n{arrived}@0 arrived 40020001\n  done 0 0 done\n@0 take 0 1 leave\n@0 finish\n  send e000\ntask 0 sent 1 got 1 messages 0\nok\n"
    )?;
    let words = ["replay", "--client", "dev"];
    assert!(rt; answers(&rt, words.as_slice(), text.as_bytes(), want.as_bytes(), 0)?);
    Ok(())
}

/// Each receive of a task that subscribes and listens fails in turn, and the tape ends with it.
#[test]
fn each_receive_may_fail(rt: HostRuntime) -> Result<(), Fail> {
    let alloc = rt.alloc();
    for (tape, want) in [
        (
            "fail\n",
            "@0 opened\n  send 100f00044d5154540400003c0003646576\n@0 broke fault\n@0 gaveup\n  closed 0\n@0 take 0 0 subscribe a/# 2 a/b 1\n  done 0 0 notconnected\n@0 take 0 1 leave\ntask 0 sent 1 got 1 messages 0\nfault link\n",
        ),
        (
            "hear 20020000\nfail\n",
            "@0 opened\n  send 100f00044d5154540400003c0003646576\n@0 arrived 20020000\n@0 take 0 0 subscribe a/# 2 a/b 1\n  send 820e00010003612f23020003612f6201\n@0 broke fault\n  done 0 0 linklost\n@0 gaveup\n  closed 0\n@0 take 0 1 leave\ntask 0 sent 1 got 1 messages 0\nfault link\n",
        ),
        (
            "hear 20020000\nhear 900400010201\nfail\n",
            "@0 opened\n  send 100f00044d5154540400003c0003646576\n@0 arrived 20020000\n@0 take 0 0 subscribe a/# 2 a/b 1\n  send 820e00010003612f23020003612f6201\n@0 arrived 900400010201\n  done 0 0 granted 0201\n@0 broke fault\n@0 gaveup\n  closed 0\n@0 take 0 1 leave\ntask 0 sent 1 got 1 messages 0\nfault link\n",
        ),
    ] {
        let text = format!(in alloc;
            "tasks 1\n0 subscribe a/# 2 a/b 1\n0 listen 1\ntape\nopen\n{tape}"
        )?;
        let words = ["replay", "--client", "dev", "--reopen", "0"];
        assert!(rt;
            answers(&rt, words.as_slice(), text.as_bytes(), want.as_bytes(), 3)?,
            "at {tape:?}"
        );
    }
    Ok(())
}
