//! Replays through the whole program: words, a script and a tape give the text and the status.

use super::*;

/// A task subscribes and listens, and a message comes twice at QoS 2.
pub(super) const LISTENED: &[u8] =
    b"tasks 1\n0 subscribe a/# 2 a/b 1\n0 listen 1\ntape\nopen\nhear 20020000\nhear 900400010201\nhear 34090003612f62000768693c090003612f620007686962020007\n";

/// What is printed of it: the message is passed once.
pub(super) const PASSED: &[u8] =
    b"@0 opened\n  send 100f00044d5154540400003c0003646576\n@0 arrived 20020000\n@0 take 0 0 subscribe a/# 2 a/b 1\n  send 820e00010003612f23020003612f6201\n@0 arrived 900400010201\n  done 0 0 granted 0201\n@0 arrived 34090003612f6200076869\n  pass 0 2 a/b 6869\n  send 50020007\n@0 arrived 3c090003612f6200076869\n  send 50020007\n@0 arrived 62020007\n  send 70020007\n@0 take 0 1 leave\n@0 finish\n  send e000\ntask 0 sent 1 got 1 messages 1\nok\n";

/// Whether these words with this source write this text and have this status.
pub(super) fn answers<R: Threads + Wait + Sync + AllocGlobal>(
    rt: &R,
    words: &[&str],
    text: &[u8],
    want: &[u8],
    status: u8,
) -> Result<bool, Fail> {
    let alloc = rt.alloc();
    let mut source = MemSource::new(text.to_vec(alloc)?, Vec::new(alloc));
    let mut sink = MemSink::new(alloc, Vec::new(alloc));
    let answer = top(rt, alloc, words, &mut source, &mut sink);
    Ok(answer == status && sink.bytes() == want)
}

#[test]
fn answers_decide(rt: HostRuntime) -> Result<(), Fail> {
    for (words, text, want, status) in [
        (
            ["replay", "--client", "dev"].as_slice(),
            b"tasks 1\n0 publish 0 a/b 6869\ntape\nopen\nhear 20020005\n".as_slice(),
            b"@0 opened\n  send 100f00044d5154540400003c0003646576\n@0 arrived 20020005\n  closed 0\n@0 take 0 0 publish 0 a/b 6869\n  done 0 0 notconnected\n@0 take 0 1 leave\ntask 0 sent 1 got 1 messages 0\nfault refused 5\n".as_slice(),
            4,
        ),
        (
            ["replay", "--client", "dev"].as_slice(),
            b"tasks 1\ntape\nopen\nhear 20020100\n".as_slice(),
            b"@0 opened\n  send 100f00044d5154540400003c0003646576\n@0 arrived 20020100\n  closed 0\n@0 take 0 0 leave\ntask 0 sent 0 got 0 messages 0\nfault held\n".as_slice(),
            6,
        ),
        (
            ["replay", "--client", "dev", "--reopen", "0"].as_slice(),
            b"tasks 1\ntape\nopen\nhear 2002\n".as_slice(),
            b"@0 opened\n  send 100f00044d5154540400003c0003646576\n@0 broke end\n@0 gaveup\n  closed 0\n@0 take 0 0 leave\ntask 0 sent 0 got 0 messages 0\nfault link\n".as_slice(),
            3,
        ),
        (
            ["replay", "--client", "dev", "--reopen", "0"].as_slice(),
            b"tasks 1\ntape\nopen\nhear c08000\n".as_slice(),
            b"@0 opened\n  send 100f00044d5154540400003c0003646576\n@0 broke bad 0\n  closed 0\n@0 take 0 0 leave\ntask 0 sent 0 got 0 messages 0\nfault bytes\n".as_slice(),
            5,
        ),
    ] {
        assert!(rt; answers(&rt, words, text, want, status)?);
    }
    Ok(())
}

#[test]
fn commands_outlive_a_connection(rt: HostRuntime) -> Result<(), Fail> {
    for (words, text, want, status) in [
        (
            ["replay", "--client", "dev"].as_slice(),
            b"tasks 1\n0 publish 1 a/b 6869\ntape\nopen\nhear 20020000\nend\nopen\nhear 20020100\nhear 40020001\n".as_slice(),
            b"@0 opened\n  send 100f00044d5154540400003c0003646576\n@0 arrived 20020000\n@0 take 0 0 publish 1 a/b 6869\n  send 32090003612f6200016869\n@0 broke end\n@0 opened\n  send 100f00044d5154540400003c0003646576\n@0 arrived 20020100\n  send 3a090003612f6200016869\n@0 arrived 40020001\n  done 0 0 done\n@0 take 0 1 leave\n@0 finish\n  send e000\ntask 0 sent 1 got 1 messages 0\nok\n".as_slice(),
            0,
        ),
        (
            ["replay", "--client", "dev"].as_slice(),
            b"tasks 1\n0 publish 1 a/b 6869\ntape\nopen\nhear 20020000\nend\nopen\nhear 20020000\nhear 40020001\n".as_slice(),
            b"@0 opened\n  send 100f00044d5154540400003c0003646576\n@0 arrived 20020000\n@0 take 0 0 publish 1 a/b 6869\n  send 32090003612f6200016869\n@0 broke end\n@0 opened\n  send 100f00044d5154540400003c0003646576\n@0 arrived 20020000\n  done 0 0 sessionlost\n@0 take 0 1 leave\n@0 finish\n  send e000\ntask 0 sent 1 got 1 messages 0\nok\n".as_slice(),
            0,
        ),
        (
            ["replay", "--client", "dev"].as_slice(),
            b"tasks 1\n0 publish 2 a/b 6869\ntape\nopen\nhear 20020000\nhear 50020001\nend\nopen\nhear 20020100\nhear 70020001\n".as_slice(),
            b"@0 opened\n  send 100f00044d5154540400003c0003646576\n@0 arrived 20020000\n@0 take 0 0 publish 2 a/b 6869\n  send 34090003612f6200016869\n@0 arrived 50020001\n  send 62020001\n@0 broke end\n@0 opened\n  send 100f00044d5154540400003c0003646576\n@0 arrived 20020100\n  send 62020001\n@0 arrived 70020001\n  done 0 0 done\n@0 take 0 1 leave\n@0 finish\n  send e000\ntask 0 sent 1 got 1 messages 0\nok\n".as_slice(),
            0,
        ),
        (
            ["replay", "--client", "dev"].as_slice(),
            b"tasks 1\ntape\nopen\nroom 4\nopen\nhear 20020000\n".as_slice(),
            b"@0 opened\n  send 100f00044d5154540400003c0003646576\n@0 broke fault\n@0 opened\n  send 100f00044d5154540400003c0003646576\n@0 arrived 20020000\n@0 take 0 0 leave\n@0 finish\n  send e000\ntask 0 sent 0 got 0 messages 0\nok\n".as_slice(),
            0,
        ),
    ] {
        assert!(rt; answers(&rt, words, text, want, status)?);
    }
    Ok(())
}

#[test]
fn messages_are_passed_once(rt: HostRuntime) -> Result<(), Fail> {
    for (words, text, want, status) in [
        (
            ["replay", "--client", "dev"].as_slice(),
            LISTENED,
            PASSED,
            0,
        ),
        (
            ["replay", "--client", "dev", "--size=tiny", "--reopen=0"].as_slice(),
            b"tasks 1\n0 listen 1\ntape\nopen\nhear 20020000\nhear 340500016100013405000161000234050001610003\n".as_slice(),
            b"@0 opened\n  send 100f00044d5154540400003c0003646576\n@0 arrived 20020000\n@0 arrived 34050001610001\n  send 50020001\n@0 arrived 34050001610002\n  send 50020002\n@0 arrived 34050001610003\n@0 broke infull\n@0 gaveup\n  closed 0\n@0 take 0 0 leave\ntask 0 sent 0 got 0 messages 0\nfault link\n".as_slice(),
            3,
        ),
    ] {
        assert!(rt; answers(&rt, words, text, want, status)?);
    }
    Ok(())
}

#[test]
fn requests_have_their_outcomes(rt: HostRuntime) -> Result<(), Fail> {
    for (words, text, want, status) in [
        (
            ["replay", "--client", "dev"].as_slice(),
            b"tasks 1\n0 publish 1 a/b 6869\n0 terminate\n0 ping\ntape\nopen\nhear 20020000\n".as_slice(),
            b"@0 opened\n  send 100f00044d5154540400003c0003646576\n@0 arrived 20020000\n@0 take 0 0 publish 1 a/b 6869\n  send 32090003612f6200016869\n@0 take 0 1 terminate\n  done 0 0 cancelled\n  send e000\n  done 0 1 done\n  closed 0\n@0 take 0 2 ping\n  done 0 2 cancelled\n@0 take 0 3 leave\ntask 0 sent 3 got 3 messages 0\nok\n".as_slice(),
            0,
        ),
        (
            ["replay", "--client", "dev", "--size", "tiny"].as_slice(),
            b"tasks 1\n0 publish 1 a/b 6869\n0 publish 1 a/b 6869\n0 publish 1 a/b 6869\ntape\nopen\nhear 20020000\nhear 4002000140020002\n".as_slice(),
            b"@0 opened\n  send 100f00044d5154540400003c0003646576\n@0 arrived 20020000\n@0 take 0 0 publish 1 a/b 6869\n  send 32090003612f6200016869\n@0 take 0 1 publish 1 a/b 6869\n  send 32090003612f6200026869\n@0 take 0 2 publish 1 a/b 6869\n  done 0 2 noroom\n@0 arrived 40020001\n  done 0 0 done\n@0 arrived 40020002\n  done 0 1 done\n@0 take 0 3 leave\n@0 finish\n  send e000\ntask 0 sent 3 got 3 messages 0\nok\n".as_slice(),
            0,
        ),
        (
            [
                "replay",
                "--client",
                "dev",
                "--keep-alive",
                "1",
                "--tick",
                "1000",
                "--reopen",
                "0",
            ]
            .as_slice(),
            b"tasks 1\n0 listen 1\ntape\nopen\nhear 20020000\nquiet 20\n".as_slice(),
            b"@0 opened\n  send 100f00044d515454040000010003646576\n@1000 arrived 20020000\n@2000 tick\n  send c000\n@7000 broke keepalive\n@8000 gaveup\n  closed 0\n@9000 take 0 0 leave\ntask 0 sent 0 got 0 messages 0\nfault link\n".as_slice(),
            3,
        ),
    ] {
        assert!(rt; answers(&rt, words, text, want, status)?);
    }
    Ok(())
}

#[test]
fn a_thing_has_topics(rt: HostRuntime) -> Result<(), Fail> {
    for (words, text, want, status) in [(
        ["replay", "--client", "dev", "--thing", "T"].as_slice(),
        b"tasks 1\n0 shadow get - -\ntape\nopen\nhear 20020000\nhear 40020001\n".as_slice(),
        b"@0 opened\n  send 100f00044d5154540400003c0003646576\n@0 arrived 20020000\n@0 take 0 0 publish 1 $aws/things/T/shadow/get -\n  send 321c0018246177732f7468696e67732f542f736861646f772f6765740001\n@0 arrived 40020001\n  done 0 0 done\n@0 take 0 1 leave\n@0 finish\n  send e000\ntask 0 sent 1 got 1 messages 0\nkinds 0 shadow 0 jobs 0\nok\n".as_slice(),
        0,
    )] {
        assert!(rt; answers(&rt, words, text, want, status)?);
    }
    Ok(())
}

#[test]
fn bad_lines_are_refused(rt: HostRuntime) -> Result<(), Fail> {
    for (words, text, want, status) in [
        (
            ["replay", "--client", "dev"].as_slice(),
            b"tasks 1\n0 publish 3 a 00\n".as_slice(),
            b"fault script 2\n".as_slice(),
            2,
        ),
        (
            ["replay", "--client", "dev"].as_slice(),
            b"# two tasks\n\ntasks 2\ntape\n".as_slice(),
            b"fault script 3\n".as_slice(),
            2,
        ),
        (
            ["replay", "--client", "dev"].as_slice(),
            b"tasks 1\n0 ping\n0 shadow get - -\ntape\n".as_slice(),
            b"fault script 3\n".as_slice(),
            2,
        ),
        (
            ["replay", "--client", "dev", "--thing", "T"].as_slice(),
            b"tasks 1\n0 jobs describe j/1 -\ntape\n".as_slice(),
            b"fault script 2\n".as_slice(),
            2,
        ),
        (
            ["replay", "--client", "dev"].as_slice(),
            b"tasks 1\n0 ping\ntape\nopen\nhear 2002000\n".as_slice(),
            b"fault script 5\n".as_slice(),
            2,
        ),
    ] {
        assert!(rt; answers(&rt, words, text, want, status)?);
    }
    Ok(())
}
