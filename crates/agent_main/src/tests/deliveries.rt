//! Deliveries, subscriptions and ends of a run, through the whole program.

use super::replays::answers;
use super::*;

#[test]
fn deliveries_go_on_where_they_stopped(rt: HostRuntime) -> Result<(), Fail> {
    for (words, text, want, status) in [
        (
            ["replay", "--client", "dev"].as_slice(),
            b"tasks 1\n0 publish 2 a 78\n0 publish 2 b 79\ntape\nopen\nhear 20020000\nhear 50020002\nend\nopen\nhear 20020100\nhear 70020002\nhear 50020001\nhear 70020001\n".as_slice(),
            b"@0 opened\n  send 100f00044d5154540400003c0003646576\n@0 arrived 20020000\n@0 take 0 0 publish 2 a 78\n  send 3406000161000178\n@0 take 0 1 publish 2 b 79\n  send 3406000162000279\n@0 arrived 50020002\n  send 62020002\n@0 broke end\n@0 opened\n  send 100f00044d5154540400003c0003646576\n@0 arrived 20020100\n  send 62020002\n  send 3c06000161000178\n@0 arrived 70020002\n  done 0 1 done\n@0 arrived 50020001\n  send 62020001\n@0 arrived 70020001\n  done 0 0 done\n@0 take 0 2 leave\n@0 finish\n  send e000\ntask 0 sent 2 got 2 messages 0\nok\n".as_slice(),
            0,
        ),
        (
            ["replay", "--client", "dev"].as_slice(),
            b"tasks 1\n0 publish 2 a/b 6869\ntape\nopen\nhear 20020000\nhear 70020001\nhear 50020001\nhear 70020001\n".as_slice(),
            b"@0 opened\n  send 100f00044d5154540400003c0003646576\n@0 arrived 20020000\n@0 take 0 0 publish 2 a/b 6869\n  send 34090003612f6200016869\n@0 arrived 70020001\n@0 arrived 50020001\n  send 62020001\n@0 arrived 70020001\n  done 0 0 done\n@0 take 0 1 leave\n@0 finish\n  send e000\ntask 0 sent 1 got 1 messages 0\nok\n".as_slice(),
            0,
        ),
    ] {
        assert!(rt; answers(&rt, words, text, want, status)?);
    }
    Ok(())
}

#[test]
fn subscriptions_outlive_a_session(rt: HostRuntime) -> Result<(), Fail> {
    for (words, text, want, status) in [
        (
            ["replay", "--client", "dev"].as_slice(),
            b"tasks 1\n0 subscribe a/# 1\n0 listen 1\ntape\nopen\nhear 20020000\nhear 9003000101\nhear 30070003612f626869\n".as_slice(),
            b"@0 opened\n  send 100f00044d5154540400003c0003646576\n@0 arrived 20020000\n@0 take 0 0 subscribe a/# 1\n  send 820800010003612f2301\n@0 arrived 9003000101\n  done 0 0 granted 01\n@0 arrived 30070003612f626869\n  pass 0 0 a/b 6869\n@0 take 0 1 leave\n@0 finish\n  send e000\ntask 0 sent 1 got 1 messages 1\nok\n".as_slice(),
            0,
        ),
        (
            ["replay", "--client", "dev"].as_slice(),
            b"tasks 1\n0 subscribe a/# 1\n0 wait\n0 unsubscribe a/#\ntape\nopen\nhear 20020000\nhear 9003000101\nhear b0020002\n".as_slice(),
            b"@0 opened\n  send 100f00044d5154540400003c0003646576\n@0 arrived 20020000\n@0 take 0 0 subscribe a/# 1\n  send 820800010003612f2301\n@0 arrived 9003000101\n  done 0 0 granted 01\n@0 take 0 1 unsubscribe a/#\n  send a20700020003612f23\n@0 arrived b0020002\n  done 0 1 done\n@0 take 0 2 leave\n@0 finish\n  send e000\ntask 0 sent 2 got 2 messages 0\nok\n".as_slice(),
            0,
        ),
        (
            ["replay", "--client", "dev", "--reopen", "0"].as_slice(),
            b"tasks 1\n0 subscribe a/# 1\ntape\nopen\nhear 20020000\n".as_slice(),
            b"@0 opened\n  send 100f00044d5154540400003c0003646576\n@0 arrived 20020000\n@0 take 0 0 subscribe a/# 1\n  send 820800010003612f2301\n@0 broke end\n  done 0 0 linklost\n@0 gaveup\n  closed 0\n@0 take 0 1 leave\ntask 0 sent 1 got 1 messages 0\nfault link\n".as_slice(),
            3,
        ),
        (
            ["replay", "--client", "dev"].as_slice(),
            b"tasks 1\n0 subscribe a/# 2 a/b 1\n0 listen 1\ntape\nopen\nhear 20020000\nhear 9003000102\n".as_slice(),
            b"@0 opened\n  send 100f00044d5154540400003c0003646576\n@0 arrived 20020000\n@0 take 0 0 subscribe a/# 2 a/b 1\n  send 820e00010003612f23020003612f6201\n@0 arrived 9003000102\n  done 0 0 cancelled\n  closed 0\n@0 take 0 1 leave\ntask 0 sent 1 got 1 messages 0\nfault bytes\n".as_slice(),
            5,
        ),
        (
            ["replay", "--client", "dev"].as_slice(),
            b"tasks 1\n0 subscribe a/# 1\n0 listen 1\ntape\nopen\nhear 20020000\nhear 9003000101\nend\nopen\nhear 20020000\nhear 9003000201\nhear 30070003612f626869\n".as_slice(),
            b"@0 opened\n  send 100f00044d5154540400003c0003646576\n@0 arrived 20020000\n@0 take 0 0 subscribe a/# 1\n  send 820800010003612f2301\n@0 arrived 9003000101\n  done 0 0 granted 01\n@0 broke end\n@0 opened\n  send 100f00044d5154540400003c0003646576\n@0 arrived 20020000\n  send 820800020003612f2301\n@0 arrived 9003000201\n@0 arrived 30070003612f626869\n  pass 0 0 a/b 6869\n@0 take 0 1 leave\n@0 finish\n  send e000\ntask 0 sent 1 got 1 messages 1\nok\n".as_slice(),
            0,
        ),
        (
            ["replay", "--client", "dev", "--reopen", "1"].as_slice(),
            b"tasks 1\n0 subscribe a/# 1\n0 listen 1\ntape\nopen\nhear 20020000\nhear 9003000101\nend\nopen\nhear 20020000\nhear 9003000280\nhear 30070003612f626869\n".as_slice(),
            b"@0 opened\n  send 100f00044d5154540400003c0003646576\n@0 arrived 20020000\n@0 take 0 0 subscribe a/# 1\n  send 820800010003612f2301\n@0 arrived 9003000101\n  done 0 0 granted 01\n@0 broke end\n@0 opened\n  send 100f00044d5154540400003c0003646576\n@0 arrived 20020000\n  send 820800020003612f2301\n@0 arrived 9003000280\n@0 arrived 30070003612f626869\n@0 broke end\n@0 broke fault\n@0 gaveup\n  closed 0\n@0 take 0 1 leave\ntask 0 sent 1 got 1 messages 0\nfault link\n".as_slice(),
            3,
        ),
        (
            ["replay", "--client", "dev"].as_slice(),
            b"tasks 1\n0 subscribe a/# 1\n0 listen 1\ntape\nopen\nhear 20020000\nhear 9003000101\nend\nopen\nhear 20020000\nend\nopen\nhear 20020100\nhear 9003000301\nhear 30070003612f626869\n".as_slice(),
            b"@0 opened\n  send 100f00044d5154540400003c0003646576\n@0 arrived 20020000\n@0 take 0 0 subscribe a/# 1\n  send 820800010003612f2301\n@0 arrived 9003000101\n  done 0 0 granted 01\n@0 broke end\n@0 opened\n  send 100f00044d5154540400003c0003646576\n@0 arrived 20020000\n  send 820800020003612f2301\n@0 broke end\n@0 opened\n  send 100f00044d5154540400003c0003646576\n@0 arrived 20020100\n  send 820800030003612f2301\n@0 arrived 9003000301\n@0 arrived 30070003612f626869\n  pass 0 0 a/b 6869\n@0 take 0 1 leave\n@0 finish\n  send e000\ntask 0 sent 1 got 1 messages 1\nok\n".as_slice(),
            0,
        ),
        (
            ["replay", "--client", "dev", "--thing", "T"].as_slice(),
            b"tasks 1\n0 subscribe $aws/things/T/# 0\n0 listen 1\ntape\nopen\nhear 20020000\nhear 9003000100\nhear 30230021246177732f7468696e67732f542f736861646f772f6765742f6163636570746564\n".as_slice(),
            b"@0 opened\n  send 100f00044d5154540400003c0003646576\n@0 arrived 20020000\n@0 take 0 0 subscribe $aws/things/T/# 0\n  send 82140001000f246177732f7468696e67732f542f2300\n@0 arrived 9003000100\n  done 0 0 granted 00\n@0 arrived 30230021246177732f7468696e67732f542f736861646f772f6765742f6163636570746564\n  pass 0 0 $aws/things/T/shadow/get/accepted -\n@0 take 0 1 leave\n@0 finish\n  send e000\ntask 0 sent 1 got 1 messages 1\nkinds 0 shadow 1 jobs 0\nok\n".as_slice(),
            0,
        ),
    ] {
        assert!(rt; answers(&rt, words, text, want, status)?);
    }
    Ok(())
}

#[test]
fn an_agent_ends_in_time(rt: HostRuntime) -> Result<(), Fail> {
    for (words, text, want, status) in [
        (
            ["replay", "--client", "dev"].as_slice(),
            b"tasks 1\n0 publish 0 a/b 6869\ntape\nopen\n".as_slice(),
            b"@0 opened\n  send 100f00044d5154540400003c0003646576\n@0 broke end\n@0 broke fault\n@0 broke fault\n@0 broke fault\n@0 broke fault\n@0 broke fault\n@0 gaveup\n  closed 0\n@0 take 0 0 publish 0 a/b 6869\n  done 0 0 notconnected\n@0 take 0 1 leave\ntask 0 sent 1 got 1 messages 0\nfault link\n".as_slice(),
            3,
        ),
        (
            ["replay", "--client", "dev"].as_slice(),
            b"tasks 1\ntape\n".as_slice(),
            b"@0 broke fault\n@0 broke fault\n@0 broke fault\n@0 broke fault\n@0 broke fault\n@0 broke fault\n@0 gaveup\n  closed 0\n@0 take 0 0 leave\ntask 0 sent 0 got 0 messages 0\nfault link\n".as_slice(),
            3,
        ),
        (
            ["replay", "--client", "dev"].as_slice(),
            b"tasks 1\n0 disconnect\n0 ping\ntape\nopen\nhear 20020000\n".as_slice(),
            b"@0 opened\n  send 100f00044d5154540400003c0003646576\n@0 arrived 20020000\n@0 take 0 0 disconnect\n  send e000\n  done 0 0 done\n  closed 0\n@0 take 0 1 ping\n  done 0 1 notconnected\n@0 take 0 2 leave\ntask 0 sent 2 got 2 messages 0\nok\n".as_slice(),
            0,
        ),
        (
            ["replay", "--client", "dev", "--wipe"].as_slice(),
            b"tasks 1\ntape\nopen\nhear 20020000\nopen\nhear 20020000\n".as_slice(),
            b"@0 opened\n  send 100f00044d5154540402003c0003646576\n@0 arrived 20020000\n  send e000\n@0 opened\n  send 100f00044d5154540400003c0003646576\n@0 arrived 20020000\n@0 take 0 0 leave\n@0 finish\n  send e000\ntask 0 sent 0 got 0 messages 0\nok\n".as_slice(),
            0,
        ),
        (
            ["replay", "--client", "dev", "--reopen", "0"].as_slice(),
            b"tasks 1\ntape\nopen\nquiet 20000\n".as_slice(),
            b"@0 opened\n  send 100f00044d5154540400003c0003646576\n@0 broke idle\n@0 gaveup\n  closed 0\n@0 take 0 0 leave\ntask 0 sent 0 got 0 messages 0\nfault link\n".as_slice(),
            3,
        ),
    ] {
        assert!(rt; answers(&rt, words, text, want, status)?);
    }
    Ok(())
}
