//! Words of a journal that no test beside this one prints.

use super::replays::answers;
use super::*;

#[test]
fn each_word_of_a_journal_is_printed(rt: HostRuntime) -> Result<(), Fail> {
    for (words, text, want, status) in [
        (
            ["replay", "--client", "dev", "--size", "tiny"].as_slice(),
            b"tasks 1\n0 subscribe a 0 b 0 c 0\n0 ping\ntape\nopen\nhear 20020000\n".as_slice(),
            b"@0 opened\n  send 100f00044d5154540400003c0003646576\n@0 arrived 20020000\n@0 take 0 0 subscribe a 0 b 0 c 0\n  done 0 0 noroute\n@0 take 0 1 ping\n  send c000\n  done 0 1 done\n@0 take 0 2 leave\n@0 finish\n  send e000\ntask 0 sent 2 got 2 messages 0\nok\n".as_slice(),
            0,
        ),
        (
            ["replay", "--client", "dev"].as_slice(),
            b"tasks 1\n0 subscribe a%20b/+ 1\n0 listen 1\n0 unsubscribe a%20b/+ c\ntape\nopen\nhear 20020000\nhear 9003000101\nhear 320900056120622f250009\nhear b0020002\n".as_slice(),
            b"@0 opened\n  send 100f00044d5154540400003c0003646576\n@0 arrived 20020000\n@0 take 0 0 subscribe a%20b/+ 1\n  send 820a000100056120622f2b01\n@0 arrived 9003000101\n  done 0 0 granted 01\n@0 arrived 320900056120622f250009\n  pass 0 1 a%20b/%25 -\n  send 40020009\n@0 take 0 1 unsubscribe a%20b/+ c\n  send a20c000200056120622f2b000163\n@0 arrived b0020002\n  done 0 1 done\n@0 take 0 2 leave\n@0 finish\n  send e000\ntask 0 sent 2 got 2 messages 1\nok\n".as_slice(),
            0,
        ),
        (
            ["replay", "--client", "dev"].as_slice(),
            b"tasks 1\n0 subscribe a 1 b 0\n0 listen 1\ntape\nopen\nhear 20020000\nhear 900400018000\nhear f0\n".as_slice(),
            b"@0 opened\n  send 100f00044d5154540400003c0003646576\n@0 arrived 20020000\n@0 take 0 0 subscribe a 1 b 0\n  send 820a00010001610100016200\n@0 arrived 900400018000\n  done 0 0 granted 8000\n@0 broke bad 10\n  closed 0\n@0 take 0 1 leave\ntask 0 sent 1 got 1 messages 0\nfault bytes\n".as_slice(),
            5,
        ),
        (
            ["replay", "--client", "dev"].as_slice(),
            b"tasks 1\n0 publish 1 a/b 6869\ntape\nopen\nhear 20020000\nhear 30fdff0f\n".as_slice(),
            b"@0 opened\n  send 100f00044d5154540400003c0003646576\n@0 arrived 20020000\n@0 take 0 0 publish 1 a/b 6869\n  send 32090003612f6200016869\n@0 broke long 262145\n  done 0 0 cancelled\n  closed 0\n@0 take 0 1 leave\ntask 0 sent 1 got 1 messages 0\nfault bytes\n".as_slice(),
            5,
        ),
    ] {
        assert!(rt; answers(&rt, words, text, want, status)?);
    }
    Ok(())
}
