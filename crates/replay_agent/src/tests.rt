//! Replays, by their journals' texts, which were worked out by hand from the table.

ghost use Rattle.std.specs.List.{AllByRecursion};
ghost use Rattle.agent_journal.specs.Sound.{IsSoundEntry};

use super::*;
use agent_journal::{Entry, Setup};
use agent_link::MemSink;
use agent_script::read_script;
use broker_tape::read_tape;
use journal_text::write_entry;
use list_types::Text;
use std::alloc::Global;
use std::test::Fail;

/// How an agent is set up: its keep alive in seconds, how often it reopens, whether it wipes an old session first, and
/// the milliseconds from a round to the next.
#[derive(Clone, Copy)]
struct Options {
    keep_alive: u16,
    reopen: u32,
    wipe: bool,
    tick: u64,
    tiny: bool,
}

const USUAL: Options = Options {
    keep_alive: 60,
    reopen: 5,
    wipe: false,
    tick: 0,
    tiny: false,
};

/// The journal's text of a script's lines against a tape's, by client `dev`.
#[tactic(auto, using(crate::proofs::ReadLines::read_script_valid), unfolding(agent_journal::specs::Setups::is_client))]
fn journal(alloc: Global, options: Options, lines: &str, tape: &str) -> Result<Vec<u8>, Fail> {
    let mut text = String::from_str(alloc, "tasks 1\n")?;
    text.push_str(lines)?;
    let (script, _) = read_script(alloc, text.as_bytes())?;
    if script.tasks != 1 || script.lines.len() > 1_000 || options.reopen > 1_000 {
        return Err(Fail::new("a test's script is short, and of one task"));
    }
    let setup = Setup {
        to: Text::from_str(alloc, "")?,
        client: Text::from_str(alloc, "dev")?,
        keep_alive: options.keep_alive,
        reopen: options.reopen,
        wipe: options.wipe,
        tasks: 1,
    };
    let tape = read_tape(alloc, tape.as_bytes())?;
    let replayed = if options.tiny {
        replay::<2, 2, 2>(alloc, setup, options.tick, &script, tape)?
    } else {
        replay::<20, 20, 32>(alloc, setup, options.tick, &script, tape)?
    };
    text_of(alloc, replayed.journal.as_slice())
}

fn text_of(alloc: Global, journal: &[Entry]) -> Result<Vec<u8>, Fail>
    requires { AllByRecursion IsSoundEntry journal.now }
{
    let mut sink = MemSink::new(alloc, Vec::new(alloc));
    for entry in journal {
        write_entry(&mut sink, entry)?;
    }
    Ok(Vec::from_slice(alloc, sink.bytes())?)
}

#[test]
fn a_publish_is_done_with_its_sending(rt: HostRuntime) -> Result<(), Fail> {
    let text = journal(
        rt.alloc(),
        USUAL,
        "0 publish 0 a/b 6869\n",
        "open\nhear 20020000\n",
    )?;
    assert_eq!(rt;
        text.as_slice(),
        b"@0 opened\n  send 100f00044d5154540400003c0003646576\n@0 arrived 20020000\n@0 take 0 0 publish 0 a/b 6869\n  send 30070003612f626869\n  done 0 0 done\n@0 take 0 1 leave\n@0 finish\n  send e000\n".as_slice()
    );
    Ok(())
}

#[test]
fn a_refused_connection_ends_all(rt: HostRuntime) -> Result<(), Fail> {
    let text = journal(
        rt.alloc(),
        USUAL,
        "0 publish 0 a/b 6869\n",
        "open\nhear 20020005\n",
    )?;
    assert_eq!(rt;
        text.as_slice(),
        b"@0 opened\n  send 100f00044d5154540400003c0003646576\n@0 arrived 20020005\n  closed 0\n@0 take 0 0 publish 0 a/b 6869\n  done 0 0 notconnected\n@0 take 0 1 leave\n".as_slice()
    );
    Ok(())
}

#[test]
fn an_old_session_is_told(rt: HostRuntime) -> Result<(), Fail> {
    let text = journal(rt.alloc(), USUAL, "", "open\nhear 20020100\n")?;
    assert_eq!(rt;
        text.as_slice(),
        b"@0 opened\n  send 100f00044d5154540400003c0003646576\n@0 arrived 20020100\n  closed 0\n@0 take 0 0 leave\n".as_slice()
    );
    Ok(())
}

#[test]
fn a_publish_is_sent_again(rt: HostRuntime) -> Result<(), Fail> {
    let text = journal(
        rt.alloc(),
        USUAL,
        "0 publish 1 a/b 6869\n",
        "open\nhear 20020000\nend\nopen\nhear 20020100\nhear 40020001\n",
    )?;
    assert_eq!(rt;
        text.as_slice(),
        b"@0 opened\n  send 100f00044d5154540400003c0003646576\n@0 arrived 20020000\n@0 take 0 0 publish 1 a/b 6869\n  send 32090003612f6200016869\n@0 broke end\n@0 opened\n  send 100f00044d5154540400003c0003646576\n@0 arrived 20020100\n  send 3a090003612f6200016869\n@0 arrived 40020001\n  done 0 0 done\n@0 take 0 1 leave\n@0 finish\n  send e000\n".as_slice()
    );
    Ok(())
}

#[test]
fn a_publish_is_lost_with_its_session(rt: HostRuntime) -> Result<(), Fail> {
    let text = journal(
        rt.alloc(),
        USUAL,
        "0 publish 1 a/b 6869\n",
        "open\nhear 20020000\nend\nopen\nhear 20020000\nhear 40020001\n",
    )?;
    assert_eq!(rt;
        text.as_slice(),
        b"@0 opened\n  send 100f00044d5154540400003c0003646576\n@0 arrived 20020000\n@0 take 0 0 publish 1 a/b 6869\n  send 32090003612f6200016869\n@0 broke end\n@0 opened\n  send 100f00044d5154540400003c0003646576\n@0 arrived 20020000\n  done 0 0 sessionlost\n@0 take 0 1 leave\n@0 finish\n  send e000\n".as_slice()
    );
    Ok(())
}

#[test]
fn a_released_publish_is_not_published_again(rt: HostRuntime) -> Result<(), Fail> {
    let text = journal(
        rt.alloc(),
        USUAL,
        "0 publish 2 a/b 6869\n",
        "open\nhear 20020000\nhear 50020001\nend\nopen\nhear 20020100\nhear 70020001\n",
    )?;
    assert_eq!(rt;
        text.as_slice(),
        b"@0 opened\n  send 100f00044d5154540400003c0003646576\n@0 arrived 20020000\n@0 take 0 0 publish 2 a/b 6869\n  send 34090003612f6200016869\n@0 arrived 50020001\n  send 62020001\n@0 broke end\n@0 opened\n  send 100f00044d5154540400003c0003646576\n@0 arrived 20020100\n  send 62020001\n@0 arrived 70020001\n  done 0 0 done\n@0 take 0 1 leave\n@0 finish\n  send e000\n".as_slice()
    );
    Ok(())
}

#[test]
fn released_ones_come_first(rt: HostRuntime) -> Result<(), Fail> {
    let text = journal(
        rt.alloc(),
        USUAL,
        "0 publish 2 a 78\n0 publish 2 b 79\n",
        "open\nhear 20020000\nhear 50020002\nend\nopen\nhear 20020100\nhear 50020001\nhear 70020001\nhear 70020002\n",
    )?;
    assert_eq!(rt;
        text.as_slice(),
        b"@0 opened\n  send 100f00044d5154540400003c0003646576\n@0 arrived 20020000\n@0 take 0 0 publish 2 a 78\n  send 3406000161000178\n@0 take 0 1 publish 2 b 79\n  send 3406000162000279\n@0 arrived 50020002\n  send 62020002\n@0 broke end\n@0 opened\n  send 100f00044d5154540400003c0003646576\n@0 arrived 20020100\n  send 62020002\n  send 3c06000161000178\n@0 arrived 50020001\n  send 62020001\n@0 arrived 70020001\n  done 0 0 done\n@0 arrived 70020002\n  done 0 1 done\n@0 take 0 2 leave\n@0 finish\n  send e000\n".as_slice()
    );
    Ok(())
}

#[test]
fn an_early_pubcomp_says_nothing(rt: HostRuntime) -> Result<(), Fail> {
    let text = journal(
        rt.alloc(),
        USUAL,
        "0 publish 2 a/b 6869\n",
        "open\nhear 20020000\nhear 70020001\nhear 50020001\nhear 70020001\n",
    )?;
    assert_eq!(rt;
        text.as_slice(),
        b"@0 opened\n  send 100f00044d5154540400003c0003646576\n@0 arrived 20020000\n@0 take 0 0 publish 2 a/b 6869\n  send 34090003612f6200016869\n@0 arrived 70020001\n@0 arrived 50020001\n  send 62020001\n@0 arrived 70020001\n  done 0 0 done\n@0 take 0 1 leave\n@0 finish\n  send e000\n".as_slice()
    );
    Ok(())
}

#[test]
fn there_is_room_for_two(rt: HostRuntime) -> Result<(), Fail> {
    let text = journal(
        rt.alloc(),
        Options {
            tiny: true,
            ..USUAL
        },
        "0 publish 1 a/b 6869\n0 publish 1 a/b 6869\n0 publish 1 a/b 6869\n",
        "open\nhear 20020000\nhear 4002000140020002\n",
    )?;
    assert_eq!(rt;
        text.as_slice(),
        b"@0 opened\n  send 100f00044d5154540400003c0003646576\n@0 arrived 20020000\n@0 take 0 0 publish 1 a/b 6869\n  send 32090003612f6200016869\n@0 take 0 1 publish 1 a/b 6869\n  send 32090003612f6200026869\n@0 take 0 2 publish 1 a/b 6869\n  done 0 2 noroom\n@0 arrived 40020001\n  done 0 0 done\n@0 arrived 40020002\n  done 0 1 done\n@0 take 0 3 leave\n@0 finish\n  send e000\n".as_slice()
    );
    Ok(())
}

#[test]
fn a_message_is_passed_once(rt: HostRuntime) -> Result<(), Fail> {
    let text = journal(
        rt.alloc(),
        USUAL,
        "0 subscribe a/# 2 a/b 1\n0 listen 1\n",
        "open\nhear 20020000\nhear 900400010201\nhear 34090003612f62000768693c090003612f620007686962020007\n",
    )?;
    assert_eq!(rt;
        text.as_slice(),
        b"@0 opened\n  send 100f00044d5154540400003c0003646576\n@0 arrived 20020000\n@0 take 0 0 subscribe a/# 2 a/b 1\n  send 820e00010003612f23020003612f6201\n@0 arrived 900400010201\n  done 0 0 granted 0201\n@0 arrived 34090003612f6200076869\n  pass 0 2 a/b 6869\n  send 50020007\n@0 arrived 3c090003612f6200076869\n  send 50020007\n@0 arrived 62020007\n  send 70020007\n@0 take 0 1 leave\n@0 finish\n  send e000\n".as_slice()
    );
    Ok(())
}

#[test]
fn a_suback_with_too_few_codes_is_wrong(rt: HostRuntime) -> Result<(), Fail> {
    let text = journal(
        rt.alloc(),
        USUAL,
        "0 subscribe a/# 2 a/b 1\n0 listen 1\n",
        "open\nhear 20020000\nhear 9003000102\n",
    )?;
    assert_eq!(rt;
        text.as_slice(),
        b"@0 opened\n  send 100f00044d5154540400003c0003646576\n@0 arrived 20020000\n@0 take 0 0 subscribe a/# 2 a/b 1\n  send 820e00010003612f23020003612f6201\n@0 arrived 9003000102\n  done 0 0 cancelled\n  closed 0\n@0 take 0 1 leave\n".as_slice()
    );
    Ok(())
}

#[test]
fn terminate_cancels_what_is_open(rt: HostRuntime) -> Result<(), Fail> {
    let text = journal(
        rt.alloc(),
        USUAL,
        "0 publish 1 a/b 6869\n0 terminate\n0 ping\n",
        "open\nhear 20020000\n",
    )?;
    assert_eq!(rt;
        text.as_slice(),
        b"@0 opened\n  send 100f00044d5154540400003c0003646576\n@0 arrived 20020000\n@0 take 0 0 publish 1 a/b 6869\n  send 32090003612f6200016869\n@0 take 0 1 terminate\n  done 0 0 cancelled\n  send e000\n  done 0 1 done\n  closed 0\n@0 take 0 2 ping\n  done 0 2 cancelled\n@0 take 0 3 leave\n".as_slice()
    );
    Ok(())
}

#[test]
fn a_ping_without_an_answer_breaks(rt: HostRuntime) -> Result<(), Fail> {
    let text = journal(
        rt.alloc(),
        Options {
            keep_alive: 1,
            reopen: 0,
            tick: 1000,
            ..USUAL
        },
        "0 listen 1\n",
        "open\nhear 20020000\nquiet 20\n",
    )?;
    assert_eq!(rt;
        text.as_slice(),
        b"@0 opened\n  send 100f00044d515454040000010003646576\n@1000 arrived 20020000\n@2000 tick\n  send c000\n@7000 broke keepalive\n@8000 gaveup\n  closed 0\n@9000 take 0 0 leave\n".as_slice()
    );
    Ok(())
}

#[test]
fn a_connection_has_room_for_four_bytes(rt: HostRuntime) -> Result<(), Fail> {
    let text = journal(rt.alloc(), USUAL, "", "open\nroom 4\nopen\nhear 20020000\n")?;
    assert_eq!(rt;
        text.as_slice(),
        b"@0 opened\n  send 100f00044d5154540400003c0003646576\n@0 broke fault\n@0 opened\n  send 100f00044d5154540400003c0003646576\n@0 arrived 20020000\n@0 take 0 0 leave\n@0 finish\n  send e000\n".as_slice()
    );
    Ok(())
}

#[test]
fn half_a_packet_is_the_end(rt: HostRuntime) -> Result<(), Fail> {
    let text = journal(
        rt.alloc(),
        Options { reopen: 0, ..USUAL },
        "",
        "open\nhear 2002\n",
    )?;
    assert_eq!(rt;
        text.as_slice(),
        b"@0 opened\n  send 100f00044d5154540400003c0003646576\n@0 broke end\n@0 gaveup\n  closed 0\n@0 take 0 0 leave\n".as_slice()
    );
    Ok(())
}

#[test]
fn bytes_that_are_no_packet_are_the_end(rt: HostRuntime) -> Result<(), Fail> {
    let text = journal(
        rt.alloc(),
        Options { reopen: 0, ..USUAL },
        "",
        "open\nhear c08000\n",
    )?;
    assert_eq!(rt;
        text.as_slice(),
        b"@0 opened\n  send 100f00044d5154540400003c0003646576\n@0 broke bad 0\n  closed 0\n@0 take 0 0 leave\n".as_slice()
    );
    Ok(())
}

#[test]
fn too_many_messages_spill(rt: HostRuntime) -> Result<(), Fail> {
    let text = journal(
        rt.alloc(),
        Options {
            reopen: 0,
            tiny: true,
            ..USUAL
        },
        "0 listen 1\n",
        "open\nhear 20020000\nhear 340500016100013405000161000234050001610003\n",
    )?;
    assert_eq!(rt;
        text.as_slice(),
        b"@0 opened\n  send 100f00044d5154540400003c0003646576\n@0 arrived 20020000\n@0 arrived 34050001610001\n  send 50020001\n@0 arrived 34050001610002\n  send 50020002\n@0 arrived 34050001610003\n@0 broke infull\n@0 gaveup\n  closed 0\n@0 take 0 0 leave\n".as_slice()
    );
    Ok(())
}

#[test]
fn openings_fail_to_the_end(rt: HostRuntime) -> Result<(), Fail> {
    let text = journal(rt.alloc(), USUAL, "", "")?;
    assert_eq!(rt;
        text.as_slice(),
        b"@0 broke fault\n@0 broke fault\n@0 broke fault\n@0 broke fault\n@0 broke fault\n@0 broke fault\n@0 gaveup\n  closed 0\n@0 take 0 0 leave\n".as_slice()
    );
    Ok(())
}

#[test]
fn a_wiped_session_is_opened_anew(rt: HostRuntime) -> Result<(), Fail> {
    let text = journal(
        rt.alloc(),
        Options {
            wipe: true,
            ..USUAL
        },
        "",
        "open\nhear 20020000\nopen\nhear 20020000\n",
    )?;
    assert_eq!(rt;
        text.as_slice(),
        b"@0 opened\n  send 100f00044d5154540402003c0003646576\n@0 arrived 20020000\n  send e000\n@0 opened\n  send 100f00044d5154540400003c0003646576\n@0 arrived 20020000\n@0 take 0 0 leave\n@0 finish\n  send e000\n".as_slice()
    );
    Ok(())
}

#[test]
fn a_long_quiet_breaks(rt: HostRuntime) -> Result<(), Fail> {
    let text = journal(
        rt.alloc(),
        Options { reopen: 0, ..USUAL },
        "",
        "open\nquiet 20000\n",
    )?;
    assert_eq!(rt;
        text.as_slice(),
        b"@0 opened\n  send 100f00044d5154540400003c0003646576\n@0 broke idle\n@0 gaveup\n  closed 0\n@0 take 0 0 leave\n".as_slice()
    );
    Ok(())
}

#[test]
fn a_subscribe_is_lost_with_the_link(rt: HostRuntime) -> Result<(), Fail> {
    let text = journal(
        rt.alloc(),
        Options { reopen: 0, ..USUAL },
        "0 subscribe a/# 1\n",
        "open\nhear 20020000\n",
    )?;
    assert_eq!(rt;
        text.as_slice(),
        b"@0 opened\n  send 100f00044d5154540400003c0003646576\n@0 arrived 20020000\n@0 take 0 0 subscribe a/# 1\n  send 820800010003612f2301\n@0 broke end\n  done 0 0 linklost\n@0 gaveup\n  closed 0\n@0 take 0 1 leave\n".as_slice()
    );
    Ok(())
}

#[test]
fn an_unsubscribe_waits_for_its_subscribe(rt: HostRuntime) -> Result<(), Fail> {
    let text = journal(
        rt.alloc(),
        USUAL,
        "0 subscribe a/# 1\n0 wait\n0 unsubscribe a/#\n",
        "open\nhear 20020000\nhear 9003000101\nhear b0020002\n",
    )?;
    assert_eq!(rt;
        text.as_slice(),
        b"@0 opened\n  send 100f00044d5154540400003c0003646576\n@0 arrived 20020000\n@0 take 0 0 subscribe a/# 1\n  send 820800010003612f2301\n@0 arrived 9003000101\n  done 0 0 granted 01\n@0 take 0 1 unsubscribe a/#\n  send a20700020003612f23\n@0 arrived b0020002\n  done 0 1 done\n@0 take 0 2 leave\n@0 finish\n  send e000\n".as_slice()
    );
    Ok(())
}

#[test]
fn a_disconnect_ends_the_agent(rt: HostRuntime) -> Result<(), Fail> {
    let text = journal(
        rt.alloc(),
        USUAL,
        "0 disconnect\n0 ping\n",
        "open\nhear 20020000\n",
    )?;
    assert_eq!(rt;
        text.as_slice(),
        b"@0 opened\n  send 100f00044d5154540400003c0003646576\n@0 arrived 20020000\n@0 take 0 0 disconnect\n  send e000\n  done 0 0 done\n  closed 0\n@0 take 0 1 ping\n  done 0 1 notconnected\n@0 take 0 2 leave\n".as_slice()
    );
    Ok(())
}

#[test]
fn a_lost_session_is_asked_for_again(rt: HostRuntime) -> Result<(), Fail> {
    let text = journal(
        rt.alloc(),
        USUAL,
        "0 subscribe a/# 1\n0 listen 1\n",
        "open\nhear 20020000\nhear 9003000101\nend\nopen\nhear 20020000\nhear 9003000201\nhear 30070003612f626869\n",
    )?;
    assert_eq!(rt;
        text.as_slice(),
        b"@0 opened\n  send 100f00044d5154540400003c0003646576\n@0 arrived 20020000\n@0 take 0 0 subscribe a/# 1\n  send 820800010003612f2301\n@0 arrived 9003000101\n  done 0 0 granted 01\n@0 broke end\n@0 opened\n  send 100f00044d5154540400003c0003646576\n@0 arrived 20020000\n  send 820800020003612f2301\n@0 arrived 9003000201\n@0 arrived 30070003612f626869\n  pass 0 0 a/b 6869\n@0 take 0 1 leave\n@0 finish\n  send e000\n".as_slice()
    );
    Ok(())
}
