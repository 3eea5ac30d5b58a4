//! Words that the table has, and words that it hasn't, each written from the table.

use command_words::{
    BrokerWords, FetchWords, MirrorWords, RunWords, Size, Words, WordsFault, WorldWords, explain,
    options_are_spelled, read_words,
};
use list_types::Text;
use std::alloc::{AllocError, Global};
use std::test::Fail;

/// What the words that stand between spaces are read as. Two spaces have an empty word between them.
fn read(alloc: Global, line: &str) -> Result<Words, WordsFault> {
    let words: Vec<&str> = line.split(' ').collect(alloc)?;
    read_words(alloc, words.as_slice())
}

fn is_read(alloc: Global, line: &str, wanted: &Words) -> bool {
    match read(alloc, line) {
        Ok(words) => words == *wanted,
        Err(_) => false,
    }
}

fn is_refused(alloc: Global, line: &str) -> bool {
    match read(alloc, line) {
        Ok(_) => false,
        Err(fault) => fault == WordsFault::Words,
    }
}

fn text(alloc: Global, text: &str) -> Result<Text, AllocError> {
    Text::from_str(alloc, text)
}

/// The options of a run of `dev` at this address, all others as they are where they aren't given.
fn run_of_dev(alloc: Global, to: &str) -> Result<RunWords, AllocError> {
    let to = text(alloc, to)?;
    let client = text(alloc, "dev")?;
    Ok(RunWords {
        to,
        client,
        keep_alive: 60,
        reopen: 5,
        wipe: false,
        tick: 0,
        size: Size::Usual,
        thing: None,
    })
}

/// The same of a fetch of the thing `t1` at `h`.
fn fetch_of_dev(alloc: Global) -> Result<FetchWords, AllocError> {
    let to = text(alloc, "h")?;
    let client = text(alloc, "dev")?;
    let thing = text(alloc, "t1")?;
    Ok(FetchWords {
        to,
        client,
        keep_alive: 60,
        reopen: 5,
        wipe: false,
        thing,
        block: 4_096,
        tries: 5,
        dump: false,
    })
}

#[test]
fn a_replay_has_its_defaults(rt: HostRuntime) -> Result<(), Fail> {
    let alloc = rt.alloc();
    let words = Words::Replay(run_of_dev(alloc, "")?);
    assert!(rt; is_read(alloc, "replay --client dev", &words));
    assert!(rt; is_read(alloc, "replay --client=dev", &words));
    Ok(())
}

#[test]
fn a_run_has_its_agent(rt: HostRuntime) -> Result<(), Fail> {
    let alloc = rt.alloc();
    let words = run_of_dev(alloc, "")?;
    let setup = words.setup(alloc, 3)?;
    assert_eq!(rt; setup.client.as_str(), "dev");
    assert_eq!(rt; setup.tasks, 3);
    Ok(())
}

#[test]
fn a_replay_has_its_options(rt: HostRuntime) -> Result<(), Fail> {
    let alloc = rt.alloc();
    let mut words = run_of_dev(alloc, "")?;
    words.client = text(alloc, "a=b")?;
    words.keep_alive = 65_535;
    words.reopen = 1_000;
    words.wipe = true;
    words.tick = 1_000_000;
    words.size = Size::Tiny;
    words.thing = Some(text(alloc, "t:1")?);
    let line =
        "replay --wipe --thing t:1 --size=tiny --tick 1000000 --reopen=1000 --client=a=b --keep-alive 65535";
    assert!(rt; is_read(alloc, line, &Words::Replay(words)));
    Ok(())
}

#[test]
fn a_shared_run_has_its_options(rt: HostRuntime) -> Result<(), Fail> {
    let alloc = rt.alloc();
    let mut words = run_of_dev(alloc, "h:1883")?;
    words.keep_alive = 0;
    words.reopen = 0;
    let line = "share --connect h:1883 --client dev --keep-alive 0 --reopen 0 --size usual";
    assert!(rt; is_read(alloc, line, &Words::Share(words)));
    Ok(())
}

#[test]
fn a_fetch_has_its_defaults(rt: HostRuntime) -> Result<(), Fail> {
    let alloc = rt.alloc();
    let words = Words::Fetch(fetch_of_dev(alloc)?);
    assert!(rt; is_read(alloc, "fetch --connect h --client dev --thing t1", &words));
    Ok(())
}

#[test]
fn a_fetch_has_its_options(rt: HostRuntime) -> Result<(), Fail> {
    let alloc = rt.alloc();
    let mut words = fetch_of_dev(alloc)?;
    words.keep_alive = 1;
    words.reopen = 2;
    words.wipe = true;
    words.block = 65_536;
    words.tries = 100;
    words.dump = true;
    let line =
        "fetch --dump --tries 100 --block=65536 --wipe --reopen 2 --keep-alive 1 --thing t1 --client dev --connect h";
    assert!(rt; is_read(alloc, line, &Words::Fetch(words)));
    Ok(())
}

#[test]
fn a_broker_and_a_world_have_their_options(rt: HostRuntime) -> Result<(), Fail> {
    let alloc = rt.alloc();
    let at = text(alloc, "x")?;
    let words = Words::Broker(BrokerWords {
        at,
        connections: 1_000_000,
    });
    let line = "broker --connections=1000000 --listen x";
    assert!(rt; is_read(alloc, line, &words));
    let words = Words::World(WorldWords {
        seed: 18_446_744_073_709_551_615,
        events: 1,
    });
    let line = "world --seed 18446744073709551615 --events 1";
    assert!(rt; is_read(alloc, line, &words));
    Ok(())
}

#[test]
fn a_mirror_has_its_options(rt: HostRuntime) {
    let alloc = rt.alloc();
    let least = Words::Mirror(MirrorWords {
        readers: 1,
        reads: 0,
    });
    assert!(rt; is_read(alloc, "mirror --readers 1 --reads 0", &least));
    let most = Words::Mirror(MirrorWords {
        readers: 8,
        reads: 1_000_000,
    });
    assert!(rt; is_read(alloc, "mirror --reads=1000000 --readers 8", &most));
}

#[test]
fn other_words_are_no_replay(rt: HostRuntime) {
    let alloc = rt.alloc();
    for line in [
        "",
        "--help",
        "--client dev replay",
        "mirror --client dev",
        "replay",
        "replay --help",
        "replay --client dev --help",
        "replay --client dev --version",
        "replay --client dev --client x",
        "replay --client=dev --client dev",
        "replay --client dev --",
        "replay -- --client dev",
        "replay --client dev x",
        "replay x --client dev",
        "replay --client dev ",
        "replay dev",
        "replay --cli dev",
        "replay -client dev",
        "replay client=dev",
        "replay --Client dev",
        "Replay --client dev",
        "replay --client",
        "replay --client ",
        "replay --client=",
        "replay --client -dev",
        "replay --client=-dev",
        "replay --client --wipe",
        "replay --client dé",
        "replay --client dev --wipe --wipe",
        "replay --client dev --wipe=",
        "replay --client dev --wipe=true",
        "replay --client dev --wipe true",
        "replay --client dev --keep-alive",
        "replay --client dev --keep-alive 65536",
        "replay --client dev --keep-alive +1",
        "replay --client dev --keep-alive 01",
        "replay --client dev --keep-alive 1s",
        "replay --client dev --reopen 1001",
        "replay --client dev --tick 1000001",
        "replay --client dev --size large",
        "replay --client dev --size Tiny",
        "replay --client dev --thing a/b",
        "replay --client dev --connect h",
        "replay --client dev --block 256",
    ] {
        assert!(rt; is_refused(alloc, line), "at {line:?}");
    }
}

#[test]
fn other_words_are_no_command(rt: HostRuntime) {
    let alloc = rt.alloc();
    for line in [
        "share --client dev",
        "share --connect h",
        "share --connect h --client dev --tick 0",
        "fetch --connect h --client dev",
        "fetch --connect h --client dev --thing t --size tiny",
        "fetch --connect h --client dev --thing t --block 300",
        "fetch --connect h --client dev --thing t --block 128",
        "fetch --connect h --client dev --thing t --block 131072",
        "fetch --connect h --client dev --thing t --tries 101",
        "broker --listen x",
        "broker --connections 1",
        "broker --listen x --connections 0",
        "broker --listen x --connections 1000001",
        "broker --listen x --connections 1 --client dev",
        "world --seed 1",
        "world --events 1",
        "world --seed 18446744073709551616 --events 1",
        "world --seed 100000000000000000000000000000 --events 1",
        "world --seed 1 --events 0",
        "world --seed 1 --events 1000001",
        "mirror --readers 1",
        "mirror --reads 1",
        "mirror --readers 0 --reads 1",
        "mirror --readers 9 --reads 1",
        "mirror --readers 1 --reads 1000001",
        "mirror --readers 1 --reads -1",
        "mirror --readers 1 --reads 1 --readers 2",
        "mirror --readers 1 --reads 1 --seed 1",
    ] {
        assert!(rt; is_refused(alloc, line), "at {line:?}");
    }
}

#[test]
fn no_words_are_no_command(rt: HostRuntime) {
    let alloc = rt.alloc();
    match read_words(alloc, [].as_slice()) {
        Ok(_) => assert!(rt; false),
        Err(fault) => assert_eq!(rt; fault, WordsFault::Words),
    }
}

/// So many letters.
fn letters(alloc: Global, count: usize) -> Result<String, AllocError> {
    let mut text = String::new(alloc);
    for _ in 0..count {
        text.push_str("a")?;
    }
    Ok(text)
}

#[test]
fn texts_have_their_lengths(rt: HostRuntime) -> Result<(), Fail> {
    let alloc = rt.alloc();
    let most = letters(alloc, 128)?;
    let more = letters(alloc, 129)?;
    let words = [
        "replay",
        "--client",
        most.as_str(),
        "--thing",
        most.as_str(),
    ];
    assert!(rt; read_words(alloc, words.as_slice()).is_ok());
    let words = ["replay", "--client", more.as_str()];
    assert!(rt; read_words(alloc, words.as_slice()).is_err());
    let words = ["replay", "--client", "dev", "--thing", more.as_str()];
    assert!(rt; read_words(alloc, words.as_slice()).is_err());
    let most = letters(alloc, 255)?;
    let more = letters(alloc, 256)?;
    let words = ["broker", "--connections", "1", "--listen", most.as_str()];
    assert!(rt; read_words(alloc, words.as_slice()).is_ok());
    let words = ["broker", "--connections", "1", "--listen", more.as_str()];
    assert!(rt; read_words(alloc, words.as_slice()).is_err());
    Ok(())
}

/// What is said of the words that stand between spaces has each of these texts.
fn says(alloc: Global, line: &str, texts: &[&str]) -> Result<bool, AllocError> {
    let words: Vec<&str> = line.split(' ').collect(alloc)?;
    let said = explain(alloc, words.as_slice())?;
    Ok(texts.iter().all(|text| said.contains(text)))
}

#[test]
fn a_word_that_is_no_option_is_told_with_the_similar_one(rt: HostRuntime) -> Result<(), Fail> {
    let alloc = rt.alloc();
    assert!(rt;
        says(
            alloc,
            "replay --clent dev",
            &["'--clent'", "'--client'", "domeweave replay"]
        )?
    );
    assert!(rt;
        says(
            alloc,
            "replya --client dev",
            &["'replya'", "'replay'", "world"]
        )?
    );
    Ok(())
}

#[test]
fn a_fault_is_told_with_its_option(rt: HostRuntime) -> Result<(), Fail> {
    let alloc = rt.alloc();
    assert!(rt; says(alloc, "replay", &["required", "--client <CLIENT>"])?);
    assert!(rt;
        says(
            alloc,
            "replay --client dev --client x",
            &["'--client <CLIENT>'", "multiple times"]
        )?
    );
    assert!(rt;
        says(
            alloc,
            "replay --client",
            &["a value is required", "'--client <CLIENT>'"]
        )?
    );
    assert!(rt;
        says(
            alloc,
            "replay --client dev --wipe=yes",
            &["'yes'", "'--wipe'"]
        )?
    );
    Ok(())
}

#[test]
fn a_value_out_of_range_gives_the_ranges(rt: HostRuntime) -> Result<(), Fail> {
    let alloc = rt.alloc();
    assert!(rt;
        says(
            alloc,
            "world --seed 1 --events 0",
            &["--events <COUNT>", "1 to 1000000"]
        )?
    );
    assert!(rt;
        says(
            alloc,
            "mirror --readers 9 --reads 1",
            &["--readers <COUNT>", "1 to 8", "0 to 1000000"]
        )?
    );
    assert!(rt;
        says(
            alloc,
            "fetch --help",
            &["--block <BYTES>", "256 to 65536", "4096"]
        )?
    );
    Ok(())
}

#[test]
fn without_words_the_commands_are_listed(rt: HostRuntime) -> Result<(), Fail> {
    let alloc = rt.alloc();
    let said = explain(alloc, [].as_slice())?;
    for name in ["replay", "share", "fetch", "broker", "world", "mirror"] {
        assert!(rt; said.contains(name), "at {name}");
    }
    Ok(())
}

#[test]
fn laws_can_be_called() {
    options_are_spelled();
}
