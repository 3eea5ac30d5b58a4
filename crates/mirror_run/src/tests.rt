//! The command over sources and sinks in memory. Each `change` line has the bytes of the JSON above it.

ghost use Rattle.std.specs.Prelude.{◌≡◌, ◌<◌, ◌≤◌};

use super::*;
use agent_link::{Fault, MemSink, MemSource, Sink};
use command_words::MirrorWords;
use std::alloc::Global;
use std::sync::Wait;
use std::test::Fail;
use std::thread::Threads;

/// The status of a mirror over a source whose calls with these numbers fail.
fn status_of<R: Threads + Wait + Sync, O: Sink>(
    rt: &R,
    alloc: Global,
    words: (u32, u32),
    text: &[u8],
    fails: Vec<u64>,
    out: &mut O,
) -> Result<u8, Fail>
    requires { (0 < words.0) × (words.0 ≤ 8) }
{
    let (readers, reads) = words;
    let mut source = MemSource::new(Vec::from_slice(alloc, text)?, fails);
    let words = MirrorWords { readers, reads };
    Ok(mirror_command(rt, alloc, &words, &mut source, out))
}

/// Whether a mirror writes this text and ends with this status.
fn answers<R: Threads + Wait + Sync>(
    rt: &R,
    alloc: Global,
    words: (u32, u32),
    text: &[u8],
    want: &[u8],
    status: u8,
) -> Result<bool, Fail>
    requires { (0 < words.0) × (words.0 ≤ 8) }
{
    let mut sink = MemSink::new(alloc, Vec::new(alloc));
    let told = status_of(rt, alloc, words, text, Vec::new(alloc), &mut sink)?;
    Ok(told == status && sink.bytes() == want)
}

/// {"version":1,"state":{"desired":{"a":1}}}
/// {"version":2,"state":{"desired":{"a":null,"b":"x"}}}
const TWO: &[u8] =
    b"change 7b2276657273696f6e223a312c227374617465223a7b2264657369726564223a7b2261223a317d7d7d\n\
         publish\n\
         change 7b2276657273696f6e223a322c227374617465223a7b2264657369726564223a7b2261223a6e756c6c2c22622\
         23a2278227d7d7d\n\
         publish\n";

#[test]
fn each_reader_ends_at_what_is_published(rt: HostRuntime) -> Result<(), Fail> {
    let want = b"reader 0 reads 3 last 2\nreader 1 reads 3 last 2\nkey b x\nok\n";
    assert!(rt; answers(&rt, rt.alloc(), (2, 3), TWO, want, 0)?);
    Ok(())
}

/// {"version":2,"state":{"desired":{"a":null,"b":"x"}}}
/// {"version":1,"state":{"desired":{"b":7}}}
#[test]
fn an_old_version_leaves_the_document(rt: HostRuntime) -> Result<(), Fail> {
    let text =
        b"change 7b2276657273696f6e223a322c227374617465223a7b2264657369726564223a7b2261223a6e756c6c2c22622\
             23a2278227d7d7d\n\
             change 7b2276657273696f6e223a312c227374617465223a7b2264657369726564223a7b2262223a377d7d7d\n\
             publish\n";
    assert!(rt;
        answers(
            &rt,
            rt.alloc(),
            (1, 0),
            text,
            b"reader 0 reads 0 last 2\nkey b x\nok\n",
            0
        )?
    );
    Ok(())
}

/// {"version":2,"state":{"desired":{"a":null,"b":"x"}}}
/// {"version":3,"state":{"desired":{"b":"y"}}}
#[test]
fn what_is_not_published_is_not_printed(rt: HostRuntime) -> Result<(), Fail> {
    let text =
        b"change 7b2276657273696f6e223a322c227374617465223a7b2264657369726564223a7b2261223a6e756c6c2c22622\
             23a2278227d7d7d\n\
             publish\n\
             change 7b2276657273696f6e223a332c227374617465223a7b2264657369726564223a7b2262223a2279227d7d7d\n";
    assert!(rt;
        answers(
            &rt,
            rt.alloc(),
            (1, 1),
            text,
            b"reader 0 reads 1 last 2\nkey b x\nok\n",
            0
        )?
    );
    Ok(())
}

/// {"version":7,"state":{"desired":{"":"","a b":"c%d","f":false,"n":-9223372036854775808,"p":42,"t":true}}}
#[test]
fn each_form_of_a_key_is_printed(rt: HostRuntime) -> Result<(), Fail> {
    let text =
        b"change 7b2276657273696f6e223a372c227374617465223a7b2264657369726564223a7b22223a22222c22612062223\
             a22632564222c2266223a66616c73652c226e223a2d393232333337323033363835343737353830382c2270223a34322\
             c2274223a747275657d7d7d\n\
             publish\n";
    let want = b"reader 0 reads 1 last 7\n\
             key - -\n\
             key a%20b c%25d\n\
             key f false\n\
             key n -9223372036854775808\n\
             key p 42\n\
             key t true\n\
             ok\n";
    assert!(rt; answers(&rt, rt.alloc(), (1, 1), text, want, 0)?);
    Ok(())
}

/// {"version":3,"state":{"desired":{"b":[]}}}
#[test]
fn a_bad_line_is_refused_with_its_number(rt: HostRuntime) -> Result<(), Fail> {
    let alloc = rt.alloc();
    for (text, want) in [
        (
            b"# none\n\npublish all\n".as_slice(),
            b"fault script 3\n".as_slice(),
        ),
        (
            b"publish\n\
                 change 7b2276657273696f6e223a332c227374617465223a7b2264657369726564223a7b2262223a5b5d7d7d7d\n"
                .as_slice(),
            b"fault script 2\n".as_slice(),
        ),
    ] {
        assert!(rt; answers(&rt, alloc, (1, 1), text, want, 2)?);
    }
    Ok(())
}

/// A sink that has no memory.
#[derive(Drop)]
struct Full;

impl Sink for Full {
    ghost use Rattle.std.specs.Prelude.{None};

    ghost written = { λ s. None };

    ghost faults = { λ s. 0 };

    fn write(&mut self, _bytes: &[u8]) -> Result<usize, Fault> {
        Err(Fault::NoMemory)
    }
}

#[test]
fn faults_of_the_source_and_of_the_sink_have_their_status(rt: HostRuntime) -> Result<(), Fail> {
    let alloc = rt.alloc();
    let mut sink = MemSink::new(alloc, Vec::new(alloc));
    let of_source = status_of(&rt, alloc, (1, 0), b"", vec![in alloc; 0]?, &mut sink)?;
    let mut broken = MemSink::new(alloc, vec![in alloc; 0]?);
    let of_sink = status_of(&rt, alloc, (1, 0), b"", Vec::new(alloc), &mut broken)?;
    let of_memory = status_of(&rt, alloc, (1, 0), b"", Vec::new(alloc), &mut Full)?;
    assert_eq!(rt; (of_source, of_sink, of_memory), (9, 8, 7));
    assert_eq!(rt; sink.bytes(), b"fault source\n".as_slice());
    Ok(())
}
