//! What a person is told on standard error where a command ends otherwise than it was asked to. Nothing depends on it.

use crate::place::place_of;
use command_words::explain;
use plain_text::number_in;
use std::alloc::{AllocError, Global};

/// What a line of a mirror's source may be.
const MIRROR_LINE: &str =
    "`publish`, or `change HEX`, the bytes of a text as {\"version\":1,\"state\":{\"desired\":{\"a\":1}}}";

/// What is told of a command with this status, its words, what it read and the line that it wrote last.
pub fn told<'a>(
    alloc: Global,
    status: u8,
    words: &'a [&'a str],
    heard: &[u8],
    line: &[u8],
) -> Result<String, AllocError> {
    match status {
        1 => explain(alloc, words),
        2 => told_of_source(alloc, words, heard, line),
        4 => told_of_refusal(alloc, line),
        _ => format!(in alloc; "{}", sentence(status)),
    }
}

/// A sentence for each other status.
fn sentence(status: u8) -> &'static str {
    match status {
        3 =>
            "the link was given up: openings and connections broke more often than --reopen says\n",
        5 => "the broker's bytes were no packet, or not one that may come there\n",
        6 => "the broker held a session that the agent doesn't know: --wipe ends it first\n",
        7 => "memory ran out\n",
        8 => "standard output failed\n",
        9 => "standard input failed\n",
        13 => "this command isn't built yet\n",
        _ => "",
    }
}

/// The number that ends a line of these words.
fn number_behind(words: &[u8], line: &[u8]) -> Option<u64> {
    number_in(0, u64::MAX, line.strip_prefix(words)?.strip_suffix(b"\n")?)
}

fn told_of_refusal(alloc: Global, line: &[u8]) -> Result<String, AllocError> {
    match number_behind(b"fault refused ", line) {
        Some(code) => {
            format!(in alloc;
                "the broker refused the connection: {code}, {}\n",
                meaning(code)
            )
        }
        None => format!(in alloc; "the broker refused the connection\n"),
    }
}

/// What the return code of a CONNACK says (MQTT 3.1.1, section 3.2.2.3).
fn meaning(code: u64) -> &'static str {
    match code {
        1 => "unacceptable protocol version",
        2 => "identifier rejected",
        3 => "server unavailable",
        4 => "bad user name or password",
        5 => "not authorized",
        _ => "a code that MQTT 3.1.1 keeps for later use",
    }
}

fn told_of_source(
    alloc: Global,
    words: &[&str],
    heard: &[u8],
    line: &[u8],
) -> Result<String, AllocError> {
    match number_behind(b"fault script ", line) {
        Some(number) => told_of_line(alloc, words, heard, number),
        None => format!(in alloc; "standard input has more than 1048576 bytes\n"),
    }
}

fn told_of_line(
    alloc: Global,
    words: &[&str],
    heard: &[u8],
    number: u64,
) -> Result<String, AllocError> {
    let place = place_of(heard, number);
    let wants = if is_mirror(words) {
        MIRROR_LINE
    } else {
        place.wants()
    };
    match place.line {
        Some(line) => {
            let shown = shown(alloc, line)?;
            format!(in alloc;
                "standard input, line {number}: {}\nexpected: {wants}\n",
                shown.as_str()
            )
        }
        None => {
            format!(in alloc; "standard input ends in front of line {number}\nexpected: {wants}\n")
        }
    }
}

fn is_mirror(words: &[&str]) -> bool {
    match words {
        [] => false,
        [name, ..] => *name == "mirror",
    }
}

/// A line in at most 80 columns, its unprintable bytes escaped.
fn shown(alloc: Global, line: &[u8]) -> Result<String, AllocError> {
    let mut text = String::new(alloc);
    for byte in line {
        if 74 < text.len() {
            text.push_str("..")?;
            break;
        }
        show(alloc, *byte, &mut text)?;
    }
    Ok(text)
}

fn show(alloc: Global, byte: u8, text: &mut String) -> Result<(), AllocError> {
    if 32 <= byte && byte <= 126 && byte != b'\\' {
        text.push(char::from(byte))?;
    } else {
        let escaped = format!(in alloc; "\\x{byte:02x}")?;
        text.push_str(escaped.as_str())?;
    }
    Ok(())
}
