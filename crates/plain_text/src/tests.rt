//! Each call once, with ample memory, against values that were worked out by hand.

use super::*;
use std::test::Fail;

#[test]
fn a_text_falls_into_its_lines(rt: HostRuntime) {
    let text = b"a\n\nb".as_slice();
    let mut at = 0;
    for want in [b"a".as_slice(), b"".as_slice(), b"b".as_slice()] {
        assert!(rt; at < text.len());
        let (line, next) = line_at(text, at);
        assert_eq!(rt; line, want);
        at = next;
    }
    assert_eq!(rt; at, text.len());
}

#[test]
fn empty_lines_and_comments_are_passed(rt: HostRuntime) {
    for (line, want) in [
        (b"".as_slice(), true),
        (b"# x".as_slice(), true),
        (b"x #".as_slice(), false),
    ] {
        assert_eq!(rt; is_passed(line), want, "at {line:?}");
    }
}

#[test]
fn a_line_falls_into_its_words(rt: HostRuntime) {
    let line = b"send a/b 6869".as_slice();
    assert_eq!(rt; last_at(line), None);
    let Some((first, rest)) = word_at(line) else {
        panic!(rt; "no first word");
    };
    assert_eq!(rt; first, b"send".as_slice());
    let Some((second, last)) = word_at(rest) else {
        panic!(rt; "no second word");
    };
    assert_eq!(rt; second, b"a/b".as_slice());
    assert!(rt; word_at(last).is_none());
    assert_eq!(rt; last_at(last), Some(b"6869".as_slice()));
}

#[test]
fn names_are_read_from_their_escapes(rt: HostRuntime) -> Result<(), Fail> {
    let alloc = rt.alloc();
    for (word, want) in [
        (b"%61b".as_slice(), "ab"),
        (b"a/b".as_slice(), "a/b"),
        (b"%25%20".as_slice(), "% "),
    ] {
        assert_eq!(rt; text_of(alloc, word)?.as_str(), want);
    }
    // Lower case, no UTF-8, a raw space, and escapes that break off.
    for word in [
        b"a%2fb".as_slice(),
        b"%C3".as_slice(),
        b"a b".as_slice(),
        b"%".as_slice(),
        b"%4".as_slice(),
    ] {
        match text_of(alloc, word) {
            Ok(text) => panic!(rt; "{word:?} was read as {text:?}"),
            Err(refusal) => assert_eq!(rt; refusal, Refusal::Bad, "at {word:?}"),
        }
    }
    Ok(())
}

#[test]
fn what_cannot_stand_for_itself_is_escaped(rt: HostRuntime) {
    assert_eq!(rt; plain_len(b"ab cd".as_slice()), 2);
    assert_eq!(rt; escape(b'%').as_slice(), b"%25".as_slice());
    assert_eq!(rt; escape(0xC3).as_slice(), b"%C3".as_slice());
}

#[test]
fn payloads_are_read_from_their_digits(rt: HostRuntime) -> Result<(), Fail> {
    let alloc = rt.alloc();
    for (word, want) in [
        (b"-".as_slice(), b"".as_slice()),
        (b"6A6b".as_slice(), b"jk".as_slice()),
    ] {
        assert_eq!(rt; payload_of(alloc, word)?.as_slice(), want);
    }
    for word in [b"6".as_slice(), b"".as_slice(), b"6g".as_slice()] {
        match payload_of(alloc, word) {
            Ok(payload) => panic!(rt; "{word:?} was read as {payload:?}"),
            Err(refusal) => assert_eq!(rt; refusal, Refusal::Bad, "at {word:?}"),
        }
    }
    Ok(())
}

#[test]
fn numbers_are_read_to_their_ends(rt: HostRuntime) -> Result<(), Fail> {
    for (word, least, most, number) in [
        ("0", 0, 9, Some(0)),
        ("0", 1, 9, None),
        ("9", 0, 9, Some(9)),
        ("10", 0, 9, None),
        ("65535", 0, 65_535, Some(65_535)),
        (
            "18446744073709551615",
            0,
            18_446_744_073_709_551_615,
            Some(18_446_744_073_709_551_615),
        ),
        ("18446744073709551616", 0, 18_446_744_073_709_551_615, None),
        (
            "100000000000000000000000000000000000000000",
            0,
            18_446_744_073_709_551_615,
            None,
        ),
        ("", 0, 9, None),
        ("00", 0, 9, None),
        ("07", 0, 9, None),
        ("+7", 0, 9, None),
        ("-7", 0, 9, None),
        ("7 ", 0, 9, None),
        ("7a", 0, 99, None),
    ] {
        assert_eq!(rt; number_in(least, most, word.as_bytes()), number);
    }
    Ok(())
}
