//! What a person is told.

use super::*;
use crate::told::told;

/// Whether what is told of this status, text and last line has each of these pieces.
fn tells(
    alloc: Global,
    status: u8,
    text: &[u8],
    line: &[u8],
    pieces: &[&str],
) -> Result<bool, AllocError> {
    let words = ["replay", "--clent", "dev"];
    tells_of(alloc, words.as_slice(), status, text, line, pieces)
}

/// The same of these words.
fn tells_of<'a>(
    alloc: Global,
    words: &'a [&'a str],
    status: u8,
    text: &[u8],
    line: &[u8],
    pieces: &[&str],
) -> Result<bool, AllocError> {
    let told = told(alloc, status, words, text, line)?;
    Ok(pieces.iter().all(|piece| told.contains(piece)))
}

#[test]
fn a_refused_line_is_told_with_what_may_stand_there(rt: HostRuntime) -> Result<(), Fail> {
    let alloc = rt.alloc();
    for (text, line, pieces) in [
        (
            b"# two\n\ntasks 2\n".as_slice(),
            b"fault script 3\n".as_slice(),
            ["line 3: tasks 2", "`tasks 1`"],
        ),
        (
            b"tasks 1\n0 publish 3 a/b \xff\\\n",
            b"fault script 2\n",
            [
                "standard input, line 2: 0 publish 3 a/b \\xff\\x5c\n",
                "`0 publish 1 a/b 6869`",
            ],
        ),
        (
            b"tasks 1\n0 shadow get - -\ntape\n",
            b"fault script 2\n",
            ["line 2: 0 shadow get - -", "--thing"],
        ),
        (
            b"tasks 1\ntape\nopen\nhear 2\n",
            b"fault script 4\n",
            ["line 4: hear 2", "`hear 20020000`"],
        ),
        (
            b"tasks 1\ntape\nopen\nend\nhear 20\n",
            b"fault script 5\n",
            ["line 5: hear 20", "`open`"],
        ),
        (
            b"tasks 1\n",
            b"fault script 2\n",
            ["ends in front of line 2", "`tape`"],
        ),
        (b"", b"fault script long\n", ["1048576 bytes", "more"]),
    ] {
        assert!(rt; tells(alloc, 2, text, line, pieces.as_slice())?);
    }
    Ok(())
}

#[test]
fn a_refused_change_is_told_with_what_may_stand_there(rt: HostRuntime) -> Result<(), Fail> {
    let alloc = rt.alloc();
    let words = ["mirror", "--readers", "1", "--reads", "0"];
    let pieces = ["line 2: change 7b", "`publish`", "`change HEX`"];
    assert!(rt;
        tells_of(
            alloc,
            words.as_slice(),
            2,
            b"publish\nchange 7b\n",
            b"fault script 2\n",
            pieces.as_slice()
        )?
    );
    Ok(())
}

#[test]
fn a_long_line_is_cut(rt: HostRuntime) -> Result<(), Fail> {
    let alloc = rt.alloc();
    let text =
        b"tasks 1\n0 publish 1 0123456789012345678901234567890123456789012345678901234567890123456789+ -\n";
    let shown =
        "line 2: 0 publish 1 012345678901234567890123456789012345678901234567890123456789012..\n";
    assert!(rt; tells(alloc, 2, text, b"fault script 2\n", &[shown])?);
    Ok(())
}

#[test]
fn each_other_status_has_a_sentence(rt: HostRuntime) -> Result<(), Fail> {
    let alloc = rt.alloc();
    assert!(rt;
        tells(
            alloc,
            1,
            b"",
            b"fault words\n",
            &["'--clent'", "'--client'"]
        )?
    );
    assert!(rt; tells(alloc, 4, b"", b"fault refused 5\n", &["5, not authorized"])?);
    for (status, piece) in [
        (3, "link"),
        (5, "bytes"),
        (6, "--wipe"),
        (7, "memory"),
        (8, "standard output"),
        (9, "standard input"),
        (13, "built"),
    ] {
        assert!(rt; tells(alloc, status, b"", b"", &[piece])?);
    }
    Ok(())
}
