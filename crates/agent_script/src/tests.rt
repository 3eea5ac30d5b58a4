//! Lines of scripts, good and bad, one for each rule of the grammar.

use super::*;
use std::alloc::Global;
use std::test::Fail;

/// Reads a script of two tasks whose second line is this one.
fn read(alloc: Global, line: &str) -> Result<Result<Step, ScriptFault>, Fail> {
    let mut text = String::new(alloc);
    text.push_str("tasks 2\n")?;
    text.push_str(line)?;
    match read_script(alloc, text.as_bytes()) {
        Ok((script, _)) => match script.lines.into_vec().pop() {
            Some(line) => Ok(Ok(line.step)),
            None => Err(Fail::new("no line was read")),
        },
        Err(fault) => Ok(Err(fault)),
    }
}

#[test]
fn lines_of_the_grammar_are_read(rt: HostRuntime) -> Result<(), Fail> {
    let alloc = rt.alloc();
    for line in [
        "0 publish 0 a/b 6869",
        "1 publish 1 a%20b -",
        "0 publish 2 a 00FFab",
        "0 subscribe a/# 1",
        "0 subscribe a 0 + 1 # 2 b 0 c 1 d 2 e 0 f 1",
        "0 unsubscribe a/#",
        "0 unsubscribe a b c d e f g +/h",
        "0 ping",
        "0 disconnect",
        "1 terminate",
        "0 wait",
        "0 listen 1",
        "0 listen 1000000",
        "0 shadow get - -",
        "0 shadow update N 7b7d",
        "0 shadow delete %41 -",
        "0 jobs start-next -",
        "0 jobs get 7b7d",
        "0 jobs describe $next -",
        "0 jobs update j1 7b7d",
    ] {
        assert!(rt; read(alloc, line)?.is_ok(), "at {line:?}");
    }
    Ok(())
}

#[test]
fn other_lines_are_refused(rt: HostRuntime) -> Result<(), Fail> {
    let alloc = rt.alloc();
    for line in [
        "2 ping",
        "00 ping",
        "0  ping",
        " 0 ping",
        "0 ping ",
        "0",
        "0 nothing",
        "0 publish 3 a 00",
        "0 publish 1 a",
        "0 publish 1 a 0",
        "0 publish 1 a 00 00",
        "0 publish 1 %2f 00",
        "0 publish 1 %FF 00",
        "0 publish 1 a/+ 00",
        "0 publish 1 %00 00",
        "0 subscribe a",
        "0 subscribe a 3",
        "0 subscribe a# 1",
        "0 subscribe a 0 b",
        "0 subscribe a 0 b 0 c 0 d 0 e 0 f 0 g 0 h 0 i 0",
        "0 unsubscribe",
        "0 unsubscribe a b c d e f g h i",
        "0 wait 1",
        "0 listen 0",
        "0 listen 01",
        "0 listen 1000001",
        "0 listen +1",
        "0 shadow put - -",
        "0 shadow get  -",
        "0 jobs describe -",
        "0 jobs get j -",
        "0 jobs delete j -",
    ] {
        assert_eq!(rt;
            read(alloc, line)?,
            Err(ScriptFault::Line(2)),
            "at {line:?}"
        );
    }
    Ok(())
}

#[test]
fn a_script_ends_with_its_text_or_its_tape(rt: HostRuntime) -> Result<(), Fail> {
    let alloc = rt.alloc();
    for (text, want) in [
        ("", Err(ScriptFault::Line(1))),
        ("# nothing\n\n", Err(ScriptFault::Line(3))),
        ("tasks 0\n", Err(ScriptFault::Line(1))),
        ("tasks 9\n", Err(ScriptFault::Line(1))),
        ("tasks 1", Ok((1, 0, 7))),
        ("\ntasks 8\n7 wait\n", Ok((8, 1, 16))),
        ("tasks 1\n0 wait\ntape\nopen\n", Ok((1, 1, 20))),
        ("tasks 1\ntape 1\n", Err(ScriptFault::Line(2))),
    ] {
        let read = read_script(alloc, text.as_bytes()).map(|(script, at)| (
            script.tasks,
            script.lines.len(),
            at,
        ));
        assert_eq!(rt; read, want, "at {text:?}");
    }
    Ok(())
}
