//! Domeweave: an MQTT 3.1.1 agent for firmware developers.
#![tactic(auto)]

ghost use Rattle.std.specs.Prelude.{◌≡◌, map, IfOk};
ghost use Rattle.std.specs.String.{string_bytes};

mod place;
mod std_sink;
mod std_source;
mod told;
mod top;

use crate::std_sink::StdSink;
use crate::std_source::StdSource;
use crate::told::told;
use crate::top::top;
use std::alloc::{AllocError, Global};
use std::process::ExitCode;
use std::rt::Env;
use std::sync::Wait;
use std::thread::Threads;
use std::{env, io};

/// The status of want of memory.
const NO_MEMORY: u8 = 7;

fn main(rt: HostRuntime) -> ExitCode {
    let alloc = rt.alloc();
    let status = match arguments(&rt, alloc) {
        Ok(arguments) => match words_in(alloc, arguments.as_slice()) {
            Ok(words) => run(&rt, words.as_slice()),
            Err(_) => NO_MEMORY,
        },
        Err(_) => NO_MEMORY,
    };
    ExitCode::from(status)
}

/// Runs the command, and tells a person what it came to where that isn't what was asked. Nothing depends on what is told.
fn run<R: Threads + Wait + Sync + AllocGlobal + Input + Print + Eprint>(
    rt: &R,
    words: &[&str],
) -> u8 {
    let alloc = rt.alloc();
    let mut source = StdSource::new(alloc, rt.reader());
    let mut sink = StdSink::new(alloc, io::writer(rt));
    let status = top(rt, alloc, words, &mut source, &mut sink);
    if let Ok(text) = told(alloc, status, words, source.heard(), sink.line()) {
        let _ = eprint!(rt; "{}", text.as_str());
    }
    status
}

/// The words behind the program's name. Where one isn't UTF-8 there are none, which is no command.
fn arguments(rt: &(impl Env + AllocGlobal), alloc: Global) -> Result<Vec<String>, AllocError> {
    let mut words = Vec::new(alloc);
    if let Ok(arguments) = env::args(rt) {
        for word in arguments.skip(1) {
            words.push(word)?;
        }
    }
    Ok(words)
}

/// The arguments as words.
fn words_in(alloc: Global, arguments: &[String]) -> Result<Vec<&str>, AllocError>
    ensures { IfOk result (λ words. map (λ word. word.now) words.items ≡ map string_bytes arguments.now) }
{
    let mut words = Vec::new(alloc);
    for argument in arguments {
        words.push(argument.as_str())?;
    }
    Ok(words)
}

#[cfg(test)]
mod tests;
