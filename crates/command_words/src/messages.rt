//! What a person is told whose words have no reading. Nothing else depends on it.

use crate::apps::command;
use crate::rows::Row;
use crate::tables::{BROKER, FETCH, MIRROR, REPLAY, SHARE, WORLD};
use clap::Command;
use std::alloc::{AllocError, Global};

/// What is wrong with words that have no reading: what clap says of them; where it takes them, so that a value is at
/// fault, how their command is used, with the range of each value; and without a command the list of commands.
pub fn explain<'a>(alloc: Global, words: &'a [&'a str]) -> Result<String, AllocError> {
    match words {
        [] => list_of_commands(alloc),
        [name, rest @ ..] => {
            if *name == "replay" {
                explain_options(alloc, "domeweave replay", &REPLAY, rest)
            } else if *name == "share" {
                explain_options(alloc, "domeweave share", &SHARE, rest)
            } else if *name == "fetch" {
                explain_options(alloc, "domeweave fetch", &FETCH, rest)
            } else if *name == "broker" {
                explain_options(alloc, "domeweave broker", &BROKER, rest)
            } else if *name == "world" {
                explain_options(alloc, "domeweave world", &WORLD, rest)
            } else if *name == "mirror" {
                explain_options(alloc, "domeweave mirror", &MIRROR, rest)
            } else {
                explain_command(alloc, name, words)
            }
        }
    }
}

fn explain_options<'a>(
    alloc: Global,
    name: &'a str,
    rows: &[Row<'a>],
    words: &'a [&'a str],
) -> Result<String, AllocError> {
    let mut command = command(alloc, name, rows)?;
    if asks_for_help(words) {
        return command.render_help();
    }
    match command.try_get_matches_from_mut(words) {
        Ok(_) => command.render_help(),
        Err(error) => format!(in alloc; "{error}"),
    }
}

/// What clap says of a word that is no command, and the list of those that are.
fn explain_command<'a>(
    alloc: Global,
    name: &str,
    words: &'a [&'a str],
) -> Result<String, AllocError> {
    let list = list_of_commands(alloc)?;
    if name == "help" || asks_for_help(words) {
        return Ok(list);
    }
    match program(alloc)?.try_get_matches_from(words) {
        Ok(_) => Ok(list),
        Err(error) => {
            let text = format!(in alloc; "{error}")?;
            format!(in alloc; "{}{}", without_usage(text.as_str()), list.as_str())
        }
    }
}

/// What clap says in front of its usage, with which the list of commands begins too.
fn without_usage(text: &str) -> &str {
    match text.split_once("Usage:") {
        Some((fault, _)) => fault,
        None => text,
    }
}

fn asks_for_help(words: &[&str]) -> bool {
    words.iter().any(|word| *word == "--help" || *word == "-h")
}

fn list_of_commands(alloc: Global) -> Result<String, AllocError> {
    program(alloc)?.render_help()
}

/// The program with its commands, each with a line of what it does.
fn program<'a>(alloc: Global) -> Result<Command<'a>, AllocError> {
    Command::new(alloc, "domeweave")
        .no_binary_name(true)
        .disable_help_flag(true)
        .disable_help_subcommand(true)
        .subcommand_required(true)
        .subcommand(named(
            alloc,
            "replay",
            "Run a script against a tape of a broker's bytes",
        ))?
        .subcommand(named(
            alloc,
            "share",
            "Run a script's tasks against a broker (not built yet)",
        ))?
        .subcommand(named(
            alloc,
            "fetch",
            "Fetch a thing's image from a broker (not built yet)",
        ))?
        .subcommand(named(alloc, "broker", "Be a broker (not built yet)"))?
        .subcommand(named(
            alloc,
            "world",
            "Play an agent and a broker over channels that lose packets",
        ))?
        .subcommand(named(
            alloc,
            "mirror",
            "Read a shadow's document on threads while its changes are published",
        ))
}

fn named<'a>(alloc: Global, name: &'a str, about: &'a str) -> Command<'a> {
    Command::new(alloc, name).about(about)
}
