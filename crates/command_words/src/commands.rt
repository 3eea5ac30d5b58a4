//! The six commands, each read from the options that its table takes.

ghost use Rattle.std.specs.Prelude.{◌≡◌, ◌≤◌, [], true, IfOk, IfSome};
ghost use Rattle.command_words.specs.Commands as commands;
ghost use Rattle.command_words.specs.Given.{all_given, texts};
ghost use Rattle.command_words.specs.Names as names;
ghost use Rattle.command_words.specs.Ranges.{AreInRange, AreRunWords, AreFetchWords, AreBrokerWords};
ghost use Rattle.command_words.specs.Ranges.{AreWorldWords, AreMirrorWords, IsBlock};
ghost use Rattle.command_words.specs.Reading.{Gives};
ghost use Rattle.command_words.specs.Tables.{options_of};
ghost use Rattle.command_words.specs.Values.{is_address, number_or};

use crate::classes::Class;
use crate::faults::WordsFault;
use crate::given::{Given, is_given, value_of};
use crate::matches::options_of;
use crate::rows::{
    BLOCK, CLIENT, CONNECT, CONNECTIONS, DUMP, EVENTS, KEEP_ALIVE, LISTEN, READERS, READS, REOPEN,
    SEED, SIZE, THING, TICK, TRIES, WIPE,
};
use crate::tables::{BROKER, FETCH, MIRROR, REPLAY, SHARE, WORLD};
use crate::values::{number, number_or, text, text_or_none};
use crate::words::{BrokerWords, FetchWords, MirrorWords, RunWords, Size, Words, WorldWords};
use list_types::Text;
use plain_text::number_in;
use std::alloc::Global;

/// The command that the words behind the program's name spell.
#[tactic(auto, unfolding(crate::specs::Commands::words_of))]
pub fn read_words<'a>(alloc: Global, words: &'a [&'a str]) -> Result<Words, WordsFault>
    ensures words { Gives (λ words. words) result (commands.words_of (texts words.now)) }
    ensures ranges { IfOk result AreInRange }
{
    match words {
        [] => Err(WordsFault::Words),
        [command, rest @ ..] => read_command(alloc, command, rest),
    }
}

fn read_command<'a>(alloc: Global, command: &str, words: &'a [&'a str]) -> Result<Words, WordsFault>
    ensures words { Gives (λ words. words) result (commands.command_of command.now (texts words.now)) }
    ensures ranges { IfOk result AreInRange }
{
    if command == "replay" {
        let given = replay_options(alloc, words)?;
        Ok(Words::Replay(replay(alloc, given.as_slice())?))
    } else if command == "share" {
        let given = share_options(alloc, words)?;
        Ok(Words::Share(share(alloc, given.as_slice())?))
    } else if command == "fetch" {
        let given = fetch_options(alloc, words)?;
        Ok(Words::Fetch(fetch(alloc, given.as_slice())?))
    } else if command == "broker" {
        let given = broker_options(alloc, words)?;
        Ok(Words::Broker(broker(alloc, given.as_slice())?))
    } else if command == "world" {
        let given = world_options(alloc, words)?;
        Ok(Words::World(world(given.as_slice())?))
    } else if command == "mirror" {
        let given = mirror_options(alloc, words)?;
        Ok(Words::Mirror(mirror(given.as_slice())?))
    } else {
        Err(WordsFault::Words)
    }
}

#[tactic(auto, unfolding(crate::specs::Commands::replay_of))]
fn replay(alloc: Global, options: &[Given<'_>]) -> Result<RunWords, WordsFault>
    ensures words { Gives (λ words. words) result (commands.replay_of (all_given options.now)) }
    ensures ranges { IfOk result (λ words. AreRunWords words × (words.to ≡ [])) }
{
    let client = text(alloc, Class::Client, CLIENT.name, options)?;
    let keep_alive = keep_alive_in(options)?;
    let reopen = reopen_in(options)?;
    let tick = number_or(0, 0, 1_000_000, TICK.name, options)?;
    let size = size_or(Size::Usual, SIZE.name, options)?;
    let thing = text_or_none(alloc, Class::Thing, THING.name, options)?;
    let to = Text::from_str(alloc, "")?;
    Ok(RunWords {
        to,
        client,
        keep_alive,
        reopen,
        wipe: is_given(WIPE.name, options),
        tick,
        size,
        thing,
    })
}

#[tactic(auto, unfolding(crate::specs::Commands::share_of))]
fn share(alloc: Global, options: &[Given<'_>]) -> Result<RunWords, WordsFault>
    ensures words { Gives (λ words. words) result (commands.share_of (all_given options.now)) }
    ensures ranges { IfOk result (λ words. AreRunWords words × (is_address words.to ≡ true) × (words.tick ≡ 0)) }
{
    let to = text(alloc, Class::Address, CONNECT.name, options)?;
    let client = text(alloc, Class::Client, CLIENT.name, options)?;
    let keep_alive = keep_alive_in(options)?;
    let reopen = reopen_in(options)?;
    let size = size_or(Size::Usual, SIZE.name, options)?;
    let thing = text_or_none(alloc, Class::Thing, THING.name, options)?;
    Ok(RunWords {
        to,
        client,
        keep_alive,
        reopen,
        wipe: is_given(WIPE.name, options),
        tick: 0,
        size,
        thing,
    })
}

#[tactic(auto, unfolding(crate::specs::Commands::fetch_of))]
fn fetch(alloc: Global, options: &[Given<'_>]) -> Result<FetchWords, WordsFault>
    ensures words { Gives (λ words. words) result (commands.fetch_of (all_given options.now)) }
    ensures ranges { IfOk result AreFetchWords }
{
    let to = text(alloc, Class::Address, CONNECT.name, options)?;
    let client = text(alloc, Class::Client, CLIENT.name, options)?;
    let thing = text(alloc, Class::Thing, THING.name, options)?;
    let keep_alive = keep_alive_in(options)?;
    let reopen = reopen_in(options)?;
    let block = power_or(4_096, BLOCK.name, options)?;
    let tries = number_or(5, 0, 100, TRIES.name, options)? as u32;
    Ok(FetchWords {
        to,
        client,
        keep_alive,
        reopen,
        wipe: is_given(WIPE.name, options),
        thing,
        block,
        tries,
        dump: is_given(DUMP.name, options),
    })
}

#[tactic(auto, unfolding(crate::specs::Commands::broker_of))]
fn broker(alloc: Global, options: &[Given<'_>]) -> Result<BrokerWords, WordsFault>
    ensures words { Gives (λ words. words) result (commands.broker_of (all_given options.now)) }
    ensures ranges { IfOk result AreBrokerWords }
{
    let at = text(alloc, Class::Address, LISTEN.name, options)?;
    let connections = number(1, 1_000_000, CONNECTIONS.name, options)? as u32;
    Ok(BrokerWords { at, connections })
}

#[tactic(auto, unfolding(crate::specs::Commands::world_of))]
fn world(options: &[Given<'_>]) -> Result<WorldWords, WordsFault>
    ensures words { Gives (λ words. words) result (commands.world_of (all_given options.now)) }
    ensures ranges { IfOk result AreWorldWords }
{
    let seed = number(0, u64::MAX, SEED.name, options)?;
    let events = number(1, 1_000_000, EVENTS.name, options)? as u32;
    Ok(WorldWords { seed, events })
}

#[tactic(auto, unfolding(crate::specs::Commands::mirror_of))]
fn mirror(options: &[Given<'_>]) -> Result<MirrorWords, WordsFault>
    ensures words { Gives (λ words. words) result (commands.mirror_of (all_given options.now)) }
    ensures ranges { IfOk result AreMirrorWords }
{
    let readers = number(1, 8, READERS.name, options)? as u32;
    let reads = number(0, 1_000_000, READS.name, options)? as u32;
    Ok(MirrorWords { readers, reads })
}

// What clap reads of each command's words, by its table.

fn replay_options<'a>(alloc: Global, words: &'a [&'a str]) -> Result<Vec<Given<'a>>, WordsFault>
    ensures { Gives (λ given. all_given given.items) result (options_of commands.replay_table (texts words.now)) }
{
    options_of(alloc, "domeweave replay", &REPLAY, words)
}

fn share_options<'a>(alloc: Global, words: &'a [&'a str]) -> Result<Vec<Given<'a>>, WordsFault>
    ensures { Gives (λ given. all_given given.items) result (options_of commands.share_table (texts words.now)) }
{
    options_of(alloc, "domeweave share", &SHARE, words)
}

fn fetch_options<'a>(alloc: Global, words: &'a [&'a str]) -> Result<Vec<Given<'a>>, WordsFault>
    ensures { Gives (λ given. all_given given.items) result (options_of commands.fetch_table (texts words.now)) }
{
    options_of(alloc, "domeweave fetch", &FETCH, words)
}

fn broker_options<'a>(alloc: Global, words: &'a [&'a str]) -> Result<Vec<Given<'a>>, WordsFault>
    ensures { Gives (λ given. all_given given.items) result (options_of commands.broker_table (texts words.now)) }
{
    options_of(alloc, "domeweave broker", &BROKER, words)
}

fn world_options<'a>(alloc: Global, words: &'a [&'a str]) -> Result<Vec<Given<'a>>, WordsFault>
    ensures { Gives (λ given. all_given given.items) result (options_of commands.world_table (texts words.now)) }
{
    options_of(alloc, "domeweave world", &WORLD, words)
}

fn mirror_options<'a>(alloc: Global, words: &'a [&'a str]) -> Result<Vec<Given<'a>>, WordsFault>
    ensures { Gives (λ given. all_given given.items) result (options_of commands.mirror_table (texts words.now)) }
{
    options_of(alloc, "domeweave mirror", &MIRROR, words)
}

/// The keep alive in seconds, 60 where it isn't given.
fn keep_alive_in(options: &[Given<'_>]) -> Result<u16, WordsFault>
    ensures { Gives (λ number. number) result (number_or 60 0 65535 names.keep_alive (all_given options.now)) }
{
    Ok(number_or(60, 0, 65_535, KEEP_ALIVE.name, options)? as u16)
}

/// How often a broken connection is opened again, 5 where it isn't given.
fn reopen_in(options: &[Given<'_>]) -> Result<u32, WordsFault>
    ensures number { Gives (λ number. number) result (number_or 5 0 1000 names.reopen (all_given options.now)) }
    ensures small { IfOk result (λ number. number ≤ 1000) }
{
    Ok(number_or(5, 0, 1_000, REOPEN.name, options)? as u32)
}

/// `tiny` or `usual`.
#[tactic(auto, unfolding(crate::specs::Commands::size_or))]
fn size_or(default: Size, name: &str, options: &[Given<'_>]) -> Result<Size, WordsFault>
    ensures { Gives (λ size. size) result (commands.size_or default name.now (all_given options.now)) }
{
    match value_of(name, options) {
        Some(value) => size_in(value).ok_or(WordsFault::Words),
        None => Ok(default),
    }
}

fn size_in(value: &str) -> Option<Size>
    ensures { result ≡ commands.size_in value.now }
{
    if value == "tiny" {
        Some(Size::Tiny)
    } else if value == "usual" {
        Some(Size::Usual)
    } else {
        None
    }
}

/// A power of two, or its default.
#[tactic(auto, unfolding(crate::specs::Commands::power_or))]
fn power_or(default: u32, name: &str, options: &[Given<'_>]) -> Result<u32, WordsFault>
    requires { IsBlock default }
    ensures power { Gives (λ power. power) result (commands.power_or default name.now (all_given options.now)) }
    ensures block { IfOk result IsBlock }
{
    match value_of(name, options) {
        Some(value) => power_in(value).ok_or(WordsFault::Words),
        None => Ok(default),
    }
}

fn power_in(value: &str) -> Option<u32>
    ensures power { result ≡ commands.power_in value.now }
    ensures block { IfSome result IsBlock }
{
    let number = number_in(256, 65_536, value.as_bytes())? as u32;
    if number.is_power_of_two() {
        Some(number)
    } else {
        None
    }
}
