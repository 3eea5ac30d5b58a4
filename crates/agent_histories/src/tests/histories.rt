//! Histories as text. A line is what happens to the agent, and the effects of that, each behind ` > `. Behind
//! `take` stand the task, the number of the request and the request. What has no row has the effect `no row`.

ghost use Rattle.std.specs.Prelude.{◌≡◌, true, IfOk};
ghost use Rattle.agent_journal.specs.Setups.{is_client};

use super::texts::{read, write_effects};
use agent_core::Core;
use agent_journal::{Cause, Entry, Request, Setup, Why};
use list_types::{Blob, Seq, Text};
use mqtt_packet::{Ask, Packet, Qos};
use std::alloc::{AllocError, Global};

/// An agent with room for two open commands, two held identifiers and nine routes.
pub type Small = Core<2, 2, 9>;

/// Such an agent of one to eight tasks, which opens one connection more where one broke.
pub fn agent(alloc: Global, tasks: u32, wipe: bool) -> Option<Small> {
    let setup = setup(alloc, tasks, wipe).ok()?;
    if setup.tasks == 0 || 8 < setup.tasks {
        return None;
    }
    Core::new(alloc, setup).ok()
}

#[tactic(auto, unfolding(agent_journal::specs::Setups::is_client))]
fn setup(alloc: Global, tasks: u32, wipe: bool) -> Result<Setup, AllocError>
    ensures reopen { IfOk result (λ setup. setup.reopen ≡ 1) }
    ensures client { IfOk result (λ setup. is_client setup.client ≡ true) }
{
    Ok(Setup {
        to: Text::from_str(alloc, "")?,
        client: Text::from_str(alloc, "dev")?,
        keep_alive: 60,
        reopen: 1,
        wipe,
        tasks,
    })
}

/// The number of the first line that doesn't come about, counted from 0.
pub fn differs(alloc: Global, tasks: u32, wipe: bool, history: &str) -> Option<usize> {
    let Some(mut core) = agent(alloc, tasks, wipe) else {
        return Some(0);
    };
    for (k, line) in history.lines().enumerate() {
        if !comes(&mut core, alloc, line) {
            return Some(k);
        }
    }
    None
}

/// Whether what a line says happens, and has just the effects that it names.
fn comes(core: &mut Small, alloc: Global, line: &str) -> bool {
    match cause_of(alloc, line) {
        Some(cause) => has_effects(core, alloc, cause, line),
        None => false,
    }
}

fn has_effects(core: &mut Small, alloc: Global, cause: Cause, line: &str) -> bool {
    match entered(core, 0, cause) {
        Some(entry) => match write_effects(alloc, &entry.effects) {
            Ok(text) => ends_with(line, text.as_str()),
            Err(_) => false,
        },
        None => ends_with(line, " > no row"),
    }
}

/// Whether these are all effects of a line.
fn ends_with(line: &str, effects: &str) -> bool {
    match line.as_bytes().strip_suffix(effects.as_bytes()) {
        Some(cause) => !cause.contains(&b'>'),
        None => false,
    }
}

/// The entry of a cause, where it has a row.
pub fn entered<const ACKS: usize, const IN: usize, const ROUTES: usize>(
    core: &mut Core<ACKS, IN, ROUTES>,
    at: u64,
    cause: Cause,
) -> Option<Entry> {
    if !core.may(at, &cause) {
        return None;
    }
    match core.step(at, cause) {
        Ok(entry) => Some(entry),
        Err(_) => None,
    }
}

/// Makes the entry of a cause, and says whether it has a row.
pub fn enters<const ACKS: usize, const IN: usize, const ROUTES: usize>(
    core: &mut Core<ACKS, IN, ROUTES>,
    at: u64,
    cause: Cause,
) -> bool {
    match entered(core, at, cause) {
        Some(_) => true,
        None => false,
    }
}

/// The first connection is accepted.
pub fn is_accepted(core: &mut Small) -> bool {
    let (present, code) = (false, 0);
    let packet = Packet::ConnAck { present, code };
    enters(core, 0, Cause::Opened) && enters(core, 0, Cause::Arrived { packet })
}

/// The word at this place, or an empty one.
fn word(line: &str, at: usize) -> &str {
    match line.split(' ').nth(at) {
        Some(word) => word,
        None => "",
    }
}

fn digit(line: &str, at: usize) -> u8 {
    match word(line, at).as_bytes().first() {
        Some(digit) => digit.wrapping_sub(b'0'),
        None => 0,
    }
}

fn cause_of(alloc: Global, line: &str) -> Option<Cause> {
    match word(line, 0) {
        "opened" => Some(Cause::Opened),
        "arrived" => Some(Cause::Arrived {
            packet: read(alloc, word(line, 1))?,
        }),
        "broke" => Some(Cause::Broke {
            why: why_of(word(line, 1))?,
        }),
        "gaveup" => Some(Cause::GaveUp),
        "finish" => Some(Cause::Finish),
        "take" => Some(Cause::Take {
            task: u32::from(digit(line, 1)),
            seq: u32::from(digit(line, 2)),
            request: request_of(alloc, line)?,
        }),
        _ => None,
    }
}

fn why_of(word: &str) -> Option<Why> {
    match word {
        "fault" => Some(Why::Fault),
        "end" => Some(Why::End),
        "idle" => Some(Why::Idle),
        "bad" => Some(Why::Bad { at: 4 }),
        "toolong" => Some(Why::TooLong { len: 300_000 }),
        "infull" => Some(Why::InFull),
        _ => None,
    }
}

fn request_of(alloc: Global, line: &str) -> Option<Request> {
    match word(line, 3) {
        "publish" => publish(alloc, digit(line, 4), word(line, 5), word(line, 6)).ok(),
        "subscribe" => subscribe(alloc, line).ok(),
        "unsubscribe" => unsubscribe(alloc, word(line, 4)).ok(),
        "ping" => Some(Request::Ping),
        "disconnect" => Some(Request::Disconnect),
        "terminate" => Some(Request::Terminate),
        "leave" => Some(Request::Leave),
        _ => None,
    }
}

fn qos_of(level: u8) -> Qos {
    match level {
        0 => Qos::AtMostOnce,
        1 => Qos::AtLeastOnce,
        _ => Qos::ExactlyOnce,
    }
}

pub fn publish(
    alloc: Global,
    level: u8,
    topic: &str,
    payload: &str,
) -> Result<Request, AllocError> {
    Ok(Request::Publish {
        qos: qos_of(level),
        topic: Text::from_str(alloc, topic)?,
        payload: Blob::from_vec(payload.as_bytes().to_vec(alloc)?),
    })
}

/// A subscribe to each filter up to `>`, each with its quality of service before it.
fn subscribe(alloc: Global, line: &str) -> Result<Request, AllocError> {
    let mut asks = Seq::new(alloc);
    for k in 0..8usize {
        let at = 2 * k + 4;
        if word(line, at).is_empty() || word(line, at) == ">" {
            break;
        }
        asks.push(Ask {
            filter: Text::from_str(alloc, word(line, at + 1))?,
            qos: qos_of(digit(line, at)),
        })?;
    }
    Ok(Request::Subscribe { asks })
}

fn unsubscribe(alloc: Global, filter: &str) -> Result<Request, AllocError> {
    let mut filters = Seq::new(alloc);
    filters.push(Text::from_str(alloc, filter)?)?;
    Ok(Request::Unsubscribe { filters })
}
