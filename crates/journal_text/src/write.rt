//! The printed lines of an entry.

ghost use Rattle.std.specs.Prelude.{◌≡◌, ◌++◌, true, codes, decimal, IsErrOf};
ghost use Rattle.std.specs.List.{flat_map, AllByRecursion};
ghost use Rattle.hex.specs.Hex.{encode_lower};
ghost use Rattle.agent_link.specs.Counts.{counted};
ghost use Rattle.agent_link.specs.Writes.{Writes};
ghost use Rattle.agent_journal.specs.Sound.{IsSoundEntry, IsSoundCause, IsSoundEffect};
ghost use Rattle.journal_text.specs.Texts as texts;

use crate::parts::{Part, write_parts};
use agent_journal::{Cause, Effect, Entry, Outcome, Request, Why};
use agent_link::{Fault, Sink, write_all};
use list_types::{Blob, Text};
use mqtt_packet::{Ask, Qos};

/// Writes the lines of an entry: one for its cause and one for each effect. After a fault a front
/// of them was written. It takes no memory of its own.
#[tactic(auto, unfolding(crate::specs::Texts::entry_text))]
pub fn write_entry<O: Sink>(out: &mut O, entry: &Entry) -> Result<(), Fault>
    requires { IsSoundEntry entry.now }
    ensures text { Writes (O.written out.old) (O.written out.new) result (texts.entry_text entry.now) }
    ensures cause { O.faults out.new ≡ counted result (O.faults out.old) }
{
    write_line(out, entry)?;
    write_effects(out, entry.effects.as_slice())
}

fn write_line<O: Sink>(out: &mut O, entry: &Entry) -> Result<(), Fault>
    requires { IsSoundCause entry.now.cause }
    ensures text { Writes (O.written out.old) (O.written out.new) result (texts.cause_line entry.now.at entry.now.cause) }
    ensures cause { O.faults out.new ≡ counted result (O.faults out.old) }
{
    let at = entry.at;
    match &entry.cause {
        Cause::Opened => write_parts(
            out,
            &[
                Part::Plain(b"@"),
                Part::Number(at),
                Part::Plain(b" opened\n"),
            ],
        ),
        Cause::Take { task, seq, request } => write_take(out, at, *task, *seq, request),
        Cause::Arrived { packet } => write_parts(
            out,
            &[
                Part::Plain(b"@"),
                Part::Number(at),
                Part::Plain(b" arrived "),
                Part::Spelled(packet),
                Part::Plain(b"\n"),
            ],
        ),
        Cause::Broke { why } => write_broke(out, at, *why),
        Cause::Tick => write_parts(
            out,
            &[Part::Plain(b"@"), Part::Number(at), Part::Plain(b" tick\n")],
        ),
        Cause::GaveUp => write_parts(
            out,
            &[
                Part::Plain(b"@"),
                Part::Number(at),
                Part::Plain(b" gaveup\n"),
            ],
        ),
        Cause::Finish => write_parts(
            out,
            &[
                Part::Plain(b"@"),
                Part::Number(at),
                Part::Plain(b" finish\n"),
            ],
        ),
    }
}

fn write_take<O: Sink>(
    out: &mut O,
    at: u64,
    task: u32,
    seq: u32,
    request: &Request,
) -> Result<(), Fault>
    ensures text { Writes (O.written out.old) (O.written out.new) result (texts.take_line at task seq request.now) }
    ensures cause { O.faults out.new ≡ counted result (O.faults out.old) }
{
    match request {
        Request::Publish {
            qos,
            topic,
            payload,
        } => write_publish(out, at, task, seq, *qos, topic, payload),
        Request::Subscribe { asks } => write_subscribe(out, at, task, seq, asks.as_slice()),
        Request::Unsubscribe { filters } => write_unsubscribe(
            out,
            at,
            task,
            seq,
            filters.as_slice(),
        ),
        Request::Ping => write_word(out, at, task, seq, b" ping\n"),
        Request::Disconnect => write_word(out, at, task, seq, b" disconnect\n"),
        Request::Terminate => write_word(out, at, task, seq, b" terminate\n"),
        Request::Leave => write_word(out, at, task, seq, b" leave\n"),
    }
}

fn write_publish<'a, O: Sink>(
    out: &mut O,
    at: u64,
    task: u32,
    seq: u32,
    qos: Qos,
    topic: &'a Text,
    payload: &'a Blob,
) -> Result<(), Fault>
    ensures text { Writes (O.written out.old) (O.written out.new) result (texts.publish_line at task seq qos topic.now payload.now) }
    ensures cause { O.faults out.new ≡ counted result (O.faults out.old) }
{
    write_parts(
        out,
        &[
            Part::Plain(b"@"),
            Part::Number(at),
            Part::Plain(b" take "),
            Part::Number(u64::from(task)),
            Part::Plain(b" "),
            Part::Number(u64::from(seq)),
            Part::Plain(b" publish "),
            Part::Plain(qos_word(qos).as_bytes()),
            Part::Plain(b" "),
            Part::Escaped(topic.as_bytes()),
            Part::Plain(b" "),
            Part::Payload(payload.as_slice()),
            Part::Plain(b"\n"),
        ],
    )
}

/// The line of a Take up to its request, and then a word.
fn write_word<O: Sink>(out: &mut O, at: u64, task: u32, seq: u32, word: &[u8]) -> Result<(), Fault>
    ensures text { Writes (O.written out.old) (O.written out.new) result (texts.word_line at task seq word.now) }
    ensures cause { O.faults out.new ≡ counted result (O.faults out.old) }
{
    write_parts(
        out,
        &[
            Part::Plain(b"@"),
            Part::Number(at),
            Part::Plain(b" take "),
            Part::Number(u64::from(task)),
            Part::Plain(b" "),
            Part::Number(u64::from(seq)),
            Part::Plain(word),
        ],
    )
}

fn write_subscribe<O: Sink>(
    out: &mut O,
    at: u64,
    task: u32,
    seq: u32,
    asks: &[Ask],
) -> Result<(), Fault>
    ensures text { Writes (O.written out.old) (O.written out.new) result (texts.subscribe_line at task seq asks.now) }
    ensures cause { O.faults out.new ≡ counted result (O.faults out.old) }
{
    write_word(out, at, task, seq, b" subscribe")?;
    write_asks(out, asks)?;
    write_all(out, b"\n")
}

fn write_asks<O: Sink>(out: &mut O, asks: &[Ask]) -> Result<(), Fault>
    ensures text { Writes (O.written out.old) (O.written out.new) result (flat_map texts.ask_text asks.now) }
    ensures cause { O.faults out.new ≡ counted result (O.faults out.old) }
{
    for ask in asks {
        write_ask(out, ask)?;
    }
    Ok(())
}

fn write_ask<O: Sink>(out: &mut O, ask: &Ask) -> Result<(), Fault>
    ensures text { Writes (O.written out.old) (O.written out.new) result (texts.ask_text ask.now) }
    ensures cause { O.faults out.new ≡ counted result (O.faults out.old) }
{
    let qos = qos_word(ask.qos).as_bytes();
    write_parts(
        out,
        &[
            Part::Plain(b" "),
            Part::Escaped(ask.filter.as_bytes()),
            Part::Plain(b" "),
            Part::Plain(qos),
        ],
    )
}

fn write_unsubscribe<O: Sink>(
    out: &mut O,
    at: u64,
    task: u32,
    seq: u32,
    filters: &[Text],
) -> Result<(), Fault>
    ensures text { Writes (O.written out.old) (O.written out.new) result (texts.unsubscribe_line at task seq filters.now) }
    ensures cause { O.faults out.new ≡ counted result (O.faults out.old) }
{
    write_word(out, at, task, seq, b" unsubscribe")?;
    write_filters(out, filters)?;
    write_all(out, b"\n")
}

fn write_filters<O: Sink>(out: &mut O, filters: &[Text]) -> Result<(), Fault>
    ensures text { Writes (O.written out.old) (O.written out.new) result (flat_map texts.filter_text filters.now) }
    ensures cause { O.faults out.new ≡ counted result (O.faults out.old) }
{
    for filter in filters {
        write_filter(out, filter)?;
    }
    Ok(())
}

fn write_filter<O: Sink>(out: &mut O, filter: &Text) -> Result<(), Fault>
    ensures text { Writes (O.written out.old) (O.written out.new) result (texts.filter_text filter.now) }
    ensures cause { O.faults out.new ≡ counted result (O.faults out.old) }
{
    write_parts(out, &[Part::Plain(b" "), Part::Escaped(filter.as_bytes())])
}

fn write_broke<O: Sink>(out: &mut O, at: u64, why: Why) -> Result<(), Fault>
    ensures text { Writes (O.written out.old) (O.written out.new) result (texts.broke_line at why) }
    ensures cause { O.faults out.new ≡ counted result (O.faults out.old) }
{
    write_parts(
        out,
        &[
            Part::Plain(b"@"),
            Part::Number(at),
            Part::Plain(b" broke "),
            Part::Plain(why_word(why).as_bytes()),
            Part::Count(why_count(why)),
            Part::Plain(b"\n"),
        ],
    )
}

fn why_word(why: Why) -> &'static str
    ensures { result.now ≡ texts.why_word why }
{
    match why {
        Why::Fault => "fault",
        Why::End => "end",
        Why::Idle => "idle",
        Why::Bad { .. } => "bad ",
        Why::TooLong { .. } => "long ",
        Why::KeepAlive => "keepalive",
        Why::InFull => "infull",
    }
}

/// The number behind the word of a break.
fn why_count(why: Why) -> Option<u64>
    ensures { result ≡ texts.why_count why }
{
    match why {
        Why::Bad { at } => Some(at),
        Why::TooLong { len } => Some(len),
        Why::Fault | Why::End | Why::Idle | Why::KeepAlive | Why::InFull => None,
    }
}

fn write_effects<O: Sink>(out: &mut O, effects: &[Effect]) -> Result<(), Fault>
    requires { AllByRecursion IsSoundEffect effects.now }
    ensures text { Writes (O.written out.old) (O.written out.new) result (flat_map texts.effect_text effects.now) }
    ensures cause { O.faults out.new ≡ counted result (O.faults out.old) }
{
    for effect in effects {
        write_effect(out, effect)?;
    }
    Ok(())
}

fn write_effect<O: Sink>(out: &mut O, effect: &Effect) -> Result<(), Fault>
    requires { IsSoundEffect effect.now }
    ensures text { Writes (O.written out.old) (O.written out.new) result (texts.effect_text effect.now) }
    ensures cause { O.faults out.new ≡ counted result (O.faults out.old) }
{
    match effect {
        Effect::Send { packet } => write_parts(
            out,
            &[
                Part::Plain(b"  send "),
                Part::Spelled(packet),
                Part::Plain(b"\n"),
            ],
        ),
        Effect::Done { task, seq, outcome } => write_done(out, *task, *seq, outcome),
        Effect::Pass { task, message } => write_parts(
            out,
            &[
                Part::Plain(b"  pass "),
                Part::Number(u64::from(*task)),
                Part::Plain(b" "),
                Part::Plain(qos_word(message.qos).as_bytes()),
                Part::Plain(b" "),
                Part::Escaped(message.topic.as_bytes()),
                Part::Plain(b" "),
                Part::Payload(message.payload.as_slice()),
                Part::Plain(b"\n"),
            ],
        ),
        Effect::Closed { task } => write_parts(
            out,
            &[
                Part::Plain(b"  closed "),
                Part::Number(u64::from(*task)),
                Part::Plain(b"\n"),
            ],
        ),
    }
}

fn write_done<O: Sink>(out: &mut O, task: u32, seq: u32, outcome: &Outcome) -> Result<(), Fault>
    ensures text { Writes (O.written out.old) (O.written out.new) result (texts.done_line task seq outcome.now) }
    ensures cause { O.faults out.new ≡ counted result (O.faults out.old) }
{
    write_parts(
        out,
        &[
            Part::Plain(b"  done "),
            Part::Number(u64::from(task)),
            Part::Plain(b" "),
            Part::Number(u64::from(seq)),
            Part::Plain(b" "),
            Part::Plain(outcome_word(outcome).as_bytes()),
            Part::Hex(outcome_codes(outcome)),
            Part::Plain(b"\n"),
        ],
    )
}

fn outcome_word(outcome: &Outcome) -> &'static str
    ensures { result.now ≡ texts.outcome_word outcome.now }
{
    match outcome {
        Outcome::Done => "done",
        Outcome::Granted { .. } => "granted ",
        Outcome::NoRoom => "noroom",
        Outcome::NoRoute => "noroute",
        Outcome::NotConnected => "notconnected",
        Outcome::LinkLost => "linklost",
        Outcome::SessionLost => "sessionlost",
        Outcome::Cancelled => "cancelled",
        Outcome::NoMemory => "nomemory",
    }
}

/// The codes behind the word of an outcome.
fn outcome_codes(outcome: &Outcome) -> &[u8]
    ensures { result.now ≡ texts.outcome_codes outcome.now }
{
    match outcome {
        Outcome::Granted { codes } => codes.as_slice(),
        Outcome::Done
        | Outcome::NoRoom
        | Outcome::NoRoute
        | Outcome::NotConnected
        | Outcome::LinkLost
        | Outcome::SessionLost
        | Outcome::Cancelled
        | Outcome::NoMemory => &[],
    }
}

fn qos_word(qos: Qos) -> &'static str
    ensures { result.now ≡ texts.qos_text qos }
{
    match qos {
        Qos::AtMostOnce => "0",
        Qos::AtLeastOnce => "1",
        Qos::ExactlyOnce => "2",
    }
}
