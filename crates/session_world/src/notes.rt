//! What is counted of the agent's journal, so that it needn't be kept.

ghost use Rattle.std.specs.Prelude.{◌≡◌, ◌+◌, ◌*◌, ◌^◌, ◌<◌, ◌≤◌, count_by, true, false, if◌then◌else◌};
ghost use Rattle.agent_journal.specs.Readings.{takes_behind, takes_by};
ghost use Rattle.agent_table.specs.Effects.{is_publish};
ghost use Rattle.agent_table.specs.Routes.{is_done};
ghost use Rattle.session_world.specs.Counts as counts;
ghost use Rattle.session_world.specs.Noted.{AreFew};

use agent_journal::{Cause, Effect, Entry, Outcome, Request};
use mqtt_packet::Packet;

/// Counts of a journal of one task.
#[derive(Clone, Copy, Debug, PartialEq, Eq)]
pub(crate) struct Notes {
    pub(crate) entries: u64,
    /// Requests that were taken.
    pub(crate) takes: u32,
    /// Publishes among them.
    pub(crate) published: u64,
    /// Publishes that are done.
    pub(crate) done: u128,
    /// Messages that were passed to the task.
    pub(crate) told: u128,
}

impl Notes {
    /// Of a journal without entries.
    pub(crate) fn new() -> Self
        ensures nothing { (result.entries ≡ 0) × (result.takes ≡ 0) × (result.published ≡ 0) × (result.done ≡ 0) × (result.told ≡ 0) }
        ensures few { AreFew result }
    {
        Notes {
            entries: 0,
            takes: 0,
            published: 0,
            done: 0,
            told: 0,
        }
    }

    /// Of one more entry.
    pub(crate) fn add(&mut self, entry: &Entry)
        requires room { self.old.entries < 4000000000 }
        requires few { AreFew self.old }
        ensures entries { self.new.entries ≡ self.old.entries + 1 }
        ensures takes { self.new.takes ≡ takes_behind 0 entry.now.cause self.old.takes }
        ensures published { self.new.published ≡ self.old.published + counts.published_by entry.now }
        ensures done { self.new.done ≡ self.old.done + counts.done_by entry.now }
        ensures told { self.new.told ≡ self.old.told + counts.told_by entry.now }
        ensures few { AreFew self.new }
    {
        self.entries += 1;
        self.takes += u32::from(is_take(&entry.cause));
        self.published += u64::from(takes_publish(&entry.cause));
        self.done += done_in(entry) as u128;
        self.told += told_in(entry.effects.as_slice()) as u128;
    }
}

/// Whether a cause is a Take of the one task.
fn is_take(cause: &Cause) -> bool
    ensures { result ≡ takes_by 0 cause.now }
{
    match cause {
        Cause::Take { task, .. } => *task == 0,
        _ => false,
    }
}

fn takes_publish(cause: &Cause) -> bool
    ensures { result ≡ counts.takes_publish cause.now }
{
    match cause {
        Cause::Take { request, .. } => is_publish(request),
        _ => false,
    }
}

fn is_publish(request: &Request) -> bool
    ensures { result ≡ is_publish request.now }
{
    match request {
        Request::Publish { .. } => true,
        _ => false,
    }
}

/// Whether the outcomes of an entry with this cause are of publishes.
fn completes_publish(cause: &Cause) -> bool
    ensures { result ≡ counts.completes_publish cause.now }
{
    match cause {
        Cause::Take { request, .. } => is_publish(request),
        Cause::Arrived { packet } => acknowledges_publish(packet),
        _ => false,
    }
}

fn acknowledges_publish(packet: &Packet) -> bool
    ensures { result ≡ counts.acknowledges_publish packet.now }
{
    match packet {
        Packet::PubAck { .. } | Packet::PubComp { .. } => true,
        _ => false,
    }
}

/// How many publishes an entry says are done.
fn done_in(entry: &Entry) -> usize
    ensures value { result ≡ counts.done_by entry.now }
    ensures small { result < 2 ^ 64 }
{
    if completes_publish(&entry.cause) {
        dones_in(entry.effects.as_slice())
    } else {
        0
    }
}

fn dones_in(effects: &[Effect]) -> usize
    ensures value { result ≡ count_by counts.says_done effects.now }
    ensures small { result < 2 ^ 64 }
{
    let mut count = 0;
    for effect in effects {
        if says_done(effect) {
            count += 1;
        }
    }
    count
}

fn says_done(effect: &Effect) -> bool
    ensures { result ≡ counts.says_done effect.now }
{
    match effect {
        Effect::Done { outcome, .. } => is_done(outcome),
        _ => false,
    }
}

fn is_done(outcome: &Outcome) -> bool
    ensures { result ≡ is_done outcome.now }
{
    match outcome {
        Outcome::Done => true,
        _ => false,
    }
}

/// How many messages these effects pass to the task.
fn told_in(effects: &[Effect]) -> usize
    ensures value { result ≡ count_by counts.is_pass effects.now }
    ensures small { result < 2 ^ 64 }
{
    let mut count = 0;
    for effect in effects {
        if is_pass(effect) {
            count += 1;
        }
    }
    count
}

fn is_pass(effect: &Effect) -> bool
    ensures { result ≡ counts.is_pass effect.now }
{
    match effect {
        Effect::Pass { .. } => true,
        _ => false,
    }
}
