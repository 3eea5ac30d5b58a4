//! The events of the world.

use agent_journal::Request;
use mqtt_packet::Qos;

/// One thing that happens in the world.
#[derive(Debug, Drop)]
pub enum Event {
    /// The task's next request is taken.
    Take(Request),
    /// The first packet under way to the broker comes to it.
    DeliverUp,
    /// The first packet under way to the agent arrives.
    DeliverDown,
    /// The connection breaks, and all packets under way are lost.
    Break,
    /// The agent opens a connection.
    Reopen,
    /// The broker publishes a message of its own on `in/a`, whose payload is the number of those before it, in 4 bytes.
    LocalPublish { qos: Qos },
    /// The agent does what is due.
    Tick,
}

/// What came of an event.
#[derive(Clone, Copy, Debug, PartialEq, Eq)]
pub enum Played {
    /// It happened.
    Yes,
    /// It couldn't happen: no packet is under way, or the agent or the broker isn't in a phase for it, or nothing is due.
    Skipped,
}
