//! What a saved session says, as plain data.

use agent_journal::{OffBy, Phase};
use list_types::{Seq, Text};
use mqtt_packet::{Filters, Packet, Qos};

/// What an agent reads off its journal, as it is saved. Its records stand in the order of the text.
#[derive(Debug, Drop)]
pub struct Session {
    pub connections: Connections,
    /// Bit t is set where task t has left.
    pub left: u8,
    /// How many requests of each task were taken: eight numbers, those of tasks that there aren't 0.
    pub taken: Seq<u64>,
    pub last: Last,
    /// The identifiers of QoS 2 messages that came and await PUBREL, in the order in which they came.
    pub held: Seq<u16>,
    /// The open commands, in the order in which they were taken.
    pub commands: Seq<Command>,
    /// The identifiers that await PUBCOMP, in the order of their first PUBRECs.
    pub released: Seq<u16>,
    /// The granted routes, in the order of task and filter.
    pub routes: Seq<Route>,
}

/// Where the agent stands, and how its connections went.
#[derive(Clone, Copy, Debug, PartialEq, Eq)]
pub struct Connections {
    pub phase: Phase,
    /// How the agent came to Off.
    pub off: Option<OffBy>,
    /// Whether no CONNACK was accepted yet but on a connection that wiped an old session.
    pub first: bool,
    /// Whether a CONNACK was accepted.
    pub accepted: bool,
    /// How many connections or openings broke since the last accepted CONNACK.
    pub breaks: u32,
}

/// The newest entry, and the identifier that was drawn last.
#[derive(Clone, Copy, Debug, PartialEq, Eq)]
pub struct Last {
    /// Whether the entry sends.
    pub sends: bool,
    /// When it was, in milliseconds.
    pub time: u64,
    /// 0 before the first identifier.
    pub id: u16,
}

/// How far an open command came.
#[derive(Clone, Copy, Debug, PartialEq, Eq)]
pub enum Stage {
    /// It is no publish.
    NoPublish,
    /// A publish that was sent.
    Sent,
    /// A publish at QoS 2 whose PUBREC came.
    Released,
}

/// An open command.
#[derive(Debug, Drop)]
pub struct Command {
    pub task: u32,
    /// The number of the request among those of its task, from 0.
    pub seq: u32,
    pub stage: Stage,
    /// Its packet, as it was sent first.
    pub packet: Packet,
    /// Of an unsubscribe the filters that were asked for, of which the packet names those that no other task
    /// needed. Empty for any other command.
    pub filters: Filters,
}

/// A granted route.
#[derive(Debug, Drop)]
pub struct Route {
    pub task: u32,
    /// What a renewal of the filter asks for.
    pub qos: Qos,
    /// Whether the session was lost since a SUBACK granted the filter.
    pub unsure: bool,
    pub filter: Text,
}

/// How much an agent may have open.
#[derive(Clone, Copy, Debug, PartialEq, Eq)]
pub struct Bounds {
    /// How many tasks there are, 1 to 8.
    pub tasks: u32,
    /// How many commands may be open.
    pub acks: usize,
    /// How many identifiers may be held.
    pub inbound: usize,
    /// How many routes there may be.
    pub routes: usize,
}
