//! What the agent does.

use crate::message::Message;
use crate::outcome::Outcome;
use mqtt_packet::Packet;

/// One thing that the agent does.
#[derive(Debug, Drop, PartialEq, Eq)]
pub enum Effect {
    /// It sends a packet on the present connection.
    Send {
        packet: Packet,
    },
    /// It completes command `seq` of a task.
    Done {
        task: u32,
        seq: u32,
        outcome: Outcome,
    },
    /// It passes a message to a task.
    Pass {
        task: u32,
        message: Message,
    },
    /// It tells a task that there will be no more messages.
    Closed {
        task: u32,
    },
}
