//! The entries of a journal.

use crate::effect::Effect;
use crate::request::Request;
use list_types::Seq;
use mqtt_packet::Packet;

/// Why a connection broke.
#[derive(Clone, Copy, Debug, PartialEq, Eq)]
pub enum Why {
    /// A call of the link failed.
    Fault,
    /// The broker ended it.
    End,
    /// Nothing came for too long.
    Idle,
    /// The bytes from offset `at` on spell no packet.
    Bad { at: u64 },
    /// A packet of `len` bytes is above the limit.
    TooLong { len: u64 },
    /// A PINGREQ wasn't answered in time.
    KeepAlive,
    /// More QoS 2 messages were unreleased than there is room for.
    InFull,
}

/// What the agent answers to.
#[derive(Debug, Drop, PartialEq, Eq)]
pub enum Cause {
    /// A connection was opened.
    Opened,
    /// Request `seq` of a task was taken, counted from 0, its Leave included.
    Take {
        task: u32,
        seq: u32,
        request: Request,
    },
    /// A packet came.
    Arrived {
        packet: Packet,
    },
    /// The connection broke, or one couldn't be opened.
    Broke {
        why: Why,
    },
    /// The keep alive asks for a PINGREQ.
    Tick,
    /// Connections broke too often.
    GaveUp,
    /// All tasks have left, and nothing is open.
    Finish,
}

/// What happened, and what the agent did.
#[derive(Debug, Drop, PartialEq, Eq)]
pub struct Entry {
    /// When, in milliseconds.
    pub at: u64,
    pub cause: Cause,
    pub effects: Seq<Effect>,
}
