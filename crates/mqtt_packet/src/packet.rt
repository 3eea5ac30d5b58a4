//! The fourteen control packets.

ghost use Rattle.std.specs.Prelude.{◌≡◌, IfOk};

use crate::qos::Qos;
use crate::will::{Ask, Will};
use list_types::{Blob, Copied, Seq, Text};
use std::alloc::{AllocError, Global};

/// A control packet (MQTT 3.1.1, chapter 3). A packet identifier is above 0, and that of a PUBLISH
/// is 0 exactly where its quality of service is at most once.
#[derive(Debug, Drop, PartialEq, Eq)]
pub enum Packet {
    /// A client asks for a connection (section 3.1). `keep_alive` is in seconds.
    Connect {
        clean: bool,
        keep_alive: u16,
        client: Text,
        will: Option<Will>,
        user: Option<Text>,
        password: Option<Blob>,
    },
    /// The server's answer to it (section 3.2). `present` says that it kept a session; `code` 0 accepts.
    ConnAck {
        present: bool,
        code: u8,
    },
    /// An application message (section 3.3).
    Publish {
        dup: bool,
        qos: Qos,
        retain: bool,
        topic: Text,
        id: u16,
        payload: Blob,
    },
    /// Ends a delivery at least once (section 3.4).
    PubAck {
        id: u16,
    },
    /// First answer to a delivery exactly once (section 3.5).
    PubRec {
        id: u16,
    },
    /// Releases the identifier of such a delivery (section 3.6).
    PubRel {
        id: u16,
    },
    /// Ends such a delivery (section 3.7).
    PubComp {
        id: u16,
    },
    /// Asks for messages (section 3.8).
    Subscribe {
        id: u16,
        asks: Seq<Ask>,
    },
    /// The server's answer, a code for each filter (section 3.9).
    SubAck {
        id: u16,
        codes: Seq<u8>,
    },
    /// Ends subscriptions (section 3.10).
    Unsubscribe {
        id: u16,
        filters: Seq<Text>,
    },
    /// The server's answer to it (section 3.11).
    UnsubAck {
        id: u16,
    },
    /// Asks whether the server is there (section 3.12).
    PingReq,
    /// It is (section 3.13).
    PingResp,
    /// The client closes (section 3.14).
    Disconnect,
}

impl Copied for Packet {
    fn copy(&self, alloc: Global) -> Result<Packet, AllocError> {
        Ok(match self {
            Packet::Connect {
                clean,
                keep_alive,
                client,
                will,
                user,
                password,
            } => Packet::Connect {
                clean: *clean,
                keep_alive: *keep_alive,
                client: client.copy(alloc)?,
                will: will.copy(alloc)?,
                user: user.copy(alloc)?,
                password: password.copy(alloc)?,
            },
            Packet::ConnAck { present, code } => Packet::ConnAck {
                present: *present,
                code: *code,
            },
            Packet::Publish {
                dup,
                qos,
                retain,
                topic,
                id,
                payload,
            } => Packet::Publish {
                dup: *dup,
                qos: *qos,
                retain: *retain,
                topic: topic.copy(alloc)?,
                id: *id,
                payload: payload.copy(alloc)?,
            },
            Packet::PubAck { id } => Packet::PubAck { id: *id },
            Packet::PubRec { id } => Packet::PubRec { id: *id },
            Packet::PubRel { id } => Packet::PubRel { id: *id },
            Packet::PubComp { id } => Packet::PubComp { id: *id },
            Packet::Subscribe { id, asks } => Packet::Subscribe {
                id: *id,
                asks: asks.copy(alloc)?,
            },
            Packet::SubAck { id, codes } => Packet::SubAck {
                id: *id,
                codes: codes.copy(alloc)?,
            },
            Packet::Unsubscribe { id, filters } => Packet::Unsubscribe {
                id: *id,
                filters: filters.copy(alloc)?,
            },
            Packet::UnsubAck { id } => Packet::UnsubAck { id: *id },
            Packet::PingReq => Packet::PingReq,
            Packet::PingResp => Packet::PingResp,
            Packet::Disconnect => Packet::Disconnect,
        })
    }
}
