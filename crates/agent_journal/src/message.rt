//! Messages that tasks receive.

use list_types::{Blob, Copied, Text};
use mqtt_packet::Qos;
use std::alloc::{AllocError, Global};

/// An application message as a task receives it.
#[derive(Debug, Drop, PartialEq, Eq)]
pub struct Message {
    pub topic: Text,
    /// That of the delivery.
    pub qos: Qos,
    pub payload: Blob,
}

impl Copied for Message {
    fn copy(&self, alloc: Global) -> Result<Message, AllocError> {
        Ok(Message {
            topic: self.topic.copy(alloc)?,
            qos: self.qos,
            payload: self.payload.copy(alloc)?,
        })
    }
}
