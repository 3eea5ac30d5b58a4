//! Parts of packets that have fields of their own.

ghost use Rattle.std.specs.Prelude.{◌≡◌, IfOk};

use crate::qos::Qos;
use list_types::{Blob, Copied, Text};
use std::alloc::{AllocError, Global};

/// One request of a SUBSCRIBE (MQTT 3.1.1, section 3.8.3).
#[derive(Debug, Drop, PartialEq, Eq)]
pub struct Ask {
    pub filter: Text,
    /// The greatest quality of service that the subscriber wants.
    pub qos: Qos,
}

/// What the server publishes when the connection is lost (MQTT 3.1.1, section 3.1.2.5).
#[derive(Debug, Drop, PartialEq, Eq)]
pub struct Will {
    pub topic: Text,
    pub message: Blob,
    pub qos: Qos,
    pub retain: bool,
}

impl Copied for Ask {
    fn copy(&self, alloc: Global) -> Result<Ask, AllocError> {
        Ok(Ask {
            filter: self.filter.copy(alloc)?,
            qos: self.qos,
        })
    }
}

impl Copied for Will {
    fn copy(&self, alloc: Global) -> Result<Will, AllocError> {
        Ok(Will {
            topic: self.topic.copy(alloc)?,
            message: self.message.copy(alloc)?,
            qos: self.qos,
            retain: self.retain,
        })
    }
}
