//! Quality of service.

ghost use Rattle.std.specs.Prelude.{◌≡◌, IfOk};

use list_types::Copied;
use std::alloc::{AllocError, Global};

/// Quality of service (MQTT 3.1.1, section 4.3).
#[derive(Clone, Copy, Debug, PartialEq, Eq)]
pub enum Qos {
    /// At most once, with no acknowledgement.
    AtMostOnce,
    /// At least once, acknowledged by PUBACK.
    AtLeastOnce,
    /// Exactly once, by PUBREC, PUBREL and PUBCOMP.
    ExactlyOnce,
}

impl Copied for Qos {
    fn copy(&self, _alloc: Global) -> Result<Qos, AllocError> {
        Ok(*self)
    }
}
