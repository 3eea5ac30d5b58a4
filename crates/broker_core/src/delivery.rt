//! Copies of messages for one session.

use mqtt_packet::Qos;

/// A copy that was sent and isn't acknowledged (MQTT 3.1.1, section 4.3).
#[derive(Clone, Copy, Debug, PartialEq, Eq)]
pub struct Delivery {
    /// Its identifier, above 0, which no other unacknowledged delivery of the session has.
    pub id: u16,
    /// The place of its message among those that were passed on, counted from 0.
    pub place: usize,
    pub qos: Qos,
}

/// A copy that waits to be sent for the first time.
#[derive(Clone, Copy, Debug, PartialEq, Eq)]
pub struct Waiting {
    /// The place of its message among those that were passed on, counted from 0.
    pub place: usize,
    pub qos: Qos,
}
