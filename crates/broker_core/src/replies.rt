//! What the broker answers.

use mqtt_packet::Resend;

/// Packets for the connection, in the order in which they are to be sent; `close` says that it ends behind them.
#[derive(Debug, Drop)]
pub struct Replies {
    pub packets: Resend,
    pub close: bool,
}
