//! How an agent is set up, and the phases that it goes through.

use list_types::Text;

/// How an agent is set up.
#[derive(Debug, Drop, PartialEq, Eq)]
pub struct Setup {
    /// The address of the broker.
    pub to: Text,
    /// The client identifier, 1 to 128 bytes from 21 to 7E hexadecimal.
    pub client: Text,
    /// In seconds. 0 turns the keep alive off.
    pub keep_alive: u16,
    /// How often a connection that broke is opened again before the agent gives up.
    pub reopen: u32,
    /// Whether an old session is wiped by a connection of its own.
    pub wipe: bool,
    /// How many tasks there are, 1 to 8.
    pub tasks: u32,
}

/// Where the agent stands.
#[derive(Clone, Copy, Debug, PartialEq, Eq)]
pub enum Phase {
    /// There is no connection.
    Down,
    /// A CONNECT was sent and not answered.
    Opening,
    /// The connection is accepted.
    Up,
    /// More came than there is room for, and the connection is about to be broken.
    Spilled,
    /// The agent has ended.
    Off,
}
