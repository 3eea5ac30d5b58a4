//! One open command.

use agent_journal::Request;
use list_types::{Seq, Text};
use ordered_cells::Keyed;
use std::marker::Model;

/// A command that was sent and isn't complete. Contracts see the reading of that name.
#[derive(Debug, Drop)]
pub struct Pending {
    /// The identifier of its packet, above 0 (MQTT 3.1.1, section 2.3.1).
    pub id: u16,
    /// The task that asked.
    pub task: u32,
    /// The number of the request among those of its task, from 0.
    pub seq: u32,
    /// What was asked.
    pub request: Request,
    /// The filters that its UNSUBSCRIBE names: those of an unsubscribe that no other task needed when it was
    /// taken. Empty for any other request.
    pub sent_filters: Seq<Text>,
}

impl Model for Pending {
    ghost use Rattle.agent_journal.specs.Readings.{Pending as Command};

    ghost Value = { Command };

    ghost view = { λ p. record { id = p.id; task = p.task; seq = p.seq; request = p.request; sent_filters = p.sent_filters } };
}

impl Keyed for Pending {
    ghost key_of = { λ command. command.id };

    fn key(&self) -> u16 {
        self.id
    }
}
