//! A row of the agent's table.

use agent_journal::{Effects, Phase};
use std::marker::Model;

/// What the agent does at a cause, and where it stands then. Contracts see the table's row.
#[derive(Debug, Drop)]
pub struct Row {
    pub effects: Effects,
    pub phase: Phase,
}

impl Model for Row {
    ghost use Rattle.agent_table.specs.Rows.{Row as TableRow};

    ghost Value = { TableRow };

    ghost view = { λ r. record { effects = r.effects; phase = r.phase } };
}
