//! What a task keeps of its commands.

ghost use Rattle.std.specs.Prelude.{◌≡◌, ◌≤◌, ◌+◌, length};
ghost use Rattle.std.specs.Vec.{vec_capacity};
ghost use Rattle.task_end.specs.Commands.{waiting};

use crate::command::Command;
use crate::outcome_log::Logged;

/// The commands whose tickets are out, the oldest first, and the outcomes of all that were completed, with room for those that
/// are waited for.
#[derive(Drop)]
pub struct Commands {
    /// How many were submitted.
    pub(crate) next: u32,
    pub(crate) out: Vec<Command>,
    pub(crate) log: Vec<(u32, Logged)>,
    ghost counted: { length log.items + length (waiting out.items) ≡ next },
    ghost few: { next ≤ 4000000000 },
    ghost room: { next ≤ vec_capacity log },
}
