//! Scripts: what the tasks of a run ask, line by line.

ghost use Rattle.std.specs.Prelude.{◌≡◌};

use agent_journal::Request;
use list_types::{Blob, Seq, Text};
use std::alloc::AllocFailed;

/// What a script's line asks of its task.
#[derive(Debug, Drop, PartialEq, Eq)]
pub enum Step {
    /// To submit a request.
    Do(Request),
    /// To publish on a shadow topic of the thing.
    Shadow {
        op: Text,
        name: Option<Text>,
        payload: Blob,
    },
    /// To publish on a jobs topic of the thing.
    Jobs {
        op: Text,
        job: Option<Text>,
        payload: Blob,
    },
    /// To collect all tickets before it goes on.
    Wait,
    /// To take so many messages before it goes on.
    Listen(u32),
}

/// A line of a script.
#[derive(Debug, Drop, PartialEq, Eq)]
pub struct Line {
    /// Its number in the text, from 1.
    pub number: u64,
    /// The task that it belongs to.
    pub task: u32,
    pub step: Step,
}

/// What the tasks of a run do.
#[derive(Debug, Drop, PartialEq, Eq)]
pub struct Script {
    /// How many tasks there are, 1 to 8.
    pub tasks: u32,
    pub lines: Seq<Line>,
}

/// Why a text is no script.
#[derive(Clone, Copy, Debug, PartialEq, Eq)]
pub enum ScriptFault {
    /// The first line that isn't in the grammar, counted from 1. Where there is no line that says
    /// how many tasks there are, it is the number behind the last.
    Line(u64),
    /// Memory ran out.
    NoMemory,
}

impl<T: Drop> From<AllocFailed<T>> for ScriptFault {
    ghost use Rattle.agent_script.specs.declared.script.ScriptFault.TheVariants.{NoMemory};

    ghost from_gives = { λ _ e. e ≡ NoMemory };

    fn from(_: AllocFailed<T>) -> ScriptFault {
        ScriptFault::NoMemory
    }
}
