//! A script's steps, task by task.

ghost use Rattle.std.specs.Prelude.{◌≡◌, ℕ, ◌<◌, List, [], ◌∷◌, ◌++◌, length, replicate, IfOk, OnOk};
ghost use Rattle.std.specs.List.{AllByRecursion};
ghost use Rattle.agent_script.specs.declared.script.Line.{Line};
ghost use Rattle.share_work.specs.Parting.{AreStepsOf, HasTaskBelow};

use agent_script::{Line, Script, Step};
use list_types::Seq;
use std::alloc::{AllocError, Global};
use std::collections::VecDeque;

/// The steps of a task, in their order.
pub type Steps = Seq<Step>;

/// The steps of each task of a script, by the task's number.
pub fn parted(alloc: Global, script: Script) -> Result<Vec<Steps>, AllocError>
    requires tasks { AllByRecursion (HasTaskBelow script.tasks) script.lines }
    ensures { IfOk result (λ all. AreStepsOf script.tasks script.lines all.items) }
{
    let mut parts = none_of(alloc, script.tasks)?;
    let mut left = VecDeque::from_vec(script.lines.into_vec());
    'lines: while let Some(line) = left.pop_front() {
        add(&mut parts, line)?;
    }
    Ok(parts)
}

/// No step for each of so many tasks.
fn none_of(alloc: Global, tasks: u32) -> Result<Vec<Steps>, AllocError>
    ensures { IfOk result (λ all. all.items ≡ replicate tasks []) }
{
    let mut parts = Vec::new(alloc);
    for _ in 0..tasks {
        parts.push(Seq::new(alloc))?;
    }
    Ok(parts)
}

/// One line more, for its task.
fn add(parts: &mut Vec<Steps>, line: Line) -> Result<(), AllocError>
    requires task { line.task < length parts.old.items }
    ensures { (tasks : ℕ) (lines : List Line) → AreStepsOf tasks lines parts.old.items → OnOk result (AreStepsOf tasks (lines ++ line ∷ []) parts.new.items) }
{
    let Line { task, step, .. } = line;
    Ok(parts[task as usize].push(step)?)
}
