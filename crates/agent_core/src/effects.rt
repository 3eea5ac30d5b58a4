//! Effects that several rows have.

ghost use Rattle.std.specs.Prelude.{◌≡◌, ◌∷◌, ◌++◌, [], false, slice_index_or, IfOk, OnOk};
ghost use Rattle.std.specs.List.{flat_map};
ghost use Rattle.agent_table.specs.Effects.{closed_below};
ghost use Rattle.std.specs.Prelude.{◌≤◌, length};
ghost use Rattle.agent_journal.specs.declared.effect.Effect.TheVariants as f;
ghost use Rattle.agent_table.specs.Effects.{is_publish};
ghost use Rattle.agent_core.specs.Endings.{ending_of};

use agent_journal::{Effect, Effects, Outcome, Request};
use pending_acks::{Pending, PendingAcks};
use std::alloc::{AllocError, Global};

/// How open commands end together.
#[derive(Clone, Copy, Debug)]
pub enum Ending {
    /// All, since the agent ends.
    Cancelled,
    /// Subscribes and unsubscribes, since the connection broke. Publishes wait for the next one.
    LinkLost,
    /// Publishes, since the broker lost the session.
    SessionLost,
}

/// The effect alone.
pub fn one(alloc: Global, effect: Effect) -> Result<Effects, AllocError>
    ensures { IfOk result (λ es. es ≡ effect ∷ []) }
{
    let mut effects = Effects::new(alloc);
    effects.push(effect)?;
    Ok(effects)
}

/// Adds the completion of a command.
pub fn push_done(
    effects: &mut Effects,
    task: u32,
    seq: u32,
    outcome: Outcome,
) -> Result<(), AllocError>
    ensures { OnOk result (effects.new ≡ effects.old ++ f.Done task seq outcome ∷ []) }
{
    effects.push(Effect::Done { task, seq, outcome })?;
    Ok(())
}

/// Adds the completion of a command that ends so, and nothing for another one.
fn push_ending(effects: &mut Effects, command: &Pending, ending: Ending) -> Result<(), AllocError>
    ensures { OnOk result (effects.new ≡ effects.old ++ ending_of ending command.now) }
{
    match (ending, is_publish(&command.request)) {
        (Ending::Cancelled, _) => push_done(effects, command.task, command.seq, Outcome::Cancelled),
        (Ending::LinkLost, false) => push_done(
            effects,
            command.task,
            command.seq,
            Outcome::LinkLost,
        ),
        (Ending::SessionLost, true) => push_done(
            effects,
            command.task,
            command.seq,
            Outcome::SessionLost,
        ),
        (Ending::LinkLost, true) | (Ending::SessionLost, false) => Ok(()),
    }
}

fn is_publish(request: &Request) -> bool
    ensures { result ≡ is_publish request.now }
{
    matches!(request, Request::Publish { .. })
}

/// Adds the completions of the commands that end so, in the order of Takes.
#[tactic(auto, using(crate::proofs::Loops::flat_more, crate::proofs::Loops::flat_none, crate::proofs::Loops::flat_end))]
pub fn push_endings<const ACKS: usize>(
    effects: &mut Effects,
    pending: &PendingAcks<ACKS>,
    ending: Ending,
) -> Result<(), AllocError>
    ensures { OnOk result (effects.new ≡ effects.old ++ flat_map (ending_of ending) pending.now) }
{
    for k in 0..pending.len() {
        if let Some(command) = pending.get(k) {
            push_ending(effects, command, ending)?;
        }
    }
    Ok(())
}

/// Adds Closed for each task that hasn't left, in increasing order.
#[tactic(auto, using(crate::proofs::Loops::closed_more, crate::proofs::Loops::closed_skips))]
pub fn push_closed(effects: &mut Effects, left: &[bool], tasks: u32) -> Result<(), AllocError>
    requires { tasks ≤ length left.now }
    ensures { OnOk result (effects.new ≡ effects.old ++ closed_below tasks (λ t. slice_index_or left.now t false)) }
{
    for task in 0..tasks {
        if !left[task as usize] {
            effects.push(Effect::Closed { task })?;
        }
    }
    Ok(())
}
