//! The list of what is sent again.

ghost use Rattle.std.specs.Prelude.{◌≡◌, ◌++◌, map, IfOk, OnOk};
ghost use Rattle.agent_table.specs.Readings.{Readings};
ghost use Rattle.agent_table.specs.Effects.{resume};
ghost use Rattle.session_resume.specs.Resent.{release, again};

use crate::again::{push_again, push_release};
use agent_journal::Effects;
use pending_acks::PendingAcks;
use qos_state::QosState;
use std::alloc::{AllocError, Global};

/// What is sent again where the server kept the session (MQTT 3.1.1, section 4.4): PUBREL for each
/// released publish, in the order of the first PUBRECs; then PUBLISH with DUP 1 for each other open
/// publish, in the order of first sending. `Err` where memory runs out.
pub fn resume<const ACKS: usize, const IN: usize>(
    alloc: Global,
    qos: &QosState<ACKS, IN>,
    pending: &PendingAcks<ACKS>,
) -> Result<Effects, AllocError>
    ensures { IfOk result (λ effects. (r : Readings) → effects ≡ resume (record r { released = qos.now.released; pending = pending.now })) }
{
    let mut effects = Effects::new(alloc);
    push_releases(&mut effects, qos)?;
    push_publishes(alloc, &mut effects, qos, pending)?;
    Ok(effects)
}

#[tactic(auto, using(crate::proofs::Loops::releases_more, crate::proofs::Loops::releases_none, crate::proofs::Loops::releases_end))]
fn push_releases<const ACKS: usize, const IN: usize>(
    effects: &mut Effects,
    qos: &QosState<ACKS, IN>,
) -> Result<(), AllocError>
    ensures { OnOk result (effects.new ≡ effects.old ++ map release qos.now.released) }
{
    for k in 0..qos.len() {
        if let Some(id) = qos.released(k) {
            push_release(effects, id)?;
        }
    }
    Ok(())
}

#[tactic(auto, using(crate::proofs::Loops::again_more, crate::proofs::Loops::again_skips, crate::proofs::Loops::again_none, crate::proofs::Loops::again_end))]
fn push_publishes<const ACKS: usize, const IN: usize>(
    alloc: Global,
    effects: &mut Effects,
    qos: &QosState<ACKS, IN>,
    pending: &PendingAcks<ACKS>,
) -> Result<(), AllocError>
    ensures { OnOk result (effects.new ≡ effects.old ++ again qos.now.released pending.now) }
{
    for k in 0..pending.len() {
        if let Some(command) = pending.get(k) {
            if !qos.is_released(command.id) {
                push_again(alloc, effects, command)?;
            }
        }
    }
    Ok(())
}
