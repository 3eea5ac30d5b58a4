//! The packets of one command or release, put behind effects.

ghost use Rattle.std.specs.Prelude.{◌≡◌, [], ◌∷◌, ◌++◌, OnOk};
ghost use Rattle.agent_table.specs.Effects.{again_by};
ghost use Rattle.session_resume.specs.Resent.{release};

use agent_journal::{Effect, Effects, Request};
use list_types::Copied;
use mqtt_packet::Packet;
use pending_acks::Pending;
use std::alloc::{AllocError, Global};

/// Adds a PUBREL (MQTT 3.1.1, section 3.6).
pub fn push_release(effects: &mut Effects, id: u16) -> Result<(), AllocError>
    ensures { OnOk result (effects.new ≡ effects.old ++ release id ∷ []) }
{
    effects.push(Effect::Send {
        packet: Packet::PubRel { id },
    })?;
    Ok(())
}

/// Adds the PUBLISH of a command with DUP 1 (section 3.3.1.1), and nothing for a command of another kind.
pub fn push_again(alloc: Global, effects: &mut Effects, command: &Pending) -> Result<(), AllocError>
    ensures { OnOk result (effects.new ≡ effects.old ++ again_by command.now.id command.now.request) }
{
    match &command.request {
        Request::Publish {
            qos,
            topic,
            payload,
        } => {
            effects.push(Effect::Send {
                packet: Packet::Publish {
                    dup: true,
                    qos: *qos,
                    retain: false,
                    topic: topic.copy(alloc)?,
                    id: command.id,
                    payload: payload.copy(alloc)?,
                },
            })?;
            Ok(())
        }
        _ => Ok(()),
    }
}
