//! An entry's packets go onto the wire.

ghost use Rattle.std.specs.Prelude.{◌≡◌, ◌∷◌, ◌+◌, ◌-◌, ◌<◌, ◌≤◌, ◌++◌, ℕ, [], List, true, false, length, take, IfOk, OnOk};
ghost use Rattle.std.specs.List.{AllByRecursion};
ghost use Rattle.mqtt_packet.specs.Spelling as spelling;
ghost use Rattle.agent_journal.specs.Sound.{IsSoundEffect};
ghost use Rattle.agent_journal.specs.Wires.{sent_in};
ghost use Rattle.agent_line.specs.Entered.{counts_behind};
ghost use Rattle.agent_line.specs.Told.{more_on};

use crate::telling::Telling;
use agent_journal::Effect;
use agent_link::{Fault, Link};
use mqtt_packet::{NoMemory, Packet, encode, spelled_len};
use std::alloc::AllocError;

/// Spells the packets that these effects send, one behind the other.
#[tactic(auto, using(crate::proofs::Spelling::spelled_on, crate::proofs::Spelling::spelled_all))]
pub fn spell(buffer: &mut Vec<u8>, effects: &[Effect]) -> Result<(), NoMemory>
    requires { AllByRecursion IsSoundEffect effects.now }
    ensures { OnOk result (buffer.new.items ≡ sent_in effects.now) }
{
    buffer.clear();
    for effect in effects {
        spell_effect(buffer, effect)?;
    }
    Ok(())
}

#[tactic(auto, using(crate::proofs::Spelling::one_spelled, crate::proofs::Spelling::none_spelled))]
fn spell_effect(buffer: &mut Vec<u8>, effect: &Effect) -> Result<(), NoMemory>
    requires { IsSoundEffect effect.now }
    ensures { OnOk result (buffer.new.items ≡ buffer.old.items ++ sent_in (effect.now ∷ [])) }
{
    match effect {
        Effect::Send { packet } => spell_packet(buffer, packet),
        Effect::Done { .. } | Effect::Pass { .. } | Effect::Closed { .. } => Ok(()),
    }
}

/// Spells a packet behind what stands in the buffer.
#[tactic(auto, using(crate::proofs::Spelling::none_spelled))]
fn spell_packet(buffer: &mut Vec<u8>, packet: &Packet) -> Result<(), NoMemory>
    requires { spelling.is_sound packet.now ≡ true }
    ensures { OnOk result (buffer.new.items ≡ buffer.old.items ++ spelling.spelling packet.now) }
{
    let start = buffer.len();
    let end = start + spelled_len(packet);
    buffer.resize(end, 0)?;
    if encode(packet, &mut buffer[start..]).is_err() {
        return Err(AllocError);
    }
    Ok(())
}

/// Sends as many of these bytes as the connection takes, and answers how many that is. Where that isn't all, the last call
/// failed.
#[tactic(auto, using(crate::proofs::Sending::took_nothing, crate::proofs::Sending::took_more))]
pub(crate) fn send_all<L: Link>(link: &mut L, bytes: &[u8]) -> Result<usize, NoMemory>
    ensures within { IfOk result (λ n. n ≤ length bytes.now) }
    ensures taken { IfOk result (λ n. L.taken link.new ≡ more_on (L.taken link.old) (take n bytes.now)) }
    ensures given { OnOk result (L.given link.new ≡ L.given link.old) }
    ensures counts { IfOk result (λ n. (⟦<L as Telling>⟧.told link.new).counts ≡ counts_behind n (length bytes.now) (⟦<L as Telling>⟧.told link.old).counts) }
{
    let mut sent = 0;
    'pieces: while sent < bytes.len() {
        let (_, rest) = bytes.split_at(sent);
        match link.send(rest) {
            Ok(count) => sent += count,
            Err(Fault::Failed) => return Ok(sent),
            Err(Fault::NoMemory) => return Err(AllocError),
        }
    }
    Ok(sent)
}
