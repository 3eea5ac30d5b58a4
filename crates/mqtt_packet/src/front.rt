//! The packet in front of bytes, or why there is none.

ghost use Rattle.std.specs.Prelude.{◌≡◌, ◌+◌, ◌<◌, ◌≤◌, length, IfOk};
ghost use Rattle.mqtt_packet.specs.Bounds.{IsWithin};
ghost use Rattle.mqtt_packet.specs.Fronts.{front_of, frame_of};

use crate::decode::packet_of;
use crate::kind::{Kind, kind_of};
use crate::packet::Packet;
use crate::refusal::Refusal;
use crate::remaining::{Remaining, remaining_at};
use crate::soundness::PACKET_LIMIT;
use std::alloc::{AllocError, Global};

/// Why a stream can't go on.
#[derive(Clone, Copy, Debug, PartialEq, Eq)]
pub(crate) enum Verdict {
    Bad,
    TooLong(u64),
}

/// What stands in front of bytes.
#[derive(Debug, Drop)]
pub(crate) enum Front {
    /// A packet of so many bytes.
    Packet(Packet, usize),
    /// Less than a packet.
    More,
    Ended(Verdict),
}

/// What stands in front of the bytes. At most five of them are read unless they hold a whole packet.
#[tactic(auto, unfolding(crate::specs::Fronts::front_of))]
pub(crate) fn front_of(alloc: Global, bytes: &[u8]) -> Result<Front, AllocError>
    ensures front { IfOk result (λ front. front ≡ front_of bytes.now) }
    ensures within { IfOk result (λ front. IsWithin (length bytes.now) front) }
{
    let [head, rest @ ..] = bytes else {
        return Ok(Front::More);
    };
    let Some(kind) = kind_of(*head) else {
        return Ok(Front::Ended(Verdict::Bad));
    };
    match remaining_at(rest) {
        Remaining::Is { value, count } => frame_of(alloc, kind, value, count, rest),
        Remaining::Part => Ok(Front::More),
        Remaining::Wrong => Ok(Front::Ended(Verdict::Bad)),
    }
}

/// Behind a first byte of this kind, a remaining length of `count` bytes and what it counts.
#[tactic(auto, unfolding(crate::specs::Fronts::frame_of))]
fn frame_of(
    alloc: Global,
    kind: Kind,
    value: usize,
    count: usize,
    bytes: &[u8],
) -> Result<Front, AllocError>
    requires small { value < 268435456 }
    requires few { count ≤ 4 }
    ensures front { IfOk result (λ front. front ≡ frame_of kind value count bytes.now) }
    ensures within { IfOk result (λ front. IsWithin (1 + length bytes.now) front) }
{
    let size = 1 + count + value;
    if size > PACKET_LIMIT {
        return Ok(Front::Ended(Verdict::TooLong(size as u64)));
    }
    if bytes.len() < count + value {
        return Ok(Front::More);
    }
    let (_, behind) = bytes.split_at(count);
    let (body, _) = behind.split_at(value);
    match packet_of(alloc, kind, body) {
        Ok(packet) => Ok(Front::Packet(packet, size)),
        Err(Refusal::Bad) => Ok(Front::Ended(Verdict::Bad)),
        Err(Refusal::Memory) => Err(AllocError),
    }
}
