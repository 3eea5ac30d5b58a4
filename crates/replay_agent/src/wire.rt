//! Bytes go onto the wire.

ghost use Rattle.std.specs.Prelude.{◌≡◌, ◌∷◌, ◌+◌, ◌-◌, ◌<◌, ◌≤◌, ◌++◌, ℕ, [], List, true, false, length, take, nat_lt, IfOk, OnOk};
ghost use Rattle.agent_link.specs.Counts.{with_fault};
ghost use Rattle.agent_link.specs.Wires.{onto_last};
ghost use Rattle.broker_tape.specs.Playing.{counts, fitting, room_behind};

use agent_link::{Fault, Link};
use broker_tape::TapeLink;
use mqtt_packet::NoMemory;
use std::alloc::AllocError;

/// Sends as many of these bytes as the connection takes, and answers how many that is.
#[tactic(auto, using(crate::proofs::Sends::sent_more, crate::proofs::Sends::room_more, crate::proofs::Sends::fits_more, crate::proofs::Sends::fits_whole, crate::proofs::Sends::fits_part, crate::proofs::Sends::onto_nothing))]
pub(crate) fn send_all(link: &mut TapeLink, bytes: &[u8]) -> Result<usize, NoMemory>
    ensures fits { IfOk result (λ n. n ≡ fitting link.old.room (length bytes.now)) }
    ensures taken { IfOk result (λ n. link.new.taken ≡ onto_last link.old.taken (take n bytes.now)) }
    ensures room { IfOk result (λ n. link.new.room ≡ room_behind link.old.room n) }
    ensures given { IfOk result (λ _. link.new.given ≡ link.old.given) }
    ensures left { IfOk result (λ _. link.new.left ≡ link.old.left) }
    // Where that isn't all, the last call failed, and it alone.
    ensures counted { IfOk result (λ n. n < length bytes.now → counts link.new ≡ with_fault (counts link.old)) }
    ensures uncounted { IfOk result (λ n. length bytes.now ≤ n → counts link.new ≡ counts link.old) }
{
    let mut sent = 0;
    'pieces: while sent < bytes.len() {
        match link.send(&bytes[sent..]) {
            Ok(count) => sent += count,
            Err(Fault::Failed) => return Ok(sent),
            Err(Fault::NoMemory) => return Err(AllocError),
        }
    }
    Ok(sent)
}
