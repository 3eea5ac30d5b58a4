//! How a tape is played: where its next item and its next opening stand, and what a connection gave and took.

ghost use Rattle.std.specs.Prelude.{◌≡◌, ℕ, ◌+◌, ◌^◌, ◌<◌, ◌≤◌, [], ◌∷◌, ◌++◌, length, drop, take, min, true, false, OnOk, OnErr, slice_index_or};
ghost use Rattle.broker_tape.specs.declared.tape.Item.{Item};
ghost use Rattle.agent_link.specs.Wires.{onto_last};
ghost use Rattle.broker_tape.specs.Playing as playing;

use crate::tape::Item;
use list_types::Blob;
use std::alloc::{AllocError, Global};

/// Where the next opening stands, from `at` on, or the end of the items.
#[tactic(auto, using(crate::proofs::Plays::closed_later, crate::proofs::Plays::closed_here, crate::proofs::Plays::closed_end))]
pub(crate) fn next_opening(items: &[Item], at: usize) -> usize
    ensures closed { playing.closed (drop at items.now) ≡ drop result items.now }
{
    let mut next = at;
    while next < items.len() {
        if is_opening(&items[next]) {
            return next;
        }
        next += 1;
    }
    next
}

fn is_opening(item: &Item) -> bool
    ensures { result ≡ playing.is_opening item.now }
{
    match item {
        Item::Open | Item::Refuse => true,
        Item::Room(_) | Item::Hear(_) | Item::Quiet(_) | Item::End | Item::Fail => false,
    }
}

/// Where the next item stands that isn't used up, and how much of it was played.
#[tactic(auto, using(crate::proofs::Plays::next_later, crate::proofs::Plays::next_here, crate::proofs::Plays::next_end))]
pub(crate) fn next_item(items: &[Item], at: usize, played: u64) -> (usize, u64)
    ensures next { playing.next (playing.advance played (drop at items.now)) ≡ playing.advance result.1 (drop result.0 items.now) }
    ensures unused { (d : Item) → result.0 < length items.now → playing.is_used (playing.played_to result.1 (slice_index_or items.now result.0 d)) ≡ false }
{
    let mut next = at;
    let mut done = played;
    while next < items.len() {
        if !is_used(&items[next], done) {
            return (next, done);
        }
        next += 1;
        done = 0;
    }
    (next, done)
}

/// Whether an item of which so much was played says nothing more to a receive.
#[tactic(auto, using(crate::proofs::Plays::used_up))]
fn is_used(item: &Item, played: u64) -> bool
    ensures { result ≡ playing.is_used (playing.played_to played item.now) }
{
    match item {
        Item::Room(_) => true,
        Item::Hear(bytes) => bytes.len() as u64 <= played,
        Item::Quiet(count) => *count <= played,
        Item::Open | Item::Refuse | Item::End | Item::Fail => false,
    }
}

/// How many bytes a connection takes whose items begin at `at`, where that is bounded.
pub(crate) fn room_at(items: &[Item], at: usize) -> Option<u64>
    ensures { result ≡ playing.room_at (drop at items.now) }
{
    match items.get(at) {
        Some(Item::Room(count)) => Some(*count),
        Some(Item::Open | Item::Refuse | Item::Hear(_) | Item::Quiet(_) | Item::End | Item::Fail)
        | None => None,
    }
}

/// Copies what stands behind the first `played` bytes, as far as it fits, into the front of `buf`, and answers how
/// much that is.
pub(crate) fn front_of(bytes: &[u8], played: u64, buf: &mut [u8]) -> usize
    requires { played < length bytes.now }
    ensures count { result ≡ min (length (drop played bytes.now)) (length buf.old) }
    ensures len { length buf.new ≡ length buf.old }
    ensures front { take result buf.new ≡ take result (drop played bytes.now) }
{
    let (_, rest) = bytes.split_at(played as usize);
    let count = rest.len().min(buf.len());
    buf[..count].copy_from_slice(&rest[..count]);
    count
}

/// A connection that has taken and given nothing yet.
pub(crate) fn begin(
    alloc: Global,
    taken: &mut Vec<Blob>,
    given: &mut Vec<Blob>,
) -> Result<(), AllocError>
    ensures taken { OnOk result (taken.new.items ≡ taken.old.items ++ [] ∷ []) }
    ensures given { OnOk result (given.new.items ≡ given.old.items ++ [] ∷ []) }
    ensures err { OnErr result ((taken.new.items ≡ taken.old.items) × (given.new.items ≡ given.old.items)) }
{
    taken.reserve(1)?;
    given.push(Blob::new(alloc))?;
    taken.push_reserved(Blob::new(alloc));
    Ok(())
}

/// Adds bytes to those of the present connection.
#[tactic(auto, using(crate::proofs::Plays::onto_last_end))]
pub(crate) fn append_last(wires: &mut Vec<Blob>, bytes: &[u8]) -> Result<(), AllocError>
    ensures ok { OnOk result (wires.new.items ≡ onto_last wires.old.items bytes.now) }
    ensures err { OnErr result (wires.new.items ≡ wires.old.items) }
{
    let Some(mut wire) = wires.pop() else {
        return Ok(());
    };
    let result = wire.extend_from_slice(bytes);
    wires.push_reserved(wire);
    result
}
