//! The lists of a SUBSCRIBE and an UNSUBSCRIBE (MQTT 3.1.1, sections 3.8.3 and 3.10.3), read to the
//! end of the bytes. Each has a member at least.

ghost use Rattle.std.specs.Prelude.{◌≡◌, ◌<◌, length, IfOk};
ghost use Rattle.mqtt_packet.specs.Reading.{Gives, some_items, items_in, ask_at, string_at};

use crate::fields::{byte_at, qos_of, text_at};
use crate::refusal::Refusal;
use crate::will::Ask;
use list_types::{Seq, Text};
use std::alloc::Global;

#[tactic(auto, unfolding(crate::specs::Reading::some_items))]
pub(crate) fn asks_of(alloc: Global, bytes: &[u8]) -> Result<Seq<Ask>, Refusal>
    ensures { Gives (λ asks. asks) result (some_items ask_at bytes.now) }
{
    if bytes.is_empty() {
        return Err(Refusal::Bad);
    }
    asks_in(alloc, bytes)
}

#[tactic(auto, using(crate::proofs::Members::none_yet, crate::proofs::Members::one_read, crate::proofs::Members::one_refused, crate::proofs::Members::all_read))]
fn asks_in(alloc: Global, bytes: &[u8]) -> Result<Seq<Ask>, Refusal>
    ensures { Gives (λ asks. asks) result (items_in ask_at (length bytes.now) bytes.now) }
{
    let mut asks = Seq::new(alloc);
    let mut rest = bytes;
    while !rest.is_empty() {
        let (ask, behind) = ask_at(alloc, rest)?;
        asks.push(ask)?;
        rest = behind;
    }
    Ok(asks)
}

#[tactic(auto, unfolding(crate::specs::Reading::ask_at))]
fn ask_at(alloc: Global, bytes: &[u8]) -> Result<(Ask, &[u8]), Refusal>
    ensures value { Gives (λ x. (x.0, x.1.now)) result (ask_at bytes.now) }
    ensures shorter { IfOk result (λ x. length x.1.now < length bytes.now) }
{
    let (filter, rest) = text_at(alloc, bytes)?;
    let (level, rest) = byte_at(rest)?;
    let qos = qos_of(level).ok_or(Refusal::Bad)?;
    Ok((Ask { filter, qos }, rest))
}

#[tactic(auto, unfolding(crate::specs::Reading::some_items))]
pub(crate) fn filters_of(alloc: Global, bytes: &[u8]) -> Result<Seq<Text>, Refusal>
    ensures { Gives (λ filters. filters) result (some_items string_at bytes.now) }
{
    if bytes.is_empty() {
        return Err(Refusal::Bad);
    }
    filters_in(alloc, bytes)
}

#[tactic(auto, using(crate::proofs::Members::none_yet, crate::proofs::Members::one_read, crate::proofs::Members::one_refused, crate::proofs::Members::all_read))]
fn filters_in(alloc: Global, bytes: &[u8]) -> Result<Seq<Text>, Refusal>
    ensures { Gives (λ filters. filters) result (items_in string_at (length bytes.now) bytes.now) }
{
    let mut filters = Seq::new(alloc);
    let mut rest = bytes;
    while !rest.is_empty() {
        let (filter, behind) = text_at(alloc, rest)?;
        filters.push(filter)?;
        rest = behind;
    }
    Ok(filters)
}
