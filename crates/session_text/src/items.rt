//! Lists of a saved session, read behind their counts.

ghost use Rattle.std.specs.Prelude.{◌≡◌};
ghost use Rattle.std.specs.Int.{w64};
ghost use Rattle.mqtt_packet.specs.Reading.{number_at, string_at};
ghost use Rattle.session_text.specs.Reading.{Gives, wide_at, items_at, counted_at, command_at, route_at};

use crate::fault::RestoreFault;
use crate::fields::{text_at, u16_at, u64_at};
use crate::reading::{command_at, route_at};
use crate::session::{Command, Route};
use list_types::{Seq, Text};
use std::alloc::Global;

/// So many numbers of eight bytes.
#[tactic(auto, using(crate::proofs::Counted::none_yet, crate::proofs::Counted::one_read, crate::proofs::Counted::one_refused, crate::proofs::Counted::all_read))]
pub(crate) fn wide_numbers(
    alloc: Global,
    count: u16,
    bytes: &[u8],
) -> Result<(Seq<u64>, &[u8]), RestoreFault>
    ensures { Gives (λ x. (x.0, x.1.now)) result (items_at (wide_at w64) count bytes.now) }
{
    let mut items = Seq::new(alloc);
    let mut rest = bytes;
    for _ in 0..count {
        let (item, behind) = u64_at(rest)?;
        items.push(item)?;
        rest = behind;
    }
    Ok((items, rest))
}

/// Identifiers behind their count.
#[tactic(auto, unfolding(crate::specs::Reading::counted_at))]
pub(crate) fn identifiers(alloc: Global, bytes: &[u8]) -> Result<(Seq<u16>, &[u8]), RestoreFault>
    ensures { Gives (λ x. (x.0, x.1.now)) result (counted_at number_at bytes.now) }
{
    let (count, rest) = u16_at(bytes)?;
    some_identifiers(alloc, count, rest)
}

#[tactic(auto, using(crate::proofs::Counted::none_yet, crate::proofs::Counted::one_read, crate::proofs::Counted::one_refused, crate::proofs::Counted::all_read))]
fn some_identifiers(
    alloc: Global,
    count: u16,
    bytes: &[u8],
) -> Result<(Seq<u16>, &[u8]), RestoreFault>
    ensures { Gives (λ x. (x.0, x.1.now)) result (items_at number_at count bytes.now) }
{
    let mut items = Seq::new(alloc);
    let mut rest = bytes;
    for _ in 0..count {
        let (item, behind) = u16_at(rest)?;
        items.push(item)?;
        rest = behind;
    }
    Ok((items, rest))
}

/// So many texts, each behind its length.
#[tactic(auto, using(crate::proofs::Counted::none_yet, crate::proofs::Counted::one_read, crate::proofs::Counted::one_refused, crate::proofs::Counted::all_read))]
pub(crate) fn texts(
    alloc: Global,
    count: u8,
    bytes: &[u8],
) -> Result<(Seq<Text>, &[u8]), RestoreFault>
    ensures { Gives (λ x. (x.0, x.1.now)) result (items_at string_at count bytes.now) }
{
    let mut items = Seq::new(alloc);
    let mut rest = bytes;
    for _ in 0..count {
        let (item, behind) = text_at(alloc, rest)?;
        items.push(item)?;
        rest = behind;
    }
    Ok((items, rest))
}

/// Open commands behind their count.
#[tactic(auto, unfolding(crate::specs::Reading::counted_at))]
pub(crate) fn commands(alloc: Global, bytes: &[u8]) -> Result<(Seq<Command>, &[u8]), RestoreFault>
    ensures { Gives (λ x. (x.0, x.1.now)) result (counted_at command_at bytes.now) }
{
    let (count, rest) = u16_at(bytes)?;
    some_commands(alloc, count, rest)
}

#[tactic(auto, using(crate::proofs::Counted::none_yet, crate::proofs::Counted::one_read, crate::proofs::Counted::one_refused, crate::proofs::Counted::all_read))]
fn some_commands(
    alloc: Global,
    count: u16,
    bytes: &[u8],
) -> Result<(Seq<Command>, &[u8]), RestoreFault>
    ensures { Gives (λ x. (x.0, x.1.now)) result (items_at command_at count bytes.now) }
{
    let mut items = Seq::new(alloc);
    let mut rest = bytes;
    for _ in 0..count {
        let (item, behind) = command_at(alloc, rest)?;
        items.push(item)?;
        rest = behind;
    }
    Ok((items, rest))
}

/// Routes behind their count.
#[tactic(auto, unfolding(crate::specs::Reading::counted_at))]
pub(crate) fn routes(alloc: Global, bytes: &[u8]) -> Result<(Seq<Route>, &[u8]), RestoreFault>
    ensures { Gives (λ x. (x.0, x.1.now)) result (counted_at route_at bytes.now) }
{
    let (count, rest) = u16_at(bytes)?;
    some_routes(alloc, count, rest)
}

#[tactic(auto, using(crate::proofs::Counted::none_yet, crate::proofs::Counted::one_read, crate::proofs::Counted::one_refused, crate::proofs::Counted::all_read))]
fn some_routes(alloc: Global, count: u16, bytes: &[u8]) -> Result<(Seq<Route>, &[u8]), RestoreFault>
    ensures { Gives (λ x. (x.0, x.1.now)) result (items_at route_at count bytes.now) }
{
    let mut items = Seq::new(alloc);
    let mut rest = bytes;
    for _ in 0..count {
        let (item, behind) = route_at(alloc, rest)?;
        items.push(item)?;
        rest = behind;
    }
    Ok((items, rest))
}
