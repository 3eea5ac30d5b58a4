//! What is asked for again where a session was lost.

ghost use Rattle.std.specs.Prelude.{◌≡◌, ◌||◌, not, map, take, drop, filter, IfOk};
ghost use Rattle.std.specs.List.{find};
ghost use Rattle.std.specs.Option.{option_map};
ghost use Rattle.std.specs.Str.{bytes_eq};
ghost use Rattle.agent_table.specs.Filters.{sorted};
ghost use Rattle.subscriptions.specs.Routing.{ask_in};

use crate::granted::Granted;
use list_types::Text;
use mqtt_packet::{Ask, Asks, Qos};
use ordered_cells::OrderedCells;
use std::alloc::{AllocError, Global};
use std::collections::BTreeSet;

/// How many filters there are in a renewal at most.
const MOST: usize = 8;

/// The filters of these routes, or of the unsure ones alone, each once and in increasing order: those of
/// one renewal, from a place in that order on.
pub fn renewable<const ROUTES: usize>(
    alloc: Global,
    granted: &OrderedCells<Granted, ROUTES>,
    all: bool,
    from: usize,
) -> Result<Asks, AllocError>
    ensures { IfOk result (λ asks. asks ≡ take 8 (drop from (map (ask_in granted.now) (sorted (map (λ g. g.topics) (filter (λ g. all || not g.sure) granted.now)))))) }
{
    let filters = filters_of(alloc, granted, all)?;
    let mut asks = Asks::new(alloc);
    for filter in &one_renewal(alloc, &filters, from)? {
        asks.push(ask_in(alloc, granted, filter)?)?;
    }
    Ok(asks)
}

/// Those of one renewal, from a place on.
fn one_renewal<'a>(
    alloc: Global,
    filters: &BTreeSet<&'a str>,
    from: usize,
) -> Result<Vec<&'a str>, AllocError>
    ensures { IfOk result (λ part. part.items ≡ take 8 (drop from filters.now.keys)) }
{
    filters.iter().skip(from).take(MOST).copied().collect(alloc)
}

/// The filters of these routes, or of the unsure ones alone.
fn filters_of<'a, const ROUTES: usize>(
    alloc: Global,
    granted: &'a OrderedCells<Granted, ROUTES>,
    all: bool,
) -> Result<BTreeSet<&'a str>, AllocError>
    ensures { IfOk result (λ filters. map (λ f. f.now) filters.keys ≡ sorted (map (λ g. g.topics) (filter (λ g. all || not g.sure) granted.now))) }
{
    let mut filters = BTreeSet::new(alloc);
    // From the back, as the definition puts them in order.
    for at in (0..granted.len()).rev() {
        let route = granted.at(at);
        if route.is_wanted(all) {
            filters.insert(route.filter.as_str())?;
        }
    }
    Ok(filters)
}

/// What is asked for this filter: the quality of service stands with its first route.
fn ask_in<const ROUTES: usize>(
    alloc: Global,
    granted: &OrderedCells<Granted, ROUTES>,
    filter: &str,
) -> Result<Ask, AllocError>
    ensures { IfOk result (λ ask. ask ≡ ask_in granted.now filter.now) }
{
    Ok(Ask {
        filter: Text::from_str(alloc, filter)?,
        qos: first_qos(granted, filter).unwrap_or(Qos::AtMostOnce),
    })
}

fn first_qos<const ROUTES: usize>(
    granted: &OrderedCells<Granted, ROUTES>,
    filter: &str,
) -> Option<Qos>
    ensures { result ≡ option_map (λ g. g.qos) (find (λ g. bytes_eq g.topics filter.now) granted.now) }
{
    granted
        .find(|route| route.filter.as_str() == filter)
        .map(|route| route.qos)
}
