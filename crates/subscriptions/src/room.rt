//! How many routes there are.

ghost use Rattle.std.specs.Prelude.{◌≡◌, ◌<◌, ◌≤◌, ◌+◌, ◌∷◌, [], ◌++◌, not, nat_le, length};
ghost use Rattle.agent_table.specs.Routes.{route, has_route};
ghost use Rattle.subscriptions.specs.Routing.{routes_asked};
ghost use Rattle.subscriptions.specs.Rooms.{routes_with, asked_routes, new_count};

use crate::asked::{Asked, are_asked, asks_for};
use crate::granted::{Granted, has};
use list_types::Text;
use mqtt_packet::Ask;
use ordered_cells::OrderedCells;

/// Whether they are at most ROUTES even if no route stands twice among them.
pub fn surely_fit<const ROUTES: usize>(
    granted: &OrderedCells<Granted, ROUTES>,
    asked: &[Asked],
    asks: &[Ask],
) -> bool
    ensures { result ≡ nat_le (length granted.now + length asks.now + length (asked_routes asked.now)) ROUTES }
{
    let mut pairs = granted.len() + asks.len();
    for open in asked {
        pairs = pairs.saturating_add(open.pairs());
    }
    pairs <= ROUTES
}

/// How many routes there are with those that a task asks for.
pub fn count_all<const ROUTES: usize>(
    granted: &OrderedCells<Granted, ROUTES>,
    asked: &[Asked],
    task: u32,
    asks: &[Ask],
) -> usize
    requires { length (routes_with granted.now asked.now) ≤ ROUTES }
    ensures { result ≡ length (routes_with granted.now asked.now) + new_count (routes_with granted.now asked.now) (routes_asked task asks.now) }
{
    count_routes(granted, asked) + count_new(granted, asked, task, asks)
}

/// How many routes are granted, or asked for by tasks that haven't left.
fn count_routes<const ROUTES: usize>(
    granted: &OrderedCells<Granted, ROUTES>,
    asked: &[Asked],
) -> usize
    requires { length (routes_with granted.now asked.now) ≤ ROUTES }
    ensures count { result ≡ length (routes_with granted.now asked.now) }
    ensures few { result ≤ 65536 }
{
    let mut count = granted.len();
    for (at, open) in asked.iter().enumerate() {
        count += count_open(granted, &asked[..at], open);
    }
    count
}

/// How many routes come to these by one more open subscribe.
fn count_open<const ROUTES: usize>(
    granted: &OrderedCells<Granted, ROUTES>,
    asked: &[Asked],
    subscribe: &Asked,
) -> usize
    ensures { result ≡ new_count (routes_with granted.now asked.now) (asked_routes (subscribe.now ∷ [])) }
{
    if subscribe.left {
        0
    } else {
        count_new(granted, asked, subscribe.task, &subscribe.asks)
    }
}

/// How many routes come to these where a task asks for more.
fn count_new<const ROUTES: usize>(
    granted: &OrderedCells<Granted, ROUTES>,
    asked: &[Asked],
    task: u32,
    asks: &[Ask],
) -> usize
    ensures count { result ≡ new_count (routes_with granted.now asked.now) (routes_asked task asks.now) }
    ensures most { result ≤ length asks.now }
{
    let mut count = 0;
    for (at, ask) in asks.iter().enumerate() {
        if is_new(granted, asked, &asks[..at], task, &ask.filter) {
            count += 1;
        }
    }
    count
}

/// Whether it isn't a route, nor one of those that the task asks for with it.
#[tactic(auto, using(crate::proofs::Counts::is_new_is))]
fn is_new<const ROUTES: usize>(
    granted: &OrderedCells<Granted, ROUTES>,
    asked: &[Asked],
    earlier: &[Ask],
    task: u32,
    filter: &Text,
) -> bool
    ensures { result ≡ not (has_route (routes_with granted.now asked.now ++ routes_asked task earlier.now) (route task filter.now)) }
{
    !is_route(granted, asked, task, filter) && !asks_for(earlier, filter)
}

fn is_route<const ROUTES: usize>(
    granted: &OrderedCells<Granted, ROUTES>,
    asked: &[Asked],
    task: u32,
    filter: &Text,
) -> bool
    ensures { result ≡ has_route (routes_with granted.now asked.now) (route task filter.now) }
{
    has(granted, task, filter) || are_asked(asked, task, filter)
}
