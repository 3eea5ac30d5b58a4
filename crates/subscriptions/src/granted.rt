//! Granted routes.

ghost use Rattle.std.specs.Prelude.{◌≡◌, ◌≤◌, ◌&&◌, ◌||◌, ◌==◌, not, true, map, length};
ghost use Rattle.std.specs.List.{list_any, list_all, filter, flat_map};
ghost use Rattle.std.specs.Str.{bytes_eq};
ghost use Rattle.agent_table.specs.Filters.{is_one_of};
ghost use Rattle.agent_table.specs.Routes.{coded, granted_in};
ghost use Rattle.topic_filter.specs.Fitting.{fits};
ghost use Rattle.topic_filter.specs.Texts.{is_filter};
ghost use Rattle.subscriptions.specs.Routing.{renewed_as, unsure_now, is_any_of, renewal_coded};
ghost use Rattle.subscriptions.specs.Parts.{confirmed, left_of};
ghost use Rattle.subscriptions.specs.Nearest.{IsLeast, nearest};

use crate::codes::{grants, last_asked, refuses};
use crate::nearer::is_nearer;
use list_types::Text;
use mqtt_packet::{Ask, Qos};
use ordered_cells::OrderedCells;
use std::marker::Model;
use topic_filter::matches;

/// A route that a SUBACK granted. Contracts see the record of that name.
#[derive(Debug, Drop)]
pub struct Granted {
    /// The task that gets the messages.
    pub task: u32,
    pub filter: Text,
    /// What a renewal of the filter asks for.
    pub qos: Qos,
    /// Whether the session wasn't lost since a SUBACK granted the filter.
    pub sure: bool,
}

impl Model for Granted {
    ghost use Rattle.subscriptions.specs.Routing.{Granted as Route};

    ghost Value = { Route };

    ghost view = { λ g. record { task = g.task; topics = g.filter; qos = g.qos; sure = g.sure } };
}

impl Granted {
    /// A SUBACK came: where it grants the filter, the route is sure, and is renewed as was asked.
    #[tactic(auto, using(crate::proofs::Subacks::grants_are))]
    fn renew(&mut self, asks: &[Ask], codes: &[u8])
        ensures { self.new ≡ renewed_as (granted_in (coded asks.now codes.now)) asks.now self.old }
    {
        if grants(asks, codes, &self.filter) {
            self.qos = last_asked(asks, &self.filter).unwrap_or(self.qos);
            self.sure = true;
        }
    }

    /// The SUBACK of a renewal came: where it grants the filter, the route is sure.
    #[tactic(auto, using(crate::proofs::Subacks::grants_are))]
    fn confirm(&mut self, asks: &[Ask], codes: &[u8])
        ensures { self.new ≡ confirmed (granted_in (coded asks.now codes.now)) self.old }
    {
        if grants(asks, codes, &self.filter) {
            self.sure = true;
        }
    }

    /// What is left of it behind the SUBACK of a renewal: nothing where that refuses the filter.
    #[tactic(auto, using(crate::proofs::Subacks::refuses_are))]
    fn left(mut self, asks: &[Ask], codes: &[u8]) -> Option<Granted>
        ensures { result ≡ left_of asks.now codes.now self }
    {
        if refuses(asks, codes, &self.filter) {
            return None;
        }
        self.confirm(asks, codes);
        Some(self)
    }

    /// Its task, where the filter fits the name and the task is nearer than the least so far.
    fn nearest(&self, name: &str, from: u32, least: Option<u32>) -> Option<u32>
        requires filter { is_filter self.now.topics ≡ true }
        ensures { result ≡ nearest (fits self.now.topics name.now) self.now.task from least }
    {
        if is_nearer(self.task, from, least) && matches(self.filter.as_str(), name) {
            Some(self.task)
        } else {
            least
        }
    }

    /// Whether it is asked for again: where all are, or it isn't sure.
    pub fn is_wanted(&self, all: bool) -> bool
        ensures { result ≡ (all || not self.now.sure) }
    {
        all || !self.sure
    }

    /// The session was lost.
    fn lose(&mut self)
        ensures { self.new ≡ unsure_now self.old }
    {
        self.sure = false;
    }
}

/// Whether it is a granted route.
pub fn has<const ROUTES: usize>(
    granted: &OrderedCells<Granted, ROUTES>,
    task: u32,
    filter: &Text,
) -> bool
    ensures { result ≡ list_any (λ g. g.task == task && bytes_eq g.topics filter.now) granted.now }
{
    granted.any(|other| other.task == task && other.filter == *filter)
}

/// Whether another task has a granted route of this filter.
pub fn other_has<const ROUTES: usize>(
    granted: &OrderedCells<Granted, ROUTES>,
    task: u32,
    filter: &Text,
) -> bool
    ensures { result ≡ list_any (λ g. not (g.task == task) && bytes_eq g.topics filter.now) granted.now }
{
    granted.any(|other| other.task != task && other.filter == *filter)
}

/// A SUBACK came: the routes that it grants are sure, and are renewed as was asked.
pub fn renew_all<const ROUTES: usize>(
    granted: &mut OrderedCells<Granted, ROUTES>,
    asks: &[Ask],
    codes: &[u8],
)
    ensures { granted.new ≡ map (renewed_as (granted_in (coded asks.now codes.now)) asks.now) granted.old }
{
    granted.update(|mut route| {
        route.renew(asks, codes);
        Some(route)
    });
}

/// The session was lost.
pub fn unsure_all<const ROUTES: usize>(granted: &mut OrderedCells<Granted, ROUTES>)
    ensures { granted.new ≡ map unsure_now granted.old }
{
    granted.update(|mut route| {
        route.lose();
        Some(route)
    });
}

/// The least task not below `from` that has a route here that fits the name.
pub fn least_granted<const ROUTES: usize>(
    granted: &OrderedCells<Granted, ROUTES>,
    name: &str,
    from: u32,
) -> Option<u32>
    requires filters { list_all (λ g. is_filter g.topics) granted.now ≡ true }
    ensures { IsLeast (λ task. list_any (λ g. g.task == task && fits g.topics name.now) granted.now) from result }
{
    let mut least = None;
    for k in 0..granted.len() {
        let route = granted.at(k);
        least = route.nearest(name, from, least);
    }
    least
}

/// An unsubscribe of a task is done.
pub fn drop_filters<const ROUTES: usize>(
    granted: &mut OrderedCells<Granted, ROUTES>,
    task: u32,
    filters: &[Text],
)
    ensures { granted.new ≡ filter (λ g. not (is_any_of task filters.now g)) granted.old }
{
    granted.update(|route| {
        if route.task == task && is_among(filters, &route.filter) {
            None
        } else {
            Some(route)
        }
    });
}

fn is_among(filters: &[Text], filter: &Text) -> bool
    ensures { result ≡ is_one_of filters.now filter.now }
{
    filters.iter().any(|other| *other == *filter)
}

/// A task left.
pub fn drop_task<const ROUTES: usize>(granted: &mut OrderedCells<Granted, ROUTES>, task: u32)
    ensures { granted.new ≡ filter (λ g. not (g.task == task)) granted.old }
{
    granted.update(|route| if route.task == task {
        None
    } else {
        Some(route)
    });
}

/// The SUBACK of a renewal came: what it refuses is no route any more, and what it grants is sure.
pub fn confirm_all<const ROUTES: usize>(
    granted: &mut OrderedCells<Granted, ROUTES>,
    asks: &[Ask],
    codes: &[u8],
)
    ensures { granted.new ≡ flat_map (renewal_coded asks.now codes.now) granted.old }
{
    granted.update(|route| route.left(asks, codes));
}
