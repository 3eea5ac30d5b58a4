//! Open subscribes.

ghost use Rattle.std.specs.Prelude.{◌≡◌, ◌≤◌, [], ◌∷◌, ◌++◌, ◌&&◌, ◌==◌, not, true, map, take, drop, length};
ghost use Rattle.std.specs.List.{list_any, list_all, filter, position};
ghost use Rattle.std.specs.Str.{bytes_eq};
ghost use Rattle.agent_table.specs.Routes.{coded, granted_in};
ghost use Rattle.topic_filter.specs.Fitting.{fits};
ghost use Rattle.subscriptions.specs.Routing.{settled, leaves, has_id};
ghost use Rattle.subscriptions.specs.Rooms.{are_filters, asked_routes};
ghost use Rattle.subscriptions.specs.Parts.{settled_by};
ghost use Rattle.subscriptions.specs.Nearest.{IsLeast, nearest};

use crate::codes::{grants, last_asked};
use crate::nearer::is_nearer;
use list_types::Text;
use mqtt_packet::Ask;
use std::marker::Model;
use topic_filter::matches;

/// A subscribe that was sent and has no SUBACK yet. Contracts see the record of that name.
#[derive(Debug, Drop)]
pub struct Asked {
    /// The task that asked.
    pub task: u32,
    /// The identifier of its packet (MQTT 3.1.1, section 2.3.1).
    pub id: u16,
    pub asks: Vec<Ask>,
    /// Whether the task has left since.
    pub left: bool,
}

impl Model for Asked {
    ghost use Rattle.subscriptions.specs.Routing.{Asked as Open};

    ghost Value = { Open };

    ghost view = { λ a. record { task = a.task; id = a.id; asks = a.asks.items; left = a.left } };
}

impl Asked {
    /// The SUBACK of a later subscribe came: what it grants is asked for here as there.
    pub fn settle(&mut self, asks: &[Ask], codes: &[u8])
        ensures { self.new ≡ settled_by (granted_in (coded asks.now codes.now)) asks.now self.old }
    {
        settle_asks(&mut self.asks, asks, codes);
    }

    /// How many pairs of its task and a filter it asks for. None where the task has left.
    pub fn pairs(&self) -> usize
        ensures { result ≡ length (asked_routes (self.now ∷ [])) }
    {
        if self.left { 0 } else { self.asks.len() }
    }

    /// Whether it makes this a route of this task.
    fn has(&self, task: u32, filter: &Text) -> bool
        ensures { result ≡ (not self.now.left && (self.now.task == task && list_any (λ ask. bytes_eq ask.filter filter.now) self.now.asks)) }
    {
        !self.left && self.task == task && asks_for(&self.asks, filter)
    }

    /// Whether it makes this a route of another task.
    fn gives_other(&self, task: u32, filter: &Text) -> bool
        ensures { result ≡ (not self.now.left && (not (self.now.task == task) && list_any (λ ask. bytes_eq ask.filter filter.now) self.now.asks)) }
    {
        !self.left && self.task != task && asks_for(&self.asks, filter)
    }

    /// Its task, where it hasn't left, a filter fits the name and the task is nearer than the least so far.
    fn nearest(&self, name: &str, from: u32, least: Option<u32>) -> Option<u32>
        requires filters { are_filters self.now.asks ≡ true }
        ensures { result ≡ nearest (not self.now.left && list_any (λ ask. fits ask.filter name.now) self.now.asks) self.now.task from least }
    {
        if !self.left && is_nearer(self.task, from, least) && fit(&self.asks, name) {
            Some(self.task)
        } else {
            least
        }
    }

    /// A task left.
    pub fn leave(&mut self, task: u32)
        ensures { self.new ≡ leaves task self.old }
    {
        if self.task == task {
            self.left = true;
        }
    }
}

/// Whether one of these is for the filter.
pub fn asks_for(asks: &[Ask], filter: &Text) -> bool
    ensures { result ≡ list_any (λ ask. bytes_eq ask.filter filter.now) asks.now }
{
    asks.iter().any(|ask| ask.filter == *filter)
}

/// Whether this is asked for as a route of this task.
pub fn are_asked(asked: &[Asked], task: u32, filter: &Text) -> bool
    ensures { result ≡ list_any (λ a. not a.left && (a.task == task && list_any (λ ask. bytes_eq ask.filter filter.now) a.asks)) asked.now }
{
    asked.iter().any(|open| open.has(task, filter))
}

/// Whether this is asked for as a route of another task.
pub fn other_asks(asked: &[Asked], task: u32, filter: &Text) -> bool
    ensures { result ≡ list_any (λ a. not a.left && (not (a.task == task) && list_any (λ ask. bytes_eq ask.filter filter.now) a.asks)) asked.now }
{
    asked.iter().any(|open| open.gives_other(task, filter))
}

/// Whether one of these filters fits the name.
fn fit(asks: &[Ask], name: &str) -> bool
    requires { are_filters asks.now ≡ true }
    ensures { result ≡ list_any (λ ask. fits ask.filter name.now) asks.now }
{
    for ask in asks {
        if matches(ask.filter.as_str(), name) {
            return true;
        }
    }
    false
}

/// The least task not below `from` that hasn't left and asks for a filter that fits the name.
pub fn least_asked(asked: &[Asked], name: &str, from: u32) -> Option<u32>
    requires filters { list_all (λ a. are_filters a.asks) asked.now ≡ true }
    ensures { IsLeast (λ task. list_any (λ a. a.task == task && (not a.left && list_any (λ ask. fits ask.filter name.now) a.asks)) asked.now) from result }
{
    let mut least = None;
    for open in asked {
        least = open.nearest(name, from, least);
    }
    least
}

/// The place of the first subscribe of an identifier.
pub fn place_of(asked: &[Asked], id: u16) -> Option<usize>
    ensures { result ≡ position (has_id id) asked.now }
{
    asked.iter().position(|open| open.id == id)
}

/// The SUBACK of the subscribe at a place came: those before it are settled.
pub fn settle_before(asked: &mut Vec<Asked>, place: usize, asks: &[Ask], codes: &[u8])
    requires { place ≤ length asked.old.items }
    ensures { asked.new.items ≡ map (settled_by (granted_in (coded asks.now codes.now)) asks.now) (take place asked.old.items) ++ drop place asked.old.items }
{
    for at in 0..place {
        let earlier = &mut asked[at];
        earlier.settle(asks, codes);
    }
}

/// The filters of an earlier subscribe are settled.
fn settle_asks(own: &mut Vec<Ask>, asks: &[Ask], codes: &[u8])
    ensures { own.new.items ≡ map (settled (granted_in (coded asks.now codes.now)) asks.now) own.old.items }
{
    for ask in own.iter_mut() {
        settle(ask, asks, codes);
    }
}

fn settle(ask: &mut Ask, asks: &[Ask], codes: &[u8])
    ensures { ask.new ≡ settled (granted_in (coded asks.now codes.now)) asks.now ask.old }
{
    if grants(asks, codes, &ask.filter) {
        ask.qos = last_asked(asks, &ask.filter).unwrap_or(ask.qos);
    }
}

/// The subscribe of an identifier ended.
pub fn drop_id(asked: &mut Vec<Asked>, id: u16)
    ensures { asked.new.items ≡ filter (λ a. not (has_id id a)) asked.old.items }
{
    asked.retain(|open| open.id != id);
}

/// A task left.
pub fn leave_all(asked: &mut Vec<Asked>, task: u32)
    ensures { asked.new.items ≡ map (leaves task) asked.old.items }
{
    for open in asked.iter_mut() {
        open.leave(task);
    }
}
