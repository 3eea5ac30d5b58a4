//! What the agent knows of its routes.

ghost use Rattle.std.specs.Prelude.{◌≡◌, ◌<◌, ◌≤◌, true, false, [], ◌∷◌, ◌++◌, length, map, take, drop, slice_get, ℕ, Bool, Some, IfOk, OnOk, OnErr, IfSome, MatchOption};
ghost use Rattle.std.specs.Option.{option_copied};
ghost use Rattle.agent_table.specs.Routes.{has_route};
ghost use Rattle.topic_filter.specs.Texts.{is_filter, is_name};
ghost use Rattle.subscriptions.specs.Routing as routes;
ghost use Rattle.subscriptions.specs.Routing.{route_of};
ghost use Rattle.subscriptions.specs.Rooms.{are_filters};

use crate::added::grant_to;
use crate::asked::{self, Asked, least_asked, leave_all, other_asks, place_of, settle_before};
use crate::granted::{
    Granted, confirm_all, drop_filters, drop_task, least_granted, other_has, unsure_all,
};
use crate::nearer::lesser;
use crate::renewable::renewable;
use crate::renewal::{self, Renewal};
use crate::room::{count_all, surely_fit};
use list_types::{Copied, Text};
use mqtt_packet::{Asks, Codes, Filters};
use ordered_cells::OrderedCells;
use std::alloc::{AllocError, Global};
use std::marker::Model;

/// What the agent knows of its routes. Contracts see the lists of `Routing`. With those that are asked
/// for there are at most ROUTES routes, which is 1 to 1,024.
///
/// `new` takes ROUTES cells for the routes that were granted. The lists of open subscribes and renewals
/// stand beside them and grow, since ROUTES doesn't bound their number: beside `new` only `ask`, `renewed`
/// and `unsure` take memory.
#[derive(Debug, Drop)]
pub struct Subscriptions<const ROUTES: usize> {
    granted: OrderedCells<Granted, ROUTES>,
    asked: Vec<Asked>,
    renewals: Vec<Renewal>,
}

impl<const ROUTES: usize> Model for Subscriptions<ROUTES> {
    ghost use Rattle.subscriptions.specs.Routing.{Routing};
    ghost use Rattle.subscriptions.specs.Rooms.{IsSound};

    ghost Value = { Routing };

    ghost view = { λ s. record { granted = s.granted; asked = s.asked.items; renewals = s.renewals.items } };

    ghost invariant = { λ s. IsSound ROUTES s.granted s.asked.items };
}

impl<const ROUTES: usize> Subscriptions<ROUTES> {
    /// No route. `Err` where memory runs out.
    pub fn new(alloc: Global) -> Result<Self, AllocError>
        requires size { (0 < ROUTES) × (ROUTES ≤ 1024) }
        ensures { IfOk result (λ routing. routing ≡ routes.nothing) }
    {
        Ok(Subscriptions {
            granted: OrderedCells::new(alloc)?,
            asked: Vec::new(alloc),
            renewals: Vec::new(alloc),
        })
    }

    /// Whether the routes and the asked ones together are at most ROUTES, where each pair of a task and a
    /// filter counts once. It takes one pass, and compares pairs only where they might be too many.
    pub fn has_room(&self, task: u32, asks: &Asks) -> bool
        ensures { result ≡ routes.has_room ROUTES self.now task asks.now }
    {
        let asks = asks.as_slice();
        surely_fit(&self.granted, &self.asked, asks)
            || count_all(&self.granted, &self.asked, task, asks) <= ROUTES
    }

    /// A subscribe was sent. Where memory runs out, nothing has changed.
    pub fn ask(&mut self, alloc: Global, task: u32, id: u16, asks: &Asks) -> Result<(), AllocError>
        requires room { routes.has_room ROUTES self.old task asks.now ≡ true }
        requires filters { are_filters asks.now ≡ true }
        ensures asked { OnOk result (self.new ≡ routes.asked_last task id asks.now self.old) }
        ensures same { OnErr result (self.new ≡ self.old) }
    {
        let asks = asks.copy(alloc)?.into_vec();
        self.asked.push(Asked {
            task,
            id,
            asks,
            left: false,
        })?;
        Ok(())
    }

    /// How many filters the open subscribe of an identifier asks for. `None` where there is none.
    pub fn asked_len(&self, id: u16) -> Option<usize>
        ensures { result ≡ routes.asked_len id self.now }
    {
        let open = self.asked.iter().find(|open| open.id == id)?;
        Some(open.asks.len())
    }

    /// The SUBACK of an open subscribe came, with a code for each of its filters.
    pub fn grant(&mut self, id: u16, codes: &Codes)
        requires asked { routes.asked_len id self.old ≡ Some (length codes.now) }
        ensures { self.new ≡ routes.granted id codes.now self.old }
    {
        let Some(place) = place_of(&self.asked, id) else {
            return;
        };
        let open = self.asked.remove(place);
        let codes = codes.as_slice();
        settle_before(&mut self.asked, place, &open.asks, codes);
        grant_to(&mut self.granted, open, codes);
    }

    /// The subscribe of an identifier ended without a SUBACK, or there is none.
    pub fn lose(&mut self, id: u16)
        ensures { self.new ≡ routes.lost id self.old }
    {
        asked::drop_id(&mut self.asked, id);
    }

    /// All subscribes ended.
    pub fn lose_all(&mut self)
        ensures { self.new ≡ routes.all_lost self.old }
    {
        self.asked.clear();
    }

    /// An unsubscribe of a task is done.
    pub fn drop_filters(&mut self, task: u32, filters: &Filters)
        ensures { self.new ≡ routes.filters_dropped task filters.now self.old }
    {
        drop_filters(&mut self.granted, task, filters.as_slice());
    }

    /// A task left.
    pub fn drop_task(&mut self, task: u32)
        ensures { self.new ≡ routes.task_dropped task self.old }
    {
        drop_task(&mut self.granted, task);
        leave_all(&mut self.asked, task);
    }

    /// How many routes are granted. They are at most ROUTES.
    pub fn granted_len(&self) -> usize
        ensures count { result ≡ length self.now.granted }
        ensures most { result ≤ ROUTES }
    {
        self.granted.len()
    }

    /// The granted route at place `k`, counted from 0 in the order in which they were granted.
    pub fn granted(&self, k: usize) -> Option<&Granted>
        ensures { option_copied result ≡ slice_get self.now.granted k }
    {
        self.granted.get(k)
    }

    /// Adds a granted route behind all others, as a session that is read back has it. It takes no memory.
    pub fn add_granted(&mut self, route: Granted)
        requires filter { is_filter route.topics ≡ true }
        requires none_asked { self.old.asked ≡ [] }
        requires room { length self.old.granted < ROUTES }
        requires fresh { has_route (map route_of self.old.granted) (route_of route) ≡ false }
        ensures { self.new ≡ record self.old { granted = self.old.granted ++ route ∷ [] } }
    {
        self.granted.push(route);
    }

    /// Whether another task has a route of this filter.
    pub fn other_has(&self, task: u32, filter: &Text) -> bool
        ensures { result ≡ routes.other_has self.now task filter.now }
    {
        other_has(&self.granted, task, filter) || other_asks(&self.asked, task, filter)
    }

    /// The least task not below `from` that has a route that fits the name. Each route is looked at once.
    pub fn next_match(&self, name: &str, from: u32) -> Option<u32>
        requires name { is_name name.now ≡ true }
        ensures from { IfSome result (λ task. from ≤ task) }
        ensures reached { IfSome result (λ task. routes.is_reached self.now name.now task ≡ true) }
        ensures least { (task : ℕ) → from ≤ task → routes.is_reached self.now name.now task ≡ true → MatchOption result ⊥ (λ least. least ≤ task) }
    {
        lesser(
            least_granted(&self.granted, name, from),
            least_asked(&self.asked, name, from),
        )
    }

    /// The session was lost: no route is sure.
    pub fn session_lost(&mut self)
        ensures { self.new ≡ routes.session_lost self.old }
    {
        unsure_all(&mut self.granted);
    }

    /// The filters of all granted routes, or of the unsure ones alone, as they are asked for again: each
    /// once and in increasing order, those of one renewal from a place in that order on. `Err` where memory
    /// runs out.
    pub fn unsure(&self, alloc: Global, all: bool, from: usize) -> Result<Asks, AllocError>
        ensures part { IfOk result (λ asks. asks ≡ take 8 (drop from (routes.renewable all self.now))) }
        ensures few { length (routes.renewable all self.now) ≤ ROUTES }
    {
        renewable(alloc, &self.granted, all, from)
    }

    /// A renewal of these filters was sent. Where memory runs out, nothing has changed.
    pub fn renewed(&mut self, id: u16, asks: Asks) -> Result<(), AllocError>
        ensures renewed { OnOk result (self.new ≡ routes.renewed id asks self.old) }
        ensures same { OnErr result (self.new ≡ self.old) }
    {
        self.renewals.push(Renewal { id, asks })?;
        Ok(())
    }

    /// An accepted CONNACK came: these renewals were sent, and no others are open.
    pub fn set_renewals(&mut self, renewals: Vec<Renewal>)
        ensures { self.new ≡ routes.renewals_set renewals.items self.old }
    {
        self.renewals = renewals;
    }

    /// How many filters the open renewal of an identifier asks for. `None` where there is none.
    pub fn renewal_len(&self, id: u16) -> Option<usize>
        ensures { result ≡ routes.renewal_len id self.now }
    {
        let renewal = renewal::find(&self.renewals, id)?;
        Some(renewal.asks.len())
    }

    /// How many renewals are open. What can be renewed is at most ROUTES filters.
    pub fn renewals_len(&self) -> usize
        ensures count { result ≡ length self.now.renewals }
        ensures few { (all : Bool) → length (routes.renewable all self.now) ≤ ROUTES }
    {
        self.renewals.len()
    }

    /// The SUBACK of a renewal came, with a code for each of its filters.
    pub fn grant_renewal(&mut self, id: u16, codes: &Codes)
        requires renewal { routes.renewal_len id self.old ≡ Some (length codes.now) }
        ensures { self.new ≡ routes.renewal_granted id codes.now self.old }
    {
        if let Some(renewal) = renewal::find(&self.renewals, id) {
            let asks = renewal.asks.as_slice();
            confirm_all(&mut self.granted, asks, codes.as_slice());
        }
        renewal::drop_id(&mut self.renewals, id);
    }

    /// The connection ended: no renewal is open.
    pub fn broke(&mut self)
        ensures { self.new ≡ routes.broke self.old }
    {
        self.renewals.clear();
    }
}
