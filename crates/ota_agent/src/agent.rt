//! The state of an update, moved by its events.

ghost use Rattle.std.specs.Prelude.{◌≡◌};
ghost use Rattle.ota_agent.specs.Table as table;
ghost use Rattle.ota_agent.specs.declared.events.OtaState.TheVariants.{Init};

use crate::events::{Action, OtaEvent, OtaState};
use crate::table::row;
use arrayvec::ArrayVec;
use std::marker::Model;

/// What an event asks for, in the order in which it is to be done.
pub type Actions = ArrayVec<Action, 4>;

/// An update over the air. Contracts see its state.
#[derive(Debug, Drop)]
pub struct Ota {
    state: OtaState,
}

impl Model for Ota {
    ghost use Rattle.ota_agent.specs.declared.events.OtaState.{OtaState};

    ghost Value = { OtaState };

    ghost view = { λ o. o.state };
}

impl Ota {
    /// An update that wasn't started.
    pub fn new() -> Ota
        ensures { result ≡ Init }
    {
        Ota {
            state: OtaState::Init,
        }
    }

    /// Where the update stands.
    pub fn state(&self) -> OtaState
        ensures { result ≡ self.now }
    {
        self.state
    }

    /// Moves by the event table. An event that the table doesn't list for the present state leaves it
    /// and asks for nothing.
    pub fn on(&mut self, e: OtaEvent) -> Actions
        ensures state { self.new ≡ table.state_by (table.row e self.old) self.old }
        ensures actions { result.items ≡ table.actions_by (table.row e self.old) }
    {
        let (state, listed) = row(e, self.state);
        self.state = state;
        let mut actions = Actions::new();
        for action in listed {
            actions.push(*action);
        }
        actions
    }
}
