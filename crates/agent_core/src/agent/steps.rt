//! How an entry is made: the row's effects first, which take memory, and then all that is kept.

ghost use Rattle.std.specs.Prelude.{◌≡◌, ◌≤◌, [], true, false, Some, is_some, length, IfOk, OnErr, OnOk};
ghost use Rattle.agent_journal.specs.Readings.{opens};
ghost use Rattle.agent_table.specs.Histories.{effects_of, phase_by};
ghost use Rattle.agent_table.specs.Sessions as sessions;
ghost use Rattle.agent_table.specs.Table.{cause_row};
ghost use Rattle.agent_core.specs.After.{after};
ghost use Rattle.agent_core.specs.Kept.{readings_in};
ghost use Rattle.agent_core.specs.Laws.{IsSound};
ghost use Rattle.agent_core.specs.Renewing.{as_list};

use super::Core;
use crate::filters::sent_filters;
use crate::noted::{
    accepted_behind, breaks_behind, most_accepted, note_books, note_task, ping_behind, sent_behind,
};
use crate::routes::ask;
use crate::sends::{has_send, last_drawn, sends_ping, sent_id};
use agent_journal::{Cause, Effect, Effects, OffBy};
use list_types::Copied;
use mqtt_packet::Packet;
use pending_acks::Pending;
use std::alloc::AllocError;

impl<const ACKS: usize, const IN: usize, const ROUTES: usize> Core<ACKS, IN, ROUTES> {
    /// Makes the effects of a cause that has a row, and notes the entry. Where memory runs out, nothing has
    /// changed.
    pub(super) fn enter(&mut self, at: u64, cause: &Cause) -> Result<Effects, AllocError>
        requires { is_some (cause_row self.old.setup self.old.sizes (readings_in self.old) at cause.now) ≡ true }
        ensures effects { IfOk result (λ effects. effects_of (cause_row self.old.setup self.old.sizes (readings_in self.old) at cause.now) ≡ Some effects) }
        ensures next { IfOk result (λ effects. self.new ≡ after self.old at cause.now effects (phase_by (cause_row self.old.setup self.old.sizes (readings_in self.old) at cause.now) self.old.phase)) }
        ensures sound { OnOk result (IsSound self.old) }
        ensures same { OnErr result (self.new ≡ self.old) }
    {
        // No more than ACKS commands are open, and no more than ROUTES filters can be renewed.
        self.pending.len();
        self.subscriptions.renewals_len();
        let row = self.row(at, cause)?;
        let effects = row.effects.as_slice();
        let opened = self.opened_by(cause, effects)?;
        let lost = self.loses_session(cause);
        ask(self.alloc, &mut self.subscriptions, cause, effects, &opened)?;
        note_books(
            &mut self.pending,
            &mut self.qos,
            &mut self.subscriptions,
            cause,
            effects,
            opened,
            lost,
        );
        note_task(&mut self.takes, &mut self.left, cause);
        self.breaks = breaks_behind(self.setup.reopen, self.breaks, cause);
        self.accepted = accepted_behind(most_accepted(self.setup.wipe), self.accepted, cause);
        self.last_drawn = last_drawn(self.last_drawn, effects);
        self.ping = ping_behind(self.ping, at, cause, sends_ping(effects));
        self.just_sent = has_send(effects);
        self.last_sent = sent_behind(self.last_sent, at, cause, self.just_sent);
        self.off = OffBy::behind(self.phase, row.phase, cause, self.off);
        self.last_time = at;
        self.phase = row.phase;
        Ok(row.effects)
    }

    /// The command that a Take opens, where its own packet is sent.
    fn opened_by(&self, cause: &Cause, effects: &[Effect]) -> Result<Option<Pending>, AllocError>
        ensures { IfOk result (λ opened. as_list opened ≡ opens cause.now effects.now) }
    {
        let Cause::Take { task, seq, request } = cause else {
            return Ok(None);
        };
        match sent_id(effects) {
            None => Ok(None),
            Some(id) => Ok(Some(Pending {
                id,
                task: *task,
                seq: *seq,
                request: request.copy(self.alloc)?,
                sent_filters: sent_filters(self.alloc, effects)?,
            })),
        }
    }

    /// Whether the cause says that the broker lost the session.
    fn loses_session(&self, cause: &Cause) -> bool
        ensures { result ≡ sessions.loses_session self.now.setup self.now.accepted cause.now }
    {
        match cause {
            Cause::Arrived { packet } => self.loses_by(packet),
            _ => false,
        }
    }

    fn loses_by(&self, packet: &Packet) -> bool
        ensures { result ≡ sessions.loses_by self.now.setup self.now.accepted packet.now }
    {
        match packet {
            Packet::ConnAck { present, code } => {
                *code == 0 && !*present && !self.is_wiping() && !self.is_first()
            }
            _ => false,
        }
    }
}
