//! One client's session, and what happens to it.

ghost use Rattle.std.specs.Prelude.{◌≡◌, ◌++◌, ◌∷◌, [], ℕ, false, true, map, length, take, drop, IfOk, OnOk, OnErr};
ghost use Rattle.std.specs.List.{flat_map, list_any};
ghost use Rattle.mqtt_packet.specs.declared.packet.Packet.TheVariants as p;
ghost use Rattle.mqtt_packet.specs.declared.qos.Qos.TheVariants.{AtLeastOnce};
ghost use Rattle.agent_table.specs.Deliveries.{is_among};
ghost use Rattle.broker_core.specs.Copies.{waits, sent_at_once};
ghost use Rattle.broker_core.specs.Subscribed as subscribed;
ghost use Rattle.broker_core.specs.Session as spec;

use crate::copies::{copy_of, push_all, push_releases};
use crate::delivery::{Delivery, Waiting};
use crate::identifiers::{is_among, remove};
use crate::subscribed::{copied_at, enter_all, remove_all, valid_asks};
use crate::window::{begin, drop_front, has_delivery, in_use, last_id, remove_delivery};
use list_types::{Copied, Text};
use mqtt_packet::{Ask, Packet, Qos, Resend};
use std::alloc::{AllocError, Global};
use std::collections::VecDeque;
use std::marker::Model;
use std::slice;

/// What the broker keeps of a client (MQTT 3.1.1, section 3.1.2.4). Contracts see it as plain lists.
#[derive(Debug, Drop)]
pub struct Session {
    client: Text,
    received: Vec<u16>,
    sent: Vec<Delivery>,
    released: Vec<u16>,
    waiting: VecDeque<Waiting>,
    last_drawn: u16,
    subscriptions: Vec<Ask>,
}

impl Model for Session {
    ghost use Rattle.std.specs.Prelude.{◌≡◌, true};
    ghost use Rattle.std.specs.List.{list_all};
    ghost use Rattle.broker_core.specs.Session as spec;
    ghost use Rattle.broker_core.specs.Subscribed.{is_valid};

    ghost Value = { spec.Session };

    ghost view = { λ s. record {
      client = s.client;
      received = s.received.items;
      sent = s.sent.items;
      released = s.released.items;
      waiting = s.waiting.items;
      last_drawn = s.last_drawn;
      subscriptions = s.subscriptions.items;
    } };

    ghost invariant = { λ s. list_all is_valid s.subscriptions.items ≡ true };
}

impl Session {
    /// A session that begins.
    pub(crate) fn new(alloc: Global, client: &Text) -> Result<Self, AllocError>
        ensures { IfOk result (λ session. session ≡ spec.begins client.now) }
    {
        Ok(Session {
            client: client.copy(alloc)?,
            received: Vec::new(alloc),
            sent: Vec::new(alloc),
            released: Vec::new(alloc),
            waiting: VecDeque::new(alloc),
            last_drawn: 0,
            subscriptions: Vec::new(alloc),
        })
    }

    /// Whether it is this client's.
    pub(crate) fn is_of(&self, client: &Text) -> bool
        ensures { result ≡ spec.is_of client.now self.now }
    {
        self.client == *client
    }

    /// Whether a QoS 2 PUBLISH of this identifier came, and its PUBREL didn't.
    pub(crate) fn has_received(&self, id: u16) -> bool
        ensures { result ≡ is_among self.now.received id }
    {
        is_among(self.received.as_slice(), id)
    }

    /// A QoS 2 PUBLISH of this identifier came.
    pub(crate) fn enter(&mut self, id: u16) -> Result<(), AllocError>
        ensures ok { OnOk result (self.new ≡ spec.enters id self.old) }
        ensures err { OnErr result (self.new ≡ self.old) }
    {
        self.received.push(id)?;
        Ok(())
    }

    /// It didn't: the identifier that was entered last isn't there.
    pub(crate) fn forget_last(&mut self)
        ensures { (before : spec.Session) (id : ℕ) → self.old ≡ spec.enters id before → self.new ≡ before }
    {
        self.received.pop();
    }

    /// A PUBREL came.
    pub(crate) fn forget(&mut self, id: u16)
        ensures { self.new ≡ record self.old { received = spec.without id self.old.received } }
    {
        remove(&mut self.received, id);
    }

    /// A copy for the session, where a subscription fits.
    pub(crate) fn offer(&mut self, qos: Qos, name: &str, place: usize) -> Result<(), AllocError>
        ensures ok { OnOk result (self.new ≡ spec.offered qos name.now place self.old) }
        ensures err { OnErr result (self.new ≡ self.old) }
    {
        match copied_at(qos, name, self.subscriptions.as_slice()) {
            None => {}
            Some(Qos::AtMostOnce) => {}
            Some(qos) => self.waiting.push_back(Waiting { place, qos })?,
        }
        Ok(())
    }

    /// The copy that was offered last isn't there.
    pub(crate) fn withdraw(&mut self, qos: Qos, name: &str)
        ensures { (before : spec.Session) (place : ℕ) → self.old ≡ spec.offered qos name.now place before → self.new ≡ before }
    {
        match copied_at(qos, name, self.subscriptions.as_slice()) {
            None => {}
            Some(Qos::AtMostOnce) => {}
            Some(_) => {
                self.waiting.pop_back();
            }
        }
    }

    /// A copy for the session on whose connection it can be sent: at QoS 0 at once, else as the window allows. `passed` are the
    /// messages before this one.
    pub(crate) fn deliver(
        &mut self,
        alloc: Global,
        qos: Qos,
        name: &str,
        passed: &[Packet],
        message: &Packet,
        packets: &mut Resend,
    ) -> Result<(), AllocError>
        ensures ok { OnOk result (self.new ≡ spec.refilled (spec.offered qos name.now (length passed.now) self.old)) }
        ensures packets { OnOk result (packets.new ≡ packets.old ++ (sent_at_once (subscribed.copied_at qos name.now self.old.subscriptions) message.now ++ spec.first_sent (passed.now ++ message.now ∷ []) (spec.offered qos name.now (length passed.now) self.old))) }
        ensures err { OnErr result (self.new ≡ self.old) }
    {
        if let Some(Qos::AtMostOnce) = copied_at(qos, name, self.subscriptions.as_slice()) {
            packets.push(copy_of(alloc, false, Qos::AtMostOnce, 0, message)?)?;
        }
        self.offer(qos, name, passed.len())?;
        let sent = self.refill_as_is(alloc, passed, slice::from_ref(message), packets);
        if sent.is_err() {
            self.withdraw(qos, name);
        }
        sent
    }

    /// The session goes on with a new connection: what wasn't acknowledged is sent again (section 4.4), and then what waits as
    /// the window allows.
    pub(crate) fn resume(
        &mut self,
        alloc: Global,
        passed: &[Packet],
        packets: &mut Resend,
    ) -> Result<(), AllocError>
        ensures ok { OnOk result (self.new ≡ spec.refilled self.old) }
        ensures packets { OnOk result (packets.new ≡ packets.old ++ spec.sent_again passed.now self.old ++ spec.first_sent passed.now self.old) }
        ensures err { OnErr result (self.new ≡ self.old) }
    {
        push_releases(packets, self.released.as_slice())?;
        push_all(alloc, packets, true, self.sent.as_slice(), passed, &[])?;
        self.refill_as_is(alloc, passed, &[], packets)
    }

    fn refill_as_is(
        &mut self,
        alloc: Global,
        passed: &[Packet],
        newest: &[Packet],
        packets: &mut Resend,
    ) -> Result<(), AllocError>
        ensures ok { OnOk result (self.new ≡ spec.refilled self.old) }
        ensures packets { OnOk result (packets.new ≡ packets.old ++ spec.first_sent (passed.now ++ newest.now) self.old) }
        ensures err { OnErr result (self.new ≡ self.old) }
    {
        let sent = self.sent.as_slice().to_vec(alloc)?;
        let released = self.released.as_slice().to_vec(alloc)?;
        self.refill(alloc, sent, released, passed, newest, packets)
    }

    /// SUBSCRIBE: each filter that is valid is entered.
    #[tactic(auto, using(crate::proofs::Validity::entered_valid))]
    pub(crate) fn subscribe(&mut self, alloc: Global, asks: &[Ask]) -> Result<(), AllocError>
        ensures ok { OnOk result (self.new ≡ record self.old { subscriptions = subscribed.subscribed asks.now self.old.subscriptions }) }
        ensures err { OnErr result (self.new ≡ self.old) }
    {
        let valid = valid_asks(alloc, asks)?;
        self.subscriptions.reserve(valid.len())?;
        enter_all(&mut self.subscriptions, valid);
        Ok(())
    }

    /// UNSUBSCRIBE: subscriptions of these filters end.
    #[tactic(auto, using(crate::proofs::Validity::kept_valid))]
    pub(crate) fn unsubscribe(&mut self, filters: &[Text])
        ensures { self.new ≡ record self.old { subscriptions = subscribed.unsubscribed filters.now self.old.subscriptions } }
    {
        remove_all(&mut self.subscriptions, filters);
    }

    /// Whether a delivery at QoS 1 has the identifier.
    pub(crate) fn awaits_acknowledgement(&self, id: u16) -> bool
        ensures { result ≡ list_any (spec.is_delivery AtLeastOnce id) self.now.sent }
    {
        has_delivery(self.sent.as_slice(), Qos::AtLeastOnce, id)
    }

    /// Whether a released delivery has the identifier.
    pub(crate) fn awaits_completion(&self, id: u16) -> bool
        ensures { result ≡ is_among self.now.released id }
    {
        is_among(self.released.as_slice(), id)
    }

    /// PUBACK: a delivery at QoS 1 ends. Then waiting copies are sent as the window allows.
    pub(crate) fn acknowledge(
        &mut self,
        alloc: Global,
        id: u16,
        passed: &[Packet],
        packets: &mut Resend,
    ) -> Result<(), AllocError>
        ensures ok { OnOk result (self.new ≡ spec.refilled (spec.acknowledged id self.old)) }
        ensures packets { OnOk result (packets.new ≡ packets.old ++ spec.first_sent passed.now (spec.acknowledged id self.old)) }
        ensures err { OnErr result (self.new ≡ self.old) }
    {
        let mut sent = self.sent.as_slice().to_vec(alloc)?;
        remove_delivery(&mut sent, Qos::AtLeastOnce, id);
        let released = self.released.as_slice().to_vec(alloc)?;
        self.refill(alloc, sent, released, passed, &[], packets)
    }

    /// Whether a delivery at QoS 2, sent or released, has the identifier.
    pub(crate) fn awaits_release(&self, id: u16) -> bool
        ensures { result ≡ spec.awaits_release id self.now }
    {
        has_delivery(self.sent.as_slice(), Qos::ExactlyOnce, id)
            || is_among(self.released.as_slice(), id)
    }

    /// PUBREC: a delivery at QoS 2 that was sent is released.
    pub(crate) fn release(&mut self, id: u16) -> Result<(), AllocError>
        ensures ok { OnOk result (self.new ≡ spec.released id self.old) }
        ensures err { OnErr result (self.new ≡ self.old) }
    {
        if has_delivery(self.sent.as_slice(), Qos::ExactlyOnce, id) {
            self.released.push(id)?;
            remove_delivery(&mut self.sent, Qos::ExactlyOnce, id);
        }
        Ok(())
    }

    /// PUBCOMP: a released delivery ends. Then waiting copies are sent as the window allows.
    pub(crate) fn complete(
        &mut self,
        alloc: Global,
        id: u16,
        passed: &[Packet],
        packets: &mut Resend,
    ) -> Result<(), AllocError>
        ensures ok { OnOk result (self.new ≡ spec.refilled (spec.completed id self.old)) }
        ensures packets { OnOk result (packets.new ≡ packets.old ++ spec.first_sent passed.now (spec.completed id self.old)) }
        ensures err { OnErr result (self.new ≡ self.old) }
    {
        let sent = self.sent.as_slice().to_vec(alloc)?;
        let mut released = self.released.as_slice().to_vec(alloc)?;
        remove(&mut released, id);
        self.refill(alloc, sent, released, passed, &[], packets)
    }

    /// With these deliveries, what waits is sent as the window allows.
    fn refill(
        &mut self,
        alloc: Global,
        sent: Vec<Delivery>,
        released: Vec<u16>,
        passed: &[Packet],
        newest: &[Packet],
        packets: &mut Resend,
    ) -> Result<(), AllocError>
        ensures ok { OnOk result (self.new ≡ spec.refilled (record self.old { sent = sent.items; released = released.items })) }
        ensures packets { OnOk result (packets.new ≡ packets.old ++ spec.first_sent (passed.now ++ newest.now) (record self.old { sent = sent.items; released = released.items })) }
        ensures err { OnErr result (self.new ≡ self.old) }
    {
        let used = in_use(alloc, sent.as_slice(), released.as_slice())?;
        let begun = begin(alloc, self.last_drawn, used, &self.waiting)?;
        push_all(alloc, packets, false, begun.as_slice(), passed, newest)?;
        let mut sent = sent;
        sent.extend_from_slice(begun.as_slice())?;
        self.sent = sent;
        self.released = released;
        self.last_drawn = last_id(self.last_drawn, begun.as_slice());
        drop_front(&mut self.waiting, begun.len());
        Ok(())
    }
}
