//! Events of the broker.

ghost use Rattle.std.specs.Prelude.{◌≡◌, ◌++◌, ◌<◌, [], Option, IfNone, IfOk, IfErr, OnOk, OnErr, OnSome};
ghost use Rattle.std.specs.Option.{option_to_list};
ghost use Rattle.agent_journal.specs.Wires.{sends};
ghost use Rattle.session_world.specs.declared.event.Event.TheVariants as v;
ghost use Rattle.broker_core.specs.Past.{Publishes};
ghost use Rattle.session_world.specs.Kept.{Plays, StandsFor, Stood, Ties};
ghost use Rattle.session_world.specs.Playing.{four_bytes, own_topic};
ghost use Rattle.session_world.specs.Setups.{dev, usual};
ghost use Rattle.session_world.specs.World.{World, Origin, told_of};
ghost use Rattle.session_world.specs.Queued.{items_in, HasSpare};

use crate::draws::number;
use crate::event::{Event, Played};
use crate::parts::Parts;
use crate::queue::Queue;
use agent_journal::Effect;
use list_types::Text;
use mqtt_packet::{NoMemory, Packet, Qos};

impl Parts {
    ghost use Rattle.session_world.specs.Viewed.{kept_in};

    /// The first packet that is under way to the broker comes to it, where it has a connection.
    pub(super) fn deliver_up(&mut self) -> Result<Played, (Event, NoMemory)>
        requires stood { Stood (kept_in self.old) }
        ensures plays { IfOk result (λ said. Plays (kept_in self.old) v.DeliverUp said (kept_in self.new)) }
        ensures events { self.new.events ≡ self.old.events }
        ensures err { IfErr result (λ e. (e.0 ≡ v.DeliverUp) × (kept_in self.new ≡ kept_in self.old)) }
    {
        if !self.broker.is_open() {
            return Ok(Played::Skipped);
        }
        if let Err(e) = self.down.reserve() {
            return Err((Event::DeliverUp, e));
        }
        let Some(packet) = next_sent(&mut self.up) else {
            return Ok(Played::Skipped);
        };
        match self.broker.step(packet) {
            Ok(replies) => {
                self.down.push(replies.packets.into_vec());
                Ok(Played::Yes)
            }
            Err((packet, e)) => {
                self.up.put_back(Effect::Send { packet });
                Err((Event::DeliverUp, e))
            }
        }
    }

    /// The broker publishes a message of its own.
    pub(super) fn publish_local(&mut self, qos: Qos) -> Result<Played, (Event, NoMemory)>
        requires stood { Stood (kept_in self.old) }
        requires few { self.old.events < 4000000000 }
        ensures plays { IfOk result (λ said. Plays (kept_in self.old) (v.LocalPublish qos) said (kept_in self.new)) }
        ensures events { self.new.events ≡ self.old.events }
        ensures err { IfErr result (λ e. (e.0 ≡ v.LocalPublish qos) × (kept_in self.new ≡ kept_in self.old)) }
    {
        match self.publish_own(qos) {
            Ok(()) => {
                self.own += 1;
                Ok(Played::Yes)
            }
            Err(e) => Err((Event::LocalPublish { qos }, e)),
        }
    }

    /// The broker publishes its next message.
    fn publish_own(&mut self, qos: Qos) -> Result<(), NoMemory>
        ensures told { OnOk result ((w : World) (origin : Option Origin) → StandsFor (kept_in self.old) w
            → Ties (kept_in self.new) (told_of dev usual (Publishes qos own_topic (four_bytes self.old.own)) origin w)) }
        ensures own { self.new.own ≡ self.old.own }
        ensures events { self.new.events ≡ self.old.events }
        ensures err { OnErr result (kept_in self.new ≡ kept_in self.old) }
    {
        let topic = Text::from_str(self.alloc, "in/a")?;
        let payload = number(self.alloc, self.own)?;
        self.down.reserve()?;
        let replies = self.broker.publish_local(&topic, qos, &payload)?;
        self.down.push(replies.packets.into_vec());
        Ok(())
    }
}

/// The first packet that is under way, without what needn't be sent in front of it.
fn next_sent(up: &mut Queue<Effect>) -> Option<Packet>
    ensures packets { sends (items_in up.old) ≡ option_to_list result ++ sends (items_in up.new) }
    ensures none { IfNone result (sends (items_in up.old) ≡ []) }
    ensures spare { OnSome result (HasSpare up.new) }
{
    'effects: while let Some(effect) = up.pop() {
        if let Effect::Send { packet } = effect {
            return Some(packet);
        }
    }
    None
}
