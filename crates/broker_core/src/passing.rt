//! Passing a message on to the sessions without a connection (MQTT 3.1.1, section 3.3.5).

ghost use Rattle.std.specs.Prelude.{◌≡◌, ℕ, List, map, OnOk, OnErr};
ghost use Rattle.broker_core.specs.Session as spec;

use crate::session::Session;
use mqtt_packet::Qos;
use std::alloc::AllocError;

/// Gives each session its copy. Where memory runs out, nothing has changed.
pub fn offer_all(
    sessions: &mut [Session],
    qos: Qos,
    name: &str,
    place: usize,
) -> Result<(), AllocError>
    ensures ok { OnOk result (sessions.new ≡ map (spec.offered qos name.now place) sessions.old) }
    ensures err { OnErr result (sessions.new ≡ sessions.old) }
{
    for at in 0..sessions.len() {
        if let Err(e) = sessions[at].offer(qos, name, place) {
            withdraw_all(&mut sessions[..at], qos, name);
            return Err(e);
        }
    }
    Ok(())
}

/// Takes these copies back.
pub fn withdraw_all(sessions: &mut [Session], qos: Qos, name: &str)
    ensures { (before : List spec.Session) (place : ℕ) → sessions.old ≡ map (spec.offered qos name.now place) before → sessions.new ≡ before }
{
    for session in sessions.iter_mut() {
        session.withdraw(qos, name);
    }
}
