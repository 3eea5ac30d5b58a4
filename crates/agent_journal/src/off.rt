//! How the agent came to the phase Off.

ghost use Rattle.std.specs.Prelude.{◌≡◌};
ghost use Rattle.agent_journal.specs.Endings as endings;
ghost use Rattle.agent_journal.specs.Offs as offs;

use crate::entry::Cause;
use crate::request::Request;
use crate::setup::Phase;
use mqtt_packet::Packet;

/// How the agent came to the phase Off.
#[derive(Clone, Copy, Debug, PartialEq, Eq)]
pub enum OffBy {
    /// All tasks had left, and nothing was open.
    Finish,
    /// A task took Disconnect.
    Disconnect,
    /// A task took Terminate.
    Terminate,
    /// Connections broke too often.
    GaveUp,
    /// The broker refused the connection, with a CONNACK of a code above 0 (MQTT 3.1.1, section 3.2.2.3).
    Refused { code: u8 },
    /// The broker's bytes were no packet, or a packet was too long.
    Bytes,
    /// A packet came that may not come.
    Wrong,
    /// The broker kept a session of this client that the agent doesn't know.
    Held,
}

impl OffBy {
    /// By a cause that came in this phase and led to Off.
    pub fn by(phase: Phase, cause: &Cause) -> OffBy
        ensures { result ≡ offs.by_cause phase cause.now }
    {
        match cause {
            Cause::Finish | Cause::Opened | Cause::Tick => OffBy::Finish,
            Cause::Take { request, .. } => OffBy::by_request(request),
            Cause::GaveUp => OffBy::GaveUp,
            Cause::Broke { .. } => OffBy::Bytes,
            Cause::Arrived { packet } => OffBy::by_packet(phase, packet),
        }
    }

    /// Behind one more entry, by the phases before and behind it. `off` is how the agent had come to Off
    /// before it; `None` where it isn't there.
    pub fn behind(before: Phase, behind: Phase, cause: &Cause, off: Option<OffBy>) -> Option<OffBy>
        ensures { result ≡ endings.off_behind before behind cause.now off }
    {
        match (before, behind) {
            (Phase::Off, _) => off,
            (_, Phase::Off) => Some(OffBy::by(before, cause)),
            _ => None,
        }
    }

    fn by_request(request: &Request) -> OffBy
        ensures { result ≡ offs.by_request request.now }
    {
        match request {
            Request::Terminate => OffBy::Terminate,
            _ => OffBy::Disconnect,
        }
    }

    fn by_packet(phase: Phase, packet: &Packet) -> OffBy
        ensures { result ≡ offs.by_packet phase packet.now }
    {
        match (phase, packet) {
            (Phase::Opening, Packet::ConnAck { code, .. }) => {
                if *code == 0 {
                    OffBy::Held
                } else {
                    OffBy::Refused { code: *code }
                }
            }
            _ => OffBy::Wrong,
        }
    }
}
