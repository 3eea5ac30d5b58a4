//! An agent of the greatest sizes, by its clock.

ghost use Rattle.std.specs.Prelude.{◌≡◌, true, IfOk};
ghost use Rattle.agent_journal.specs.Setups.{is_client};

use super::histories::enters;
use agent_core::{Core, Phase};
use agent_journal::{Cause, Setup, Why};
use list_types::Text;
use mqtt_packet::Packet;
use std::alloc::{AllocError, Global};

type Large = Core<1024, 1024, 1024>;

/// An agent of one task with a keep alive of two seconds, which opens one connection.
fn agent(alloc: Global) -> Option<Large> {
    let setup = setup(alloc).ok()?;
    if setup.tasks == 1 {
        Core::new(alloc, setup).ok()
    } else {
        None
    }
}

#[tactic(auto, unfolding(agent_journal::specs::Setups::is_client))]
fn setup(alloc: Global) -> Result<Setup, AllocError>
    ensures reopen { IfOk result (λ setup. setup.reopen ≡ 0) }
    ensures client { IfOk result (λ setup. is_client setup.client ≡ true) }
{
    Ok(Setup {
        to: Text::from_str(alloc, "")?,
        client: Text::from_str(alloc, "dev")?,
        keep_alive: 2,
        reopen: 0,
        wipe: false,
        tasks: 1,
    })
}

fn breaks(core: &mut Large, at: u64) -> bool {
    let why = Why::KeepAlive;
    enters(core, at, Cause::Broke { why })
}

/// CONNECT is sent at 0, and CONNACK comes 900 milliseconds later.
fn is_accepted(core: &mut Large) -> bool {
    let (present, code) = (false, 0);
    let packet = Packet::ConnAck { present, code };
    enters(core, 0, Cause::Opened)
        && enters(core, 900, Cause::Arrived { packet })
        && core.open_count() == 0
}

fn is_due(core: &Large, at: u64, want: Option<Cause>) -> bool {
    core.due(at) == want
}

/// Half a keep alive without a packet sent asks for a PINGREQ.
fn asks(core: &mut Large) -> bool {
    is_due(core, 999, None)
        && is_due(core, 1_000, Some(Cause::Tick))
        && enters(core, 1_000, Cause::Tick)
}

/// Five seconds without an answer to it break the connection.
fn is_left(core: &mut Large) -> bool {
    is_due(core, 5_999, None)
        && !breaks(core, 5_999)
        && breaks(core, 6_000)
        && is_due(core, 6_000, Some(Cause::GaveUp))
        && core.phase() == Phase::Down
}

fn is_silence_answered(alloc: Global) -> bool {
    match agent(alloc) {
        Some(mut core) => is_accepted(&mut core) && asks(&mut core) && is_left(&mut core),
        None => false,
    }
}

/// Sections 3.1.2.10 and 3.12.
#[test]
fn a_silent_server_is_left(rt: HostRuntime) {
    assert!(rt; is_silence_answered(rt.alloc()));
}
