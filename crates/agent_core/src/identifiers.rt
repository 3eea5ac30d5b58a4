//! The order of packet identifiers (MQTT 3.1.1, section 2.3.1).

ghost use Rattle.std.specs.Prelude.{◌≡◌, ◌<◌, ◌≤◌};
ghost use Rattle.agent_table.specs.Identifiers.{behind};

/// The identifier behind this one, cyclically in 1 to 65,535.
pub fn behind(id: u16) -> u16
    ensures { result ≡ behind id }
{
    if id == 65_535 { 1 } else { id + 1 }
}
