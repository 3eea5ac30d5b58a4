//! Open renewals.

ghost use Rattle.std.specs.Prelude.{◌≡◌, not};
ghost use Rattle.std.specs.List.{filter, find};
ghost use Rattle.std.specs.Option.{option_copied};
ghost use Rattle.subscriptions.specs.Routing.{is_renewal};

use mqtt_packet::Asks;
use std::marker::Model;

/// A SUBSCRIBE that renews routes and has no SUBACK yet. Contracts see the record of that name.
#[derive(Debug, Drop)]
pub struct Renewal {
    /// The identifier of its packet (MQTT 3.1.1, section 2.3.1).
    pub id: u16,
    pub asks: Asks,
}

impl Model for Renewal {
    ghost use Rattle.agent_table.specs.Routes.{Renewal as Open};

    ghost Value = { Open };

    ghost view = { λ r. record { id = r.id; asks = r.asks } };
}

/// The open renewal of an identifier.
pub fn find(renewals: &[Renewal], id: u16) -> Option<&Renewal>
    ensures { option_copied result ≡ find (is_renewal id) renewals.now }
{
    renewals.iter().find(|renewal| renewal.id == id)
}

/// The renewal of an identifier ended.
pub fn drop_id(renewals: &mut Vec<Renewal>, id: u16)
    ensures { renewals.new.items ≡ filter (λ renewal. not (is_renewal id renewal)) renewals.old.items }
{
    renewals.retain(|renewal| renewal.id != id);
}
