//! Packet identifiers (MQTT 3.1.1, section 2.3.1).

ghost use Rattle.std.specs.Prelude.{◌≡◌};
ghost use Rattle.agent_table.specs.Deliveries.{is_among};
ghost use Rattle.agent_table.specs.Identifiers as table;
ghost use Rattle.broker_core.specs.Session.{without};

/// The first identifier behind the last one drawn that isn't in use.
#[tactic(auto, using(agent_table::proofs::Searching::at_start, agent_table::proofs::Searching::found, agent_table::proofs::Searching::passed, agent_table::proofs::Searching::at_end))]
pub fn fresh(last: u16, used: &[u16]) -> u16
    ensures { result ≡ table.fresh last used.now }
{
    let mut id = behind(last);
    for tried in 0..used.len() {
        if !is_among(used, id) {
            return id;
        }
        id = behind(id);
    }
    id
}

fn behind(id: u16) -> u16
    ensures { result ≡ table.behind id }
{
    if id == u16::MAX { 1 } else { id + 1 }
}

/// Whether the identifier is one of these.
pub fn is_among(ids: &[u16], id: u16) -> bool
    ensures { result ≡ is_among ids.now id }
{
    ids.iter().any(|other| *other == id)
}

/// Takes an identifier out.
pub fn remove(ids: &mut Vec<u16>, id: u16)
    ensures { ids.new.items ≡ without id ids.old.items }
{
    ids.retain(|other| *other != id);
}
