//! Routes that a SUBACK adds.

ghost use Rattle.std.specs.Prelude.{◌≡◌, ◌≤◌, ◌∷◌, length, reverse};
ghost use Rattle.agent_table.specs.Routes.{coded, granted_in};
ghost use Rattle.subscriptions.specs.Routing.{granted_by, with_all_granted};
ghost use Rattle.subscriptions.specs.Parts.{with_coded};

use crate::asked::Asked;
use crate::codes::first_asked;
use crate::granted::{Granted, has, renew_all};
use mqtt_packet::Ask;
use ordered_cells::OrderedCells;

/// The SUBACK of a subscribe came: what it grants is sure, is renewed as was asked, and is a route of the
/// task where that hasn't left.
pub fn grant_to<const ROUTES: usize>(
    granted: &mut OrderedCells<Granted, ROUTES>,
    subscribe: Asked,
    codes: &[u8],
)
    requires { length (granted_by subscribe (granted_in (coded subscribe.asks codes.now)) granted.old) ≤ ROUTES }
    ensures { granted.new ≡ granted_by subscribe (granted_in (coded subscribe.asks codes.now)) granted.old }
{
    renew_all(granted, &subscribe.asks, codes);
    if !subscribe.left {
        add_all(granted, subscribe.task, subscribe.asks, codes);
    }
}

/// Adds what the codes grant as routes of a task, where they aren't routes of it yet.
fn add_all<const ROUTES: usize>(
    granted: &mut OrderedCells<Granted, ROUTES>,
    task: u32,
    mut asks: Vec<Ask>,
    codes: &[u8],
)
    requires { length (with_all_granted task asks.items granted.old (granted_in (coded asks.items codes.now))) ≤ ROUTES }
    ensures { granted.new ≡ with_all_granted task asks.items granted.old (granted_in (coded asks.items codes.now)) }
{
    // Each leaves at the end, so that its text moves and takes no memory.
    asks.reverse();
    for code in codes {
        if let Some(ask) = asks.pop() {
            add(granted, task, ask, *code, &asks);
        }
    }
}

/// Adds what was asked as a route of a task, where the code grants it and it isn't one yet. The asks behind
/// it stand in reverse.
fn add<const ROUTES: usize>(
    granted: &mut OrderedCells<Granted, ROUTES>,
    task: u32,
    ask: Ask,
    code: u8,
    later: &[Ask],
)
    requires { length (with_coded task (ask ∷ reverse later.now) code granted.old ask.filter) ≤ ROUTES }
    ensures { granted.new ≡ with_coded task (ask ∷ reverse later.now) code granted.old ask.filter }
{
    if code < 128 && !has(granted, task, &ask.filter) {
        let qos = first_asked(later, &ask.filter).unwrap_or(ask.qos);
        granted.push(Granted {
            task,
            filter: ask.filter,
            qos,
            sure: true,
        });
    }
}
