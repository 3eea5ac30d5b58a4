//! Which saved sessions fit an agent.

ghost use Rattle.std.specs.Prelude.{◌≡◌, ◌≤◌, ◌^◌, ◌==◌, ◌&&◌, not, nat_lt, nat_le, drop};
ghost use Rattle.std.specs.List.{list_any, list_all};
ghost use Rattle.agent_journal.specs.Endings.{is_off};
ghost use Rattle.agent_table.specs.Filters.{comes_before};
ghost use Rattle.session_text.specs.Fitting as fitting;

use crate::session::{Bounds, Command, Connections, Route, Session, Stage};
use agent_journal::Phase;
use list_types::Text;
use mqtt_packet::{Packet, Qos};

/// Whether a session that was read fits an agent of so many tasks, commands, held identifiers and routes.
pub fn fits(bounds: &Bounds, session: &Session) -> bool
    requires tasks { bounds.now.tasks ≤ 8 }
    ensures { result ≡ fitting.fits bounds.now session.now }
{
    is_off_told(&session.connections)
        && are_tasks(bounds.tasks, session.left, session.taken.as_slice())
        && are_few(bounds, session)
        && commands_fit(
            bounds.tasks,
            &session.connections,
            session.commands.as_slice(),
            session.released.as_slice(),
        )
        && are_held(session.held.as_slice())
        && routes_fit(bounds.tasks, session.routes.as_slice())
}

fn is_off_told(connections: &Connections) -> bool
    ensures { result ≡ fitting.is_off_told connections.now }
{
    if is_off(connections.phase) {
        connections.off.is_some()
    } else {
        !connections.off.is_some()
    }
}

fn is_off(phase: Phase) -> bool
    ensures { result ≡ is_off phase }
{
    matches!(phase, Phase::Off)
}

fn are_tasks(tasks: u32, left: u8, taken: &[u64]) -> bool
    requires { tasks ≤ 8 }
    ensures { result ≡ fitting.are_tasks tasks left taken.now }
{
    u32::from(left) < mask(tasks) && are_small(taken) && are_none(taken, tasks as usize)
}

fn are_small(taken: &[u64]) -> bool
    ensures { result ≡ list_all (λ n. nat_le n 4294967296) taken.now }
{
    taken.iter().all(|count| *count <= 4_294_967_296)
}

/// 2 to the power of how many tasks there are.
fn mask(tasks: u32) -> u32
    requires { tasks ≤ 8 }
    ensures { result ≡ 2 ^ tasks }
{
    match tasks {
        0 => 1,
        1 => 2,
        2 => 4,
        3 => 8,
        4 => 16,
        5 => 32,
        6 => 64,
        7 => 128,
        _ => 256,
    }
}

fn are_none(taken: &[u64], from: usize) -> bool
    ensures { result ≡ list_all (λ n. n == 0) (drop from taken.now) }
{
    taken.iter().skip(from).all(|count| *count == 0)
}

fn are_few(bounds: &Bounds, session: &Session) -> bool
    ensures { result ≡ fitting.are_few bounds.now session.now }
{
    session.commands.len() <= bounds.acks
        && session.held.len() <= bounds.inbound
        && session.routes.len() <= bounds.routes
}

fn commands_fit(
    tasks: u32,
    connections: &Connections,
    commands: &[Command],
    released: &[u16],
) -> bool
    ensures { result ≡ fitting.commands_fit tasks connections.now commands.now released.now }
{
    is_closed(connections, commands)
        && are_commands(tasks, commands)
        && ids_differ(commands)
        && are_released(commands, released)
}

fn is_closed(connections: &Connections, commands: &[Command]) -> bool
    ensures { result ≡ fitting.is_closed connections.now commands.now }
{
    !is_off(connections.phase) || commands.len() == 0
}

fn are_commands(tasks: u32, commands: &[Command]) -> bool
    ensures { result ≡ list_all (fitting.is_command tasks) commands.now }
{
    commands.iter().all(|command| is_command(tasks, command))
}

fn is_command(tasks: u32, command: &Command) -> bool
    ensures { result ≡ fitting.is_command tasks command.now }
{
    command.task < tasks && stage_fits(&command.packet, command.stage)
}

fn stage_fits(packet: &Packet, stage: Stage) -> bool
    ensures { result ≡ fitting.stage_fits packet.now stage }
{
    match packet {
        Packet::Publish {
            dup,
            qos,
            retain,
            ..
        } => !*dup && !*retain && stage_fits_at(*qos, stage),
        Packet::Subscribe { .. } => is_no_publish(stage),
        Packet::Unsubscribe { .. } => is_no_publish(stage),
        _ => false,
    }
}

fn stage_fits_at(qos: Qos, stage: Stage) -> bool
    ensures { result ≡ fitting.stage_fits_at qos stage }
{
    match qos {
        Qos::AtMostOnce => false,
        Qos::AtLeastOnce => matches!(stage, Stage::Sent),
        Qos::ExactlyOnce => !is_no_publish(stage),
    }
}

fn is_no_publish(stage: Stage) -> bool
    ensures { result ≡ fitting.is_no_publish stage }
{
    matches!(stage, Stage::NoPublish)
}

fn is_released(stage: Stage) -> bool
    ensures { result ≡ fitting.is_released stage }
{
    matches!(stage, Stage::Released)
}

/// The identifier of a command's packet.
fn id_of(packet: &Packet) -> u16
    ensures { result ≡ fitting.id_of packet.now }
{
    match packet {
        Packet::Publish { id, .. } => *id,
        Packet::Subscribe { id, .. } => *id,
        Packet::Unsubscribe { id, .. } => *id,
        _ => 0,
    }
}

fn has_id(command: &Command, id: u16) -> bool
    ensures { result ≡ fitting.has_id id command.now }
{
    id_of(&command.packet) == id
}

fn ids_differ(commands: &[Command]) -> bool
    ensures { result ≡ fitting.ids_differ commands.now }
{
    let mut rest = commands;
    while let [first, others @ ..] = rest {
        if any_has(others, id_of(&first.packet)) {
            return false;
        }
        rest = others;
    }
    true
}

fn any_has(commands: &[Command], id: u16) -> bool
    ensures { result ≡ list_any (fitting.has_id id) commands.now }
{
    commands.iter().any(|command| has_id(command, id))
}

fn are_released(commands: &[Command], released: &[u16]) -> bool
    ensures { result ≡ fitting.are_released commands.now released.now }
{
    are_distinct(released) && are_open(commands, released) && are_listed(commands, released)
}

/// Whether each is the identifier of a released publish.
fn are_open(commands: &[Command], released: &[u16]) -> bool
    ensures { result ≡ list_all (λ n. list_any (fitting.releases n) commands.now) released.now }
{
    released.iter().all(|id| any_releases(commands, *id))
}

fn any_releases(commands: &[Command], id: u16) -> bool
    ensures { result ≡ list_any (fitting.releases id) commands.now }
{
    commands.iter().any(|command| has_id(command, id) && is_released(command.stage))
}

/// Whether each released publish has its identifier here.
fn are_listed(commands: &[Command], released: &[u16]) -> bool
    ensures { result ≡ list_all (fitting.is_listed released.now) commands.now }
{
    commands.iter().all(|command| !is_released(command.stage)
        || is_among(released, id_of(&command.packet)))
}

fn is_among(ids: &[u16], id: u16) -> bool
    ensures { result ≡ fitting.is_among ids.now id }
{
    ids.iter().any(|other| *other == id)
}

fn are_distinct(ids: &[u16]) -> bool
    ensures { result ≡ fitting.are_distinct ids.now }
{
    let mut rest = ids;
    while let [first, others @ ..] = rest {
        if is_among(others, *first) {
            return false;
        }
        rest = others;
    }
    true
}

fn are_held(held: &[u16]) -> bool
    ensures { result ≡ fitting.are_held held.now }
{
    are_distinct(held) && are_identifiers(held)
}

fn are_identifiers(ids: &[u16]) -> bool
    ensures { result ≡ list_all (λ n. not (n == 0)) ids.now }
{
    ids.iter().all(|id| !(*id == 0))
}

fn routes_fit(tasks: u32, routes: &[Route]) -> bool
    ensures { result ≡ fitting.routes_fit tasks routes.now }
{
    are_of_tasks(tasks, routes) && are_in_order(routes)
}

fn are_of_tasks(tasks: u32, routes: &[Route]) -> bool
    ensures { result ≡ list_all (λ r. nat_lt r.task tasks) routes.now }
{
    routes.iter().all(|route| route.task < tasks)
}

fn are_in_order(routes: &[Route]) -> bool
    ensures { result ≡ fitting.are_in_order routes.now }
{
    let mut rest = routes;
    while let [first, others @ ..] = rest {
        if !is_before_first(first, others) {
            return false;
        }
        rest = others;
    }
    true
}

/// Whether a route comes before the first of these, where there is one.
fn is_before_first(route: &Route, others: &[Route]) -> bool
    ensures { result ≡ fitting.is_before_first route.now others.now }
{
    match others {
        [] => true,
        [next, ..] => is_before(route, next),
    }
}

fn is_before(route: &Route, other: &Route) -> bool
    ensures { result ≡ fitting.is_before route.now other.now }
{
    route.task < other.task
        || (route.task == other.task && comes_before(&route.filter, &other.filter))
}

/// In the order of their bytes, a front before what it is a front of.
#[tactic(auto, using(subscriptions::proofs::Orders::before_is))]
fn comes_before(filter: &Text, other: &Text) -> bool
    ensures { result ≡ comes_before filter.now other.now }
{
    filter.as_str() < other.as_str()
}
