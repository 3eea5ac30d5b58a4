//! The records of a saved session, put into a buffer one after another. None of these calls takes memory, and what
//! stands in front of a record's place stays.

ghost use Rattle.std.specs.Prelude.{◌≡◌, ◌≤◌, ◌<◌, ◌++◌, length};
ghost use Rattle.mqtt_packet.specs.Flags.{level};
ghost use Rattle.mqtt_packet.specs.Spelling.{string};
ghost use Rattle.session_text.specs.Spelling as spelling;
ghost use Rattle.session_text.specs.Spelling.{Puts, byte, number16, number32, number64};

use crate::command::level;
use crate::fault::TooSmall;
use crate::put::{put_byte, put_flag, put_text, put_u16, put_u32, put_u64};
use crate::session::{Connections, Last};
use agent_journal::{OffBy, Phase};
use list_types::Text;
use mqtt_packet::Qos;

/// How the connections went, at the front of the text.
///
/// # Errors
/// [`TooSmall`] exactly where it doesn't fit, as for all calls here.
#[tactic(auto, using(crate::proofs::Putting::puts_stop, crate::proofs::Putting::puts_then))]
pub fn put_connections(
    out: &mut [u8],
    at: usize,
    connections: &Connections,
) -> Result<usize, TooSmall>
    requires { at ≤ length out.old }
    ensures { Puts (spelling.connections_text connections.now) at out.old out.new result }
{
    let at = put_byte(out, at, phase_number(connections.phase))?;
    put_off_and_rest(out, at, connections)
}

#[tactic(auto, using(crate::proofs::Putting::puts_stop, crate::proofs::Putting::puts_then))]
fn put_off_and_rest(out: &mut [u8], at: usize, connections: &Connections) -> Result<usize, TooSmall>
    requires { at ≤ length out.old }
    ensures { Puts (spelling.off_text connections.now.off ++ spelling.tries_text connections.now) at out.old out.new result }
{
    let at = put_off(out, at, connections.off)?;
    put_tries(out, at, connections)
}

/// How the agent came to Off, and the code of a refusal.
#[tactic(auto, using(crate::proofs::Putting::puts_stop, crate::proofs::Putting::puts_then))]
fn put_off(out: &mut [u8], at: usize, off: Option<OffBy>) -> Result<usize, TooSmall>
    requires { at ≤ length out.old }
    ensures { Puts (spelling.off_text off) at out.old out.new result }
{
    let at = put_byte(out, at, off_number(off))?;
    put_byte(out, at, refusal_code(off))
}

#[tactic(auto, using(crate::proofs::Putting::puts_stop, crate::proofs::Putting::puts_then))]
fn put_tries(out: &mut [u8], at: usize, connections: &Connections) -> Result<usize, TooSmall>
    requires { at ≤ length out.old }
    ensures { Puts (spelling.tries_text connections.now) at out.old out.new result }
{
    let at = put_flag(out, at, connections.first)?;
    put_accepted_and_breaks(out, at, connections.accepted, connections.breaks)
}

#[tactic(auto, using(crate::proofs::Putting::puts_stop, crate::proofs::Putting::puts_then))]
fn put_accepted_and_breaks(
    out: &mut [u8],
    at: usize,
    accepted: bool,
    breaks: u32,
) -> Result<usize, TooSmall>
    requires { at ≤ length out.old }
    ensures { Puts (spelling.flag accepted ++ number32 breaks) at out.old out.new result }
{
    let at = put_flag(out, at, accepted)?;
    put_u32(out, at, breaks)
}

fn phase_number(phase: Phase) -> u8
    ensures { result ≡ spelling.phase_number phase }
{
    match phase {
        Phase::Down => 0,
        Phase::Opening => 1,
        Phase::Up => 2,
        Phase::Spilled => 3,
        Phase::Off => 4,
    }
}

fn off_number(off: Option<OffBy>) -> u8
    ensures { result ≡ spelling.off_number off }
{
    match off {
        None => 0,
        Some(OffBy::Finish) => 1,
        Some(OffBy::Disconnect) => 2,
        Some(OffBy::Terminate) => 3,
        Some(OffBy::GaveUp) => 4,
        Some(OffBy::Refused { .. }) => 5,
        Some(OffBy::Bytes) => 6,
        Some(OffBy::Wrong) => 7,
        Some(OffBy::Held) => 8,
    }
}

fn refusal_code(off: Option<OffBy>) -> u8
    ensures { result ≡ spelling.refusal_code off }
{
    match off {
        Some(OffBy::Refused { code }) => code,
        _ => 0,
    }
}

/// Which tasks have left: bit t says it of task t.
pub fn put_left(out: &mut [u8], at: usize, left: u8) -> Result<usize, TooSmall>
    requires { at ≤ length out.old }
    ensures { Puts (byte left) at out.old out.new result }
{
    put_byte(out, at, left)
}

/// How many requests of one task were taken.
pub fn put_taken(out: &mut [u8], at: usize, taken: u64) -> Result<usize, TooSmall>
    requires { at ≤ length out.old }
    ensures { Puts (number64 taken) at out.old out.new result }
{
    put_u64(out, at, taken)
}

/// The newest entry, and the identifier that was drawn last.
#[tactic(auto, using(crate::proofs::Putting::puts_stop, crate::proofs::Putting::puts_then))]
pub fn put_last(out: &mut [u8], at: usize, last: &Last) -> Result<usize, TooSmall>
    requires { at ≤ length out.old }
    ensures { Puts (spelling.last_text last.now) at out.old out.new result }
{
    let at = put_flag(out, at, last.sends)?;
    put_time_and_id(out, at, last.time, last.id)
}

#[tactic(auto, using(crate::proofs::Putting::puts_stop, crate::proofs::Putting::puts_then))]
fn put_time_and_id(out: &mut [u8], at: usize, time: u64, id: u16) -> Result<usize, TooSmall>
    requires { at ≤ length out.old }
    ensures { Puts (number64 time ++ number16 id) at out.old out.new result }
{
    let at = put_u64(out, at, time)?;
    put_u16(out, at, id)
}

/// A count, or an identifier.
pub fn put_number(out: &mut [u8], at: usize, number: u16) -> Result<usize, TooSmall>
    requires { at ≤ length out.old }
    ensures { Puts (number16 number) at out.old out.new result }
{
    put_u16(out, at, number)
}

/// A granted route, by its parts.
#[tactic(auto, using(crate::proofs::Putting::puts_stop, crate::proofs::Putting::puts_then))]
pub fn put_route(
    out: &mut [u8],
    at: usize,
    task: u32,
    qos: Qos,
    unsure: bool,
    filter: &Text,
) -> Result<usize, TooSmall>
    requires at { at ≤ length out.old }
    requires short { length filter.now < 65536 }
    ensures { Puts (spelling.route_text (record { task = task; qos = qos; unsure = unsure; filter = filter.now })) at out.old out.new result }
{
    let at = put_u32(out, at, task)?;
    put_kind_and_filter(out, at, qos, unsure, filter)
}

#[tactic(auto, using(crate::proofs::Putting::puts_stop, crate::proofs::Putting::puts_then))]
fn put_kind_and_filter(
    out: &mut [u8],
    at: usize,
    qos: Qos,
    unsure: bool,
    filter: &Text,
) -> Result<usize, TooSmall>
    requires at { at ≤ length out.old }
    requires short { length filter.now < 65536 }
    ensures { Puts (byte (level qos) ++ (spelling.flag unsure ++ string filter.now)) at out.old out.new result }
{
    let at = put_byte(out, at, level(qos))?;
    put_unsure_and_filter(out, at, unsure, filter)
}

#[tactic(auto, using(crate::proofs::Putting::puts_stop, crate::proofs::Putting::puts_then))]
fn put_unsure_and_filter(
    out: &mut [u8],
    at: usize,
    unsure: bool,
    filter: &Text,
) -> Result<usize, TooSmall>
    requires at { at ≤ length out.old }
    requires short { length filter.now < 65536 }
    ensures { Puts (spelling.flag unsure ++ string filter.now) at out.old out.new result }
{
    let at = put_flag(out, at, unsure)?;
    put_text(out, at, filter)
}
