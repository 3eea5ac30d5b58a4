//! The subscriptions of one session (MQTT 3.1.1, sections 3.8 to 3.11).

ghost use Rattle.std.specs.Prelude.{Some, ◌≡◌, ◌+◌, ◌≤◌, ◌++◌, [], Bool, true, length, map, filter, not, IfOk, OnErr, OnOk};
ghost use Rattle.std.specs.List.{list_all};
ghost use Rattle.std.specs.Str.{bytes_eq};
ghost use Rattle.std.specs.Vec.{vec_len, vec_capacity};
ghost use Rattle.mqtt_packet.specs.Flags.{level};
ghost use Rattle.broker_core.specs.Subscribed as spec;

use list_types::{Copied, Text};
use mqtt_packet::{Ask, Qos};
use std::alloc::{AllocError, Global};
use topic_filter::{is_filter, matches};

/// Copies of the asks that have a topic filter.
#[tactic(auto, using(crate::proofs::Loops::filter_more, crate::proofs::Loops::filter_skips, crate::proofs::Loops::filter_all, crate::proofs::Validity::all_pass))]
pub fn valid_asks(alloc: Global, asks: &[Ask]) -> Result<Vec<Ask>, AllocError>
    ensures items { IfOk result (λ valid. valid.items ≡ filter spec.is_valid asks.now) }
    ensures valid { IfOk result (λ valid. list_all spec.is_valid valid.items ≡ true) }
{
    let mut valid = Vec::new(alloc);
    for ask in asks {
        if is_filter(ask.filter.as_str()) {
            valid.push(ask.copy(alloc)?)?;
        }
    }
    Ok(valid)
}

/// The return codes of a SUBSCRIBE (section 3.9.3).
#[tactic(auto, using(crate::proofs::Loops::map_more, crate::proofs::Loops::map_all))]
pub fn return_codes(alloc: Global, asks: &[Ask]) -> Result<Vec<u8>, AllocError>
    ensures { IfOk result (λ codes. codes.items ≡ map spec.return_code asks.now) }
{
    let mut codes = Vec::with_capacity(alloc, asks.len())?;
    for ask in asks {
        codes.push(return_code(ask))?;
    }
    Ok(codes)
}

fn return_code(ask: &Ask) -> u8
    ensures { result ≡ spec.return_code ask.now }
{
    if is_filter(ask.filter.as_str()) {
        level(ask.qos)
    } else {
        0x80
    }
}

fn level(qos: Qos) -> u8
    ensures { result ≡ level qos }
{
    match qos {
        Qos::AtMostOnce => 0,
        Qos::AtLeastOnce => 1,
        Qos::ExactlyOnce => 2,
    }
}

/// Enters subscriptions, each in place of an earlier one of its filter. There is room for them.
pub fn enter_all(held: &mut Vec<Ask>, asks: Vec<Ask>)
    requires { vec_len held.old + vec_len asks ≤ vec_capacity held.old }
    ensures { held.new.items ≡ spec.all_entered asks.items held.old.items }
{
    for ask in asks {
        end(held, &ask.filter);
        held.push_reserved(ask);
    }
}

/// Ends the subscription of a filter. The room stays.
fn end(held: &mut Vec<Ask>, topics: &Text)
    ensures items { held.new.items ≡ filter (λ other. not (bytes_eq other.filter topics.now)) held.old.items }
    ensures most { vec_len held.new ≤ vec_len held.old }
    ensures room { vec_capacity held.new ≡ vec_capacity held.old }
{
    held.retain(|other| other.filter != *topics);
}

/// Ends the subscriptions of these filters.
pub fn remove_all(held: &mut Vec<Ask>, filters: &[Text])
    ensures { held.new.items ≡ spec.unsubscribed filters.now held.old.items }
{
    held.retain(|ask| !filters.contains(&ask.filter));
}

/// The quality of service of the copy of a message for a session with these subscriptions. `None` where none of them fits.
pub fn copied_at(qos: Qos, name: &str, held: &[Ask]) -> Option<Qos>
    requires { list_all spec.is_valid held.now ≡ true }
    ensures { result ≡ spec.copied_at qos name.now held.now }
{
    match granted(held, name) {
        None => None,
        Some(granted) => Some(lesser(qos, granted)),
    }
}

#[tactic(auto, using(crate::proofs::Loops::passes_at, crate::proofs::Granting::granted_more, crate::proofs::Granting::granted_skips, crate::proofs::Granting::granted_all))]
fn granted(held: &[Ask], name: &str) -> Option<Qos>
    requires { list_all spec.is_valid held.now ≡ true }
    ensures { result ≡ spec.granted held.now name.now }
{
    let mut best = None;
    for ask in held {
        if matches(ask.filter.as_str(), name) {
            best = Some(or_greater(best, ask.qos));
        }
    }
    best
}

fn or_greater(best: Option<Qos>, qos: Qos) -> Qos
    ensures { Some result ≡ spec.or_greater best qos }
{
    match best {
        None => qos,
        Some(best) => greater(best, qos),
    }
}

fn greater(one: Qos, other: Qos) -> Qos
    ensures { result ≡ spec.greater one other }
{
    match (one, other) {
        (Qos::AtMostOnce, _) => other,
        (Qos::AtLeastOnce, Qos::ExactlyOnce) => Qos::ExactlyOnce,
        (Qos::AtLeastOnce, _) => Qos::AtLeastOnce,
        (Qos::ExactlyOnce, _) => Qos::ExactlyOnce,
    }
}

fn lesser(one: Qos, other: Qos) -> Qos
    ensures { result ≡ spec.lesser one other }
{
    match (one, other) {
        (Qos::AtMostOnce, _) => Qos::AtMostOnce,
        (Qos::AtLeastOnce, Qos::AtMostOnce) => Qos::AtMostOnce,
        (Qos::AtLeastOnce, _) => Qos::AtLeastOnce,
        (Qos::ExactlyOnce, _) => other,
    }
}
