//! What no clause says: exchanges in bytes, worked out by hand from the standard and the broker's own rules.

mod exchanges;

use broker_core::Broker;
use exchanges::{comes, differs};
use std::alloc::Global;

/// The first line of an exchange that doesn't come about, where nothing came before.
fn first_fault(alloc: Global, exchange: &str) -> Option<usize> {
    let mut broker = Broker::new(alloc);
    differs(&mut broker, alloc, exchange)
}

fn is_passed_once(broker: &Broker) -> bool {
    broker.passed_len() == 1 && is_passed(broker, 0) && !is_passed(broker, 1)
}

fn is_passed(broker: &Broker, at: usize) -> bool {
    match broker.passed(at) {
        Some(_) => true,
        None => false,
    }
}

/// Whether an exchange comes about, and the broker passed one message on.
fn passes_one(alloc: Global, exchange: &str) -> bool {
    let mut broker = Broker::new(alloc);
    differs(&mut broker, alloc, exchange) == None && is_passed_once(&broker)
}

/// Section 4.3.3 of MQTT 3.1.1: a repeat before the PUBREL isn't passed on again.
#[test]
fn a_qos_2_publish_is_passed_on_once(rt: HostRuntime) {
    let exchange = "\
open
hear 100f00044d5154540400003c0003646576 > 20020000
hear 820800010003612f6201 > 9003000101
hear 34090003612f6200056869 > 50020005 > 32090003612f6200016869
hear 3c090003612f6200056869 > 50020005
hear 62020005 > 70020005
hear e000 > close";
    assert_eq!(rt; first_fault(rt.alloc(), exchange), None);
    assert!(rt; passes_one(rt.alloc(), exchange));
}

/// Sections 3.1.0, 3.1.3.1, 3.8, 3.10 and 3.12, and the broker's code 128 for a text that is no filter: in the
/// SUBSCRIBE stand `a/b`, `a/#/b` and `#`. The last PUBLISH has a topic that isn't a name.
#[test]
fn packets_are_answered_by_their_rules(rt: HostRuntime) {
    let exchange = "\
open
hear c000 > close
open
hear 100c00044d5154540402003c0000 > 20020002 > close
hear c000 > no connection
open
hear 100f00044d5154540400003c0003646576 > 20020000
hear c000 > d000
hear 821400010003612f62020005612f232f620100012300 > 90050001028000
local 2 > 34090003612f6200016869
hear a20700020003612f62 > b0020002
local 2 > 30070003612f626869
hear 62020009 > 70020009
hear 40020009
hear 30050002612b78 > close
open
hear 100f00044d5154540400003c0003646576 > 20020100 > 3c090003612f6200016869";
    assert_eq!(rt; first_fault(rt.alloc(), exchange), None);
}

/// Section 4.4, with the broker's own order: PUBREL of what was released, in the order of the first PUBRECs; PUBLISH of what was
/// sent; then what waited. The client `dev` comes between the two connections of `sub`.
#[test]
fn a_session_goes_on(rt: HostRuntime) {
    let exchange = "\
open
hear 100f00044d5154540400003c0003737562 > 20020000
hear 820800010003612f6202 > 9003000102
local 2 > 34090003612f6200016869
local 2 > 34090003612f6200026869
local 2 > 34090003612f6200036869
local 1 > 32090003612f6200046869
hear 50020002 > 62020002
hear 50020001 > 62020001
hear 50020002 > 62020002
hear 50020004
break
local 0
local 2
open
hear 100f00044d5154540400003c0003646576 > 20020000
hear e000 > close
open
hear 100f00044d5154540400003c0003737562 > 20020100 > 62020002 > 62020001 > 3c090003612f6200036869 > 3a090003612f6200046869 > 34090003612f6200056869
hear 70020002
hear 40020004
hear 40020003
open
hear 100f00044d5154540400003c0003737562 > 20020100 > 62020001 > 3c090003612f6200036869 > 3c090003612f6200056869";
    assert_eq!(rt; first_fault(rt.alloc(), exchange), None);
}

/// How many of 18 deliveries are sent at once.
fn sent_of_18(broker: &mut Broker, alloc: Global) -> u32 {
    let mut sent = 0u32;
    for _ in 0..18 {
        if !comes(broker, alloc, "local 1") {
            sent = sent.wrapping_add(1);
        }
    }
    sent
}

fn has_a_window(broker: &mut Broker, alloc: Global) -> bool {
    let begun = "\
open
hear 100f00044d5154540400003c0003737562 > 20020000
hear 820800010003612f6202 > 9003000102";
    let acknowledged = "\
local 0 > 30070003612f626869
hear 40020003 > 32090003612f6200116869
hear 40020003
hear 40020001 > 32090003612f6200126869
hear 40020002";
    differs(broker, alloc, begun) == None
        && sent_of_18(broker, alloc) == 16
        && differs(broker, alloc, acknowledged) == None
}

fn has_window(alloc: Global) -> bool {
    let mut broker = Broker::new(alloc);
    has_a_window(&mut broker, alloc)
}

/// The broker's own window: 16 deliveries are unacknowledged, and further ones wait in their order. QoS 0 doesn't wait.
#[test]
fn the_17th_delivery_waits(rt: HostRuntime) {
    assert!(rt; has_window(rt.alloc()));
}

/// Section 3.1.2.4: a session of clean session 1 ends with its connection, and ends the one that was kept.
#[test]
fn a_clean_session_is_not_kept(rt: HostRuntime) {
    let exchange = "\
open
hear 100f00044d5154540402003c0003646576 > 20020000
hear 820800010003612f6201 > 9003000101
local 2 > 32090003612f6200016869
open
hear 100f00044d5154540400003c0003646576 > 20020000
local 2
hear 820800010003612f6200 > 9003000100
local 2 > 30070003612f626869
hear 100f00044d5154540400003c0003646576 > close
open
hear 100f00044d5154540402003c0003646576 > 20020000
local 2
open
hear 100f00044d5154540400003c0003646576 > 20020000";
    assert_eq!(rt; first_fault(rt.alloc(), exchange), None);
}

/// A client of one letter, given in hexadecimal, connects in place of the one before.
fn visits(broker: &mut Broker, alloc: Global, letter: u8) -> bool {
    let line = format!(in alloc; "hear 100d00044d5154540400003c0001{letter:02x} > 20020000");
    match line {
        Ok(line) => comes(broker, alloc, "open") && comes(broker, alloc, line.as_str()),
        Err(_) => false,
    }
}

/// Whether 64 clients, from `0` to `o`, get a session each.
fn are_64(broker: &mut Broker, alloc: Global) -> bool {
    for letter in 48..112u8 {
        if !visits(broker, alloc, letter) {
            return false;
        }
    }
    true
}

fn has_64(alloc: Global) -> bool {
    // `p`, then `2` with clean session 0 and 1, then `p` again.
    let behind = "\
open
hear 100d00044d5154540402003c000170 > 20020003 > close
open
hear 100d00044d5154540400003c000132 > 20020100
open
hear 100d00044d5154540402003c000132 > 20020000
open
hear 100d00044d5154540400003c000170 > 20020000";
    let mut broker = Broker::new(alloc);
    are_64(&mut broker, alloc) && differs(&mut broker, alloc, behind) == None
}

/// Return code 3 of section 3.2.2.3, with the broker's own limit of 64 sessions.
#[test]
fn there_is_no_65th_session(rt: HostRuntime) {
    assert!(rt; has_64(rt.alloc()));
}
