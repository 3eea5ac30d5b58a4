//! What no clause says: the table of routes in numbers, that there is room for ROUTES of them, and each call at
//! a small and a large size.

mod calls;

use calls::{differs, fill};
use std::alloc::Global;
use subscriptions::Subscriptions;

/// The first call that is answered otherwise, where nothing is routed before.
fn differs_at_2(alloc: Global, history: &str) -> Option<usize> {
    match Subscriptions::<2>::new(alloc) {
        Ok(mut routes) => differs(&mut routes, alloc, history),
        Err(_) => Some(0),
    }
}

fn differs_at_1024(alloc: Global, history: &str) -> Option<usize> {
    match Subscriptions::<1024>::new(alloc) {
        Ok(mut routes) => differs(&mut routes, alloc, history),
        Err(_) => Some(0),
    }
}

/// MQTT 3.1.1, sections 3.8 to 3.11: open subscribes route messages, a code of 128 refuses a filter, and
/// routes end with an unsubscribe or their task.
#[test]
fn routes_come_and_go(rt: HostRuntime) {
    let history = "\
subscribe 1 1 1 a 0 b
subscribe 2 2 2 a
reached a > tasks 1 2
reached b > tasks 1
suback 1 1 128
reached a > tasks 1 2
reached b > tasks
lose 2
reached a > tasks 1
asked 2 > none
other 1 a > no
other 2 a
unsubscribe 1 a
reached a > tasks";
    assert_eq!(rt; differs_at_1024(rt.alloc(), history), None);
}

#[test]
fn a_task_leaves(rt: HostRuntime) {
    let history = "\
subscribe 0 1 1 a/#
suback 1 1
subscribe 0 2 1 +/b
subscribe 2 3 1 +/b
reached a/b > tasks 0 2
leave 0
reached a/b > tasks 2
suback 2 1
reached a/b > tasks 2
lose_all
reached a/b > tasks";
    assert_eq!(rt; differs_at_1024(rt.alloc(), history), None);
}

/// Behind a subscribe of task 1 to two filters, which was granted, and one of task 2.
const EACH_CALL: &str = "\
lose 2
lose_all
reached b > tasks 1
other 2 b
unsubscribe 1 b
reached b > tasks
session_lost
renew 9
renewal 9 > 1
renewals > 1
renewed 9 1
set 3
broke
renewals > 0
leave 1
reached a > tasks";

/// Whether the second subscribe is answered so, and each call behind it as above.
fn each_call<const ROUTES: usize>(
    routes: &mut Subscriptions<ROUTES>,
    alloc: Global,
    second: &str,
) -> bool {
    let first = "subscribe 1 1 1 a 0 b\nasked 1 > 2\nsuback 1 1 0";
    differs(routes, alloc, first) == None
        && differs(routes, alloc, second) == None
        && differs(routes, alloc, EACH_CALL) == None
}

fn each_call_at_2(alloc: Global) -> bool {
    match Subscriptions::<2>::new(alloc) {
        Ok(mut routes) => each_call(&mut routes, alloc, "subscribe 2 2 0 a > no"),
        Err(_) => false,
    }
}

fn each_call_at_1024(alloc: Global) -> bool {
    match Subscriptions::<1024>::new(alloc) {
        Ok(mut routes) => each_call(&mut routes, alloc, "subscribe 2 2 0 a"),
        Err(_) => false,
    }
}

#[test]
fn each_call_is_answered_at_each_size(rt: HostRuntime) {
    assert!(rt; each_call_at_2(rt.alloc()));
    assert!(rt; each_call_at_1024(rt.alloc()));
}

/// The project's own: routes outlive a lost session, and their filters are asked for again.
#[test]
fn routes_outlive_a_lost_session(rt: HostRuntime) {
    let history = "\
subscribe 1 1 1 b 2 a
suback 1 1 2
unsure 0 > asks
session_lost
reached a > tasks 1
unsure 0 > asks 2 a 1 b
renew 9
renewals > 1
renewed 9 128 1
reached a > tasks
reached b > tasks 1
unsure 0 > asks
all 0 > asks 1 b";
    assert_eq!(rt; differs_at_1024(rt.alloc(), history), None);
}

#[test]
fn renewals_end_with_their_connection(rt: HostRuntime) {
    let history = "\
set 3
renewal 3 > 1
broke
renewals > 0
renewed 3 0 > no";
    assert_eq!(rt; differs_at_1024(rt.alloc(), history), None);
}

/// Of two open subscribes the later one is granted first, and its route dropped. The route of the
/// earlier one is renewed as the later one asked all the same.
#[test]
fn the_last_subscribe_decides(rt: HostRuntime) {
    let history = "\
subscribe 1 1 1 a
subscribe 1 2 2 a
suback 2 2
unsubscribe 1 a
suback 1 1
all 0 > asks 2 a";
    assert_eq!(rt; differs_at_1024(rt.alloc(), history), None);
}

#[test]
fn a_pair_counts_once(rt: HostRuntime) {
    let history = "\
subscribe 1 1 0 a 1 a 2 b
subscribe 2 2 0 a > no
subscribe 1 2 0 b
suback 1 128 128 2
subscribe 2 3 0 a
asked 3 > 1";
    assert_eq!(rt; differs_at_2(rt.alloc(), history), None);
}

/// How many filters there is room for, where what is asked for again from a place on is this.
fn room<const ROUTES: usize>(
    routes: &mut Subscriptions<ROUTES>,
    alloc: Global,
    renewed: &str,
) -> Option<u32> {
    let count = fill(routes, alloc)?;
    if differs(routes, alloc, renewed) == None {
        Some(count)
    } else {
        None
    }
}

fn room_at_2(alloc: Global) -> Option<u32> {
    match Subscriptions::<2>::new(alloc) {
        Ok(mut routes) => room(&mut routes, alloc, "all 0 > asks 0 100 0 101"),
        Err(_) => None,
    }
}

fn room_at_1024(alloc: Global) -> Option<u32> {
    let renewed = "\
reached 1123 > tasks 1
reached 1124 > tasks
all 1022 > asks 0 998 0 999";
    match Subscriptions::<1024>::new(alloc) {
        Ok(mut routes) => room(&mut routes, alloc, renewed),
        Err(_) => None,
    }
}

#[test]
fn there_is_room_for_so_many(rt: HostRuntime) {
    assert_eq!(rt; room_at_2(rt.alloc()), Some(2));
    assert_eq!(rt; room_at_1024(rt.alloc()), Some(1024));
}
