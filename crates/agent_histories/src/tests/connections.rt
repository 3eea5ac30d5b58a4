//! How connections begin and end.

use super::histories::differs;

/// Section 3.2.2.3: a code above 0 refuses the connection.
#[test]
fn a_refused_connection_ends_the_agent(rt: HostRuntime) {
    let history = "\
opened > send 100f00044d5154540400003c0003646576
arrived 20020005 > closed 0
take 0 0 publish 0 a/b hi > done 0 0 notconnected
take 0 1 terminate > done 0 1 done
take 0 2 leave";
    assert_eq!(rt; differs(rt.alloc(), 1, false, history), None);
}

/// Section 3.1.2.4: each CONNECT wipes the server's session until one is accepted. That connection is
/// closed, and the next one begins the session.
#[test]
fn an_old_session_is_wiped(rt: HostRuntime) {
    let history = "\
opened > send 100f00044d5154540402003c0003646576
broke end
opened > send 100f00044d5154540402003c0003646576
arrived 20020000 > send e000
opened > send 100f00044d5154540400003c0003646576
arrived 20020000
take 0 0 ping > send c000 > done 0 0 done";
    assert_eq!(rt; differs(rt.alloc(), 1, true, history), None);
}

/// Section 3.2.2.2: the first session is new to the agent, and so it has to be to the server.
#[test]
fn a_session_of_an_earlier_run_ends_the_agent(rt: HostRuntime) {
    let history = "\
opened > send 100f00044d5154540400003c0003646576
arrived 20020100 > closed 0
take 0 0 ping > done 0 0 notconnected";
    assert_eq!(rt; differs(rt.alloc(), 1, false, history), None);
    let history = "\
opened > send 100f00044d5154540402003c0003646576
arrived 20020000 > send e000
opened > send 100f00044d5154540400003c0003646576
arrived 20020100 > closed 0";
    assert_eq!(rt; differs(rt.alloc(), 1, true, history), None);
}

/// The project's own: so many connections are opened, and then the agent gives up.
#[test]
fn the_agent_gives_up(rt: HostRuntime) {
    let history = "\
opened > send 100f00044d5154540400003c0003646576
arrived 20020000
broke idle > no row
take 0 0 publish 1 a/b hi > send 32090003612f6200016869
broke idle
gaveup > no row
broke fault
opened > no row
gaveup > done 0 0 cancelled > closed 0";
    assert_eq!(rt; differs(rt.alloc(), 1, false, history), None);
}

/// Section 3.9: a SUBACK has a code for each filter.
#[test]
fn a_suback_of_too_few_codes_is_wrong(rt: HostRuntime) {
    let history = "\
opened > send 100f00044d5154540400003c0003646576
arrived 20020000
take 0 0 subscribe 2 a/# 1 a/b > send 820e00010003612f23020003612f6201
arrived 9003000102 > done 0 0 cancelled > closed 0
take 0 1 leave";
    assert_eq!(rt; differs(rt.alloc(), 1, false, history), None);
}

/// Sections 3.2 and 4.7.1: a second CONNACK is wrong, and so is a topic that isn't a name.
#[test]
fn packets_in_the_wrong_place_end_the_agent(rt: HostRuntime) {
    let history = "\
opened > send 100f00044d5154540400003c0003646576
arrived 20020000
arrived 20020000 > closed 0";
    assert_eq!(rt; differs(rt.alloc(), 1, false, history), None);
    let history = "\
opened > send 100f00044d5154540400003c0003646576
arrived 20020000
arrived 30050003612f2b > closed 0";
    assert_eq!(rt; differs(rt.alloc(), 1, false, history), None);
}

#[test]
fn terminate_cancels_what_is_open(rt: HostRuntime) {
    let history = "\
opened > send 100f00044d5154540400003c0003646576
arrived 20020000
take 0 0 publish 1 a/b hi > send 32090003612f6200016869
take 0 1 terminate > done 0 0 cancelled > send e000 > done 0 1 done > closed 0
broke fault
broke fault > no row
take 0 2 ping > done 0 2 cancelled
take 0 3 leave";
    assert_eq!(rt; differs(rt.alloc(), 1, false, history), None);
}
