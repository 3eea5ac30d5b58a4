//! Messages that arrive.

use super::histories::differs;

/// Sections 3.9 and 4.3.3: a message is passed once before its PUBREL, unless its session was lost.
#[test]
fn a_message_is_passed_once(rt: HostRuntime) {
    let history = "\
opened > send 100f00044d5154540400003c0003646576
arrived 20020000
take 0 0 subscribe 2 a/# 1 a/b > send 820e00010003612f23020003612f6201
arrived 900400010201 > done 0 0 granted 0201
arrived 34090003612f6200076869 > pass 0 2 a/b 6869 > send 50020007
arrived 3c090003612f6200076869 > send 50020007
broke end
opened > send 100f00044d5154540400003c0003646576
arrived 20020100
arrived 3c090003612f6200076869 > send 50020007
arrived 62020007 > send 70020007
arrived 34090003612f6200076869 > pass 0 2 a/b 6869 > send 50020007
broke end
opened > send 100f00044d5154540400003c0003646576
arrived 20020000 > send 820e00020003612f23020003612f6201
arrived 34090003612f6200076869 > pass 0 2 a/b 6869 > send 50020007";
    assert_eq!(rt; differs(rt.alloc(), 1, false, history), None);
}

/// Section 4.3.2: a repeat is a message of its own.
#[test]
fn a_message_at_least_once_is_passed_each_time(rt: HostRuntime) {
    let history = "\
opened > send 100f00044d5154540400003c0003646576
arrived 20020000
take 0 0 subscribe 1 a/# > send 820800010003612f2301
arrived 9003000101 > done 0 0 granted 01
arrived 32090003612f6200076869 > pass 0 1 a/b 6869 > send 40020007
arrived 3a090003612f6200076869 > pass 0 1 a/b 6869 > send 40020007
arrived 3206000162000779 > send 40020007";
    assert_eq!(rt; differs(rt.alloc(), 1, false, history), None);
}

#[test]
fn a_third_message_has_no_room(rt: HostRuntime) {
    let history = "\
opened > send 100f00044d5154540400003c0003646576
arrived 20020000
arrived 34050001610001 > send 50020001
arrived 34050001610002 > send 50020002
arrived 34050001610003
take 0 0 leave > no row
broke infull
opened > send 100f00044d5154540400003c0003646576
broke fault
gaveup > closed 0
take 0 0 leave";
    assert_eq!(rt; differs(rt.alloc(), 1, false, history), None);
}
