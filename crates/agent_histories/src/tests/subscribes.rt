//! Subscribes and unsubscribes.

use super::histories::differs;

/// Section 3.10, with the project's own rule: a filter is unsubscribed once no other task has it.
#[test]
fn the_last_task_unsubscribes(rt: HostRuntime) {
    let history = "\
opened > send 100f00044d5154540400003c0003646576
arrived 20020000
take 0 0 subscribe 1 a/# > send 820800010003612f2301
arrived 9003000101 > done 0 0 granted 01
take 1 0 subscribe 1 a/# > send 820800020003612f2301
arrived 9003000201 > done 1 0 granted 01
take 0 1 unsubscribe a/# > done 0 1 done
arrived 30070003612f626869 > pass 1 0 a/b 6869
take 1 1 unsubscribe a/# > send a20700030003612f23
arrived 30070003612f626869 > pass 1 0 a/b 6869
arrived b0020003 > done 1 1 done
arrived 30070003612f626869
arrived b0020003";
    assert_eq!(rt; differs(rt.alloc(), 2, false, history), None);
}

/// An unsubscribe that sends nothing needs no room.
#[test]
fn an_unsubscribe_may_have_no_room(rt: HostRuntime) {
    let history = "\
opened > send 100f00044d5154540400003c0003646576
arrived 20020000
take 1 0 subscribe 1 a/# > send 820800010003612f2301
take 0 0 publish 1 a/b hi > send 32090003612f6200026869
take 0 1 unsubscribe b > done 0 1 noroom
take 0 2 unsubscribe a/# > done 0 2 done";
    assert_eq!(rt; differs(rt.alloc(), 2, false, history), None);
}

/// The project's own: a break ends subscribes and unsubscribes. A publish goes on, and so does a route that
/// was granted.
#[test]
fn a_break_ends_subscribes_and_unsubscribes(rt: HostRuntime) {
    let history = "\
opened > send 100f00044d5154540400003c0003646576
arrived 20020000
take 0 0 publish 1 a/b hi > send 32090003612f6200016869
take 0 1 subscribe 1 a/# > send 820800020003612f2301
broke end > done 0 1 linklost
opened > send 100f00044d5154540400003c0003646576
arrived 20020100 > send 3a090003612f6200016869
arrived 9003000201
arrived 30070003612f626869
arrived 40020001 > done 0 0 done
take 0 2 subscribe 1 a/# > send 820800030003612f2301
arrived 9003000301 > done 0 2 granted 01
take 0 3 unsubscribe a/# > send a20700040003612f23
take 0 4 subscribe 1 b > send 8206000500016201
broke fault > done 0 3 linklost > done 0 4 linklost
opened > send 100f00044d5154540400003c0003646576
arrived 20020100
arrived 30070003612f626869 > pass 0 0 a/b 6869";
    assert_eq!(rt; differs(rt.alloc(), 1, false, history), None);
}
