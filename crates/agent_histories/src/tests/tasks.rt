//! More than one task.

use super::histories::differs;

/// A message is passed to each task that has it, and the tasks that haven't left are closed.
#[test]
fn tasks_are_served_in_increasing_order(rt: HostRuntime) {
    let history = "\
opened > send 100f00044d5154540400003c0003646576
arrived 20020000
take 2 0 subscribe 1 a/# > send 820800010003612f2301
arrived 9003000101 > done 2 0 granted 01
take 0 0 subscribe 1 a/b > send 820800020003612f6201
arrived 30070003612f626869 > pass 0 0 a/b 6869 > pass 2 0 a/b 6869
take 0 1 leave
arrived 30070003612f626869 > pass 2 0 a/b 6869
finish > no row
broke toolong > done 0 0 cancelled > closed 1 > closed 2";
    assert_eq!(rt; differs(rt.alloc(), 3, false, history), None);
}

/// A request is taken in its task's own order, from a task that there is and that hasn't left.
#[test]
fn requests_of_a_task_come_in_its_order(rt: HostRuntime) {
    let history = "\
opened > send 100f00044d5154540400003c0003646576
arrived 20020000
take 1 0 ping > send c000 > done 1 0 done
take 1 0 ping > no row
take 1 2 ping > no row
take 2 0 ping > no row
take 0 0 ping > send c000 > done 0 0 done
take 0 1 leave
take 0 2 ping > no row
take 1 1 leave
finish > send e000";
    assert_eq!(rt; differs(rt.alloc(), 2, false, history), None);
}
