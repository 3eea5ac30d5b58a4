//! Publishes of tasks.

use super::histories::differs;

/// Section 4.3.1 of MQTT 3.1.1.
#[test]
fn a_publish_at_most_once_is_done_at_once(rt: HostRuntime) {
    let history = "\
opened > send 100f00044d5154540400003c0003646576
arrived 20020000
take 0 0 publish 0 a/b hi > send 30070003612f626869 > done 0 0 done
take 0 1 leave
finish > send e000";
    assert_eq!(rt; differs(rt.alloc(), 1, false, history), None);
}

/// Section 4.4: a publish that isn't acknowledged is sent again with DUP 1, or its session is lost.
#[test]
fn a_publish_outlives_its_connection(rt: HostRuntime) {
    let history = "\
opened > send 100f00044d5154540400003c0003646576
arrived 20020000
take 0 0 publish 1 a/b hi > send 32090003612f6200016869
broke end
opened > send 100f00044d5154540400003c0003646576
arrived 20020100 > send 3a090003612f6200016869
broke end
opened > send 100f00044d5154540400003c0003646576
arrived 20020000 > done 0 0 sessionlost
arrived 40020001";
    assert_eq!(rt; differs(rt.alloc(), 1, false, history), None);
}

/// Section 4.3.3: behind its PUBREC a publish is released again and not sent again, and PUBCOMP ends it.
#[test]
fn a_released_publish_is_not_sent_again(rt: HostRuntime) {
    let history = "\
opened > send 100f00044d5154540400003c0003646576
arrived 20020000
take 0 0 publish 2 a x > send 3406000161000178
take 0 1 publish 2 b y > send 3406000162000279
arrived 70020002
arrived 50020002 > send 62020002
broke end
opened > send 100f00044d5154540400003c0003646576
arrived 20020100 > send 62020002 > send 3c06000161000178
arrived 50020002 > send 62020002
arrived 70020002 > done 0 1 done
arrived 70020002";
    assert_eq!(rt; differs(rt.alloc(), 1, false, history), None);
}

#[test]
fn a_third_command_has_no_room(rt: HostRuntime) {
    let history = "\
opened > send 100f00044d5154540400003c0003646576
arrived 20020000
take 0 0 publish 1 a/b hi > send 32090003612f6200016869
take 0 1 publish 1 a/b hi > send 32090003612f6200026869
take 0 2 publish 1 a/b hi > done 0 2 noroom
take 0 3 subscribe 1 a > done 0 3 noroom
arrived 40020001 > done 0 0 done
arrived 40020002 > done 0 1 done";
    assert_eq!(rt; differs(rt.alloc(), 1, false, history), None);
}
