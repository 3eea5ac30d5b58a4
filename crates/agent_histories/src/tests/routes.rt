//! The project's own: routes outlive a lost session, and their filters are asked for again.

use super::histories::differs;

#[test]
fn routes_outlive_a_lost_session(rt: HostRuntime) {
    let history = "\
opened > send 100f00044d5154540400003c0003646576
arrived 20020000
take 0 0 subscribe 1 a/# > send 820800010003612f2301
arrived 9003000101 > done 0 0 granted 01
broke end
opened > send 100f00044d5154540400003c0003646576
arrived 20020000 > send 820800020003612f2301
broke end
opened > send 100f00044d5154540400003c0003646576
arrived 20020100 > send 820800030003612f2301
arrived 9003000301
arrived 30070003612f626869 > pass 0 0 a/b 6869
broke end
opened > send 100f00044d5154540400003c0003646576
arrived 20020100";
    assert_eq!(rt; differs(rt.alloc(), 1, false, history), None);
}

/// Eight filters are asked for in a packet, in the order of their bytes. One that the server refuses then
/// routes no more, and one that isn't answered is asked for on the next connection. A SUBACK of too many
/// codes is wrong.
#[test]
fn nine_routes_are_renewed_in_two_packets(rt: HostRuntime) {
    let history = "\
opened > send 100f00044d5154540400003c0003646576
arrived 20020000
take 0 0 subscribe 1 i 1 h 1 g 1 f 1 e 1 d 1 c 1 b > send 822200010001690100016801000167010001660100016501000164010001630100016201
arrived 900a00010101010101010101 > done 0 0 granted 0101010101010101
take 0 1 subscribe 1 a > send 8206000200016101
arrived 9003000201 > done 0 1 granted 01
take 0 2 subscribe 1 j > done 0 2 noroute
broke end
opened > send 100f00044d5154540400003c0003646576
arrived 20020000 > send 822200030001610100016201000163010001640100016501000166010001670100016801 > send 8206000400016901
arrived 900a00038001010101010101
arrived 300400016178
arrived 300400016278 > pass 0 0 b 78
broke end
opened > send 100f00044d5154540400003c0003646576
arrived 20020100 > send 8206000500016901
arrived 900400050101 > closed 0";
    assert_eq!(rt; differs(rt.alloc(), 1, false, history), None);
}
