//! Worlds of seeds. The counts of seed 1 are worked rows; those of the other seeds were computed by a program of its own, which
//! shares no code with this one.

use session_world::{Event, Played, Totals, World, run};
use std::test::Fail;

#[test]
fn the_first_events_connect_and_subscribe(rt: HostRuntime) -> Result<(), Fail> {
    let counted = run(rt.alloc(), 1, 4)?;
    assert_eq!(rt;
        counted,
        Totals {
            taken: 0,
            done: 0,
            passed: 0,
            own: 0,
            told: 0,
            breaks: 0
        }
    );
    Ok(())
}

#[test]
fn ten_thousand_events_are_counted(rt: HostRuntime) -> Result<(), Fail> {
    let counted = run(rt.alloc(), 1, 10_000)?;
    assert_eq!(rt;
        counted,
        Totals {
            taken: 2113,
            done: 1469,
            passed: 1335,
            own: 631,
            told: 640,
            breaks: 64
        }
    );
    Ok(())
}

#[test]
fn other_seeds_are_counted(rt: HostRuntime) -> Result<(), Fail> {
    let counted = run(rt.alloc(), 3, 10_000)?;
    assert_eq!(rt;
        counted,
        Totals {
            taken: 2057,
            done: 1352,
            passed: 1226,
            own: 623,
            told: 647,
            breaks: 71
        }
    );
    let counted = run(rt.alloc(), 2, 10_000)?;
    assert_eq!(rt;
        counted,
        Totals {
            taken: 2036,
            done: 1448,
            passed: 1381,
            own: 599,
            told: 595,
            breaks: 66
        }
    );
    let counted = run(rt.alloc(), 7, 10_000)?;
    assert_eq!(rt;
        counted,
        Totals {
            taken: 2207,
            done: 1325,
            passed: 1240,
            own: 635,
            told: 645,
            breaks: 73
        }
    );
    let counted = run(rt.alloc(), 18_446_744_073_709_551_615, 10_000)?;
    assert_eq!(rt;
        counted,
        Totals {
            taken: 2008,
            done: 1170,
            passed: 1123,
            own: 620,
            told: 643,
            breaks: 77
        }
    );
    let counted = run(rt.alloc(), 42, 10_000)?;
    assert_eq!(rt;
        counted,
        Totals {
            taken: 2204,
            done: 1378,
            passed: 1299,
            own: 623,
            told: 0,
            breaks: 71
        }
    );
    Ok(())
}

#[test]
fn events_without_a_packet_are_skipped(rt: HostRuntime) -> Result<(), Fail> {
    let mut world = World::new(rt.alloc())?;
    assert_eq!(rt; world.play(Event::DeliverUp).ok(), Some(Played::Skipped));
    assert_eq!(rt; world.play(Event::Reopen).ok(), Some(Played::Yes));
    assert_eq!(rt; world.play(Event::DeliverUp).ok(), Some(Played::Yes));
    assert_eq!(rt; world.play(Event::Break).ok(), Some(Played::Yes));
    assert_eq!(rt; world.play(Event::DeliverDown).ok(), Some(Played::Skipped));
    assert_eq!(rt; world.totals().breaks, 1);
    Ok(())
}
