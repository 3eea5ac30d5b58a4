//! What no clause says: that there is room for N items. Each call at a small and a large number of cells.

ghost use Rattle.std.specs.Prelude.{◌<◌, ◌≤◌};

use super::*;
use std::alloc::Global;
use std::process::Abort;
use std::test::Fail;

/// Adds a key where there is room, and it isn't there yet.
fn add<const N: usize>(cells: &mut KeyedCells<u16, N>, key: u16) {
    if !cells.is_full() && !cells.has(key) {
        cells.push(key);
    }
}

/// Cells with the keys 1, 3, 5 and so on, which are away from home in part.
fn filled<const N: usize>(alloc: Global) -> Result<KeyedCells<u16, N>, Fail>
    requires { (0 < N) × (N ≤ 65536) }
{
    let mut cells = KeyedCells::new(alloc)?;
    for number in 0..2_000u16 {
        add(&mut cells, 2 * number + 1);
    }
    Ok(cells)
}

/// Each call, in cells that are full.
fn each_call<const N: usize>(rt: &impl Abort, cells: &mut KeyedCells<u16, N>) {
    assert_eq!(rt;
        (cells.len(), cells.is_full(), cells.is_empty()),
        (N, true, false)
    );
    assert_eq!(rt;
        [cells.get(0).copied(), cells.get(1).copied()],
        [Some(1), Some(3)]
    );
    assert_eq!(rt; cells.get(N).copied(), None);
    assert_eq!(rt;
        [cells.find(3).copied(), cells.find(2).copied()],
        [Some(3), None]
    );
    assert_eq!(rt; [cells.has(3), cells.has(2)], [true, false]);
    assert_eq!(rt; [cells.take(2), cells.take(1)], [None, Some(1)]);
    add(cells, 60_001);
    assert_eq!(rt;
        [cells.get(0).copied(), cells.get(N - 1).copied()],
        [Some(3), Some(60_001)]
    );
    assert_eq!(rt; [cells.take(3), cells.take(1)], [Some(3), None]);
    cells.clear();
    assert_eq!(rt; (cells.len(), cells.has(60_001)), (0, false));
}

#[test]
fn each_call_at_2(rt: HostRuntime) -> Result<(), Fail> {
    let mut cells = filled::<2>(rt.alloc())?;
    each_call(&rt, &mut cells);
    Ok(())
}

#[test]
fn each_call_at_1024(rt: HostRuntime) -> Result<(), Fail> {
    let mut cells = filled::<1024>(rt.alloc())?;
    each_call(&rt, &mut cells);
    Ok(())
}

/// Keys of one home cell, among others, in the order in which they came.
#[test]
fn keys_of_one_home(rt: HostRuntime) -> Result<(), Fail> {
    let mut cells = KeyedCells::<u16, 100>::new(rt.alloc())?;
    for number in 0..60u16 {
        add(&mut cells, 100 * number + 7);
        add(&mut cells, number);
    }
    assert!(rt; cells.is_full());
    assert_eq!(rt;
        [cells.take(7), cells.take(2_007), cells.take(107)],
        [Some(7), Some(2_007), Some(107)]
    );
    assert_eq!(rt;
        [
            cells.get(0).copied(),
            cells.get(1).copied(),
            cells.get(2).copied()
        ],
        [Some(0), Some(1), Some(207)]
    );
    assert_eq!(rt;
        [cells.has(7), cells.has(207), cells.has(4_907)],
        [false, true, true]
    );
    add(&mut cells, 7);
    assert_eq!(rt;
        [cells.get(97).copied(), cells.get(98).copied()],
        [Some(7), None]
    );
    Ok(())
}

/// Adds an item where there is room.
fn append<const N: usize>(items: &mut OrderedCells<u16, N>, item: u16) {
    if items.len() < N {
        items.push(item);
    }
}

/// Each call of items in order, where there are none.
fn each_call_in_order<const N: usize>(rt: &impl Abort, items: &mut OrderedCells<u16, N>) {
    for number in 0..2_000u16 {
        append(items, number);
    }
    assert_eq!(rt; items.len(), N);
    items.update(|item| item.checked_sub(1));
    assert_eq!(rt; items.len() + 1, N);
    append(items, 7);
    assert_eq!(rt;
        [
            items.get(0).copied(),
            items.get(N - 1).copied(),
            items.get(N).copied()
        ],
        [Some(0), Some(7), None]
    );
    assert_eq!(rt;
        [
            items.any(|item| *item == 7),
            items.any(|item| *item == 5_000)
        ],
        [true, false]
    );
    assert_eq!(rt;
        [
            items.find(|item| *item < 7).copied(),
            items.find(|item| *item > 5_000).copied()
        ],
        [Some(0), None]
    );
    if items.len() > 1 {
        assert_eq!(rt; *items.at(0), 0);
    }
}

#[test]
fn each_call_in_order_at_2(rt: HostRuntime) -> Result<(), Fail> {
    let mut items = OrderedCells::<u16, 2>::new(rt.alloc())?;
    each_call_in_order(&rt, &mut items);
    Ok(())
}

#[test]
fn each_call_in_order_at_1024(rt: HostRuntime) -> Result<(), Fail> {
    let mut items = OrderedCells::<u16, 1024>::new(rt.alloc())?;
    each_call_in_order(&rt, &mut items);
    Ok(())
}
