//! What no clause says: that a call succeeds where it can, and that threads get through.

ghost use Rattle.std.specs.Prelude.{◌≡◌, [], IfOk};

use super::*;
use std::alloc::AllocError;
use std::test::Fail;
use std::thread;

#[test]
fn a_number_that_is_given_back_is_taken_again(rt: HostRuntime) -> Result<(), Fail> {
    let (pool, mut pass) = CommandPool::<2>::new(rt.alloc())?;
    let first = pool.take(&mut pass).ok().expect(&rt, "two are free");
    let second = pool.take(&mut pass).ok().expect(&rt, "one is free");
    assert_eq!(rt; [first.id(), second.id()], [0, 1]);
    match pool.take(&mut pass) {
        Ok(third) => {
            pool.give(&mut pass, third);
            panic!(rt; "none is free");
        }
        Err(fault) => assert_eq!(rt; fault, TakeFault::Empty),
    }
    pool.give(&mut pass, second);
    let again = pool.take(&mut pass).ok().expect(&rt, "one is free");
    assert_eq!(rt; again.id(), 1);
    pool.give(&mut pass, first);
    pool.give(&mut pass, again);
    Ok(())
}

/// Takes numbers until there is none, at most `most`, and gives them back from the last to the first.
/// The numbers in the order of their taking, and whether the pool was empty then.
#[tactic(auto, using(crate::proofs::Held::back_as_before))]
fn all_taken<const POOL: usize>(
    pool: &CommandPool<POOL>,
    pass: &mut PoolPass,
    most: u32,
    ids: &mut Vec<u32>,
) -> Result<bool, AllocError>
    requires { pass.old.pool ≡ pool.now }
    ensures pool { pass.new.pool ≡ pass.old.pool }
    ensures held { pass.new.held ≡ pass.old.held }
{
    if most == 0 {
        return Ok(false);
    }
    match pool.take(pass) {
        Ok(permit) => {
            let pushed = ids.push(permit.id());
            let rest = all_taken(pool, pass, most - 1, ids);
            pool.give(pass, permit);
            pushed?;
            rest
        }
        Err(fault) => Ok(fault == TakeFault::Empty),
    }
}

#[test]
fn a_whole_pool_is_taken_and_given_back(rt: HostRuntime) -> Result<(), Fail> {
    let (pool, mut pass) = CommandPool::<64>::new(rt.alloc())?;
    let mut ids = Vec::new(rt.alloc());
    assert!(rt; all_taken(&pool, &mut pass, 65, &mut ids)?);
    assert!(rt; all_taken(&pool, &mut pass, 65, &mut ids)?);
    assert!(rt; ids.iter().copied().eq((0..64).chain(0..64)));
    Ok(())
}

/// Takes a number and gives it back, 1,000 times.
#[tactic(auto, using(crate::proofs::Held::back_as_before))]
fn thousand_pairs(pool: &CommandPool<2>, mut pass: PoolPass) -> PoolPass
    requires { (pass.pool ≡ pool.now) × (pass.held ≡ []) }
    ensures { (result.pool ≡ pool.now) × (result.held ≡ []) }
{
    let mut pairs = 0u32;
    for _ in 0..u64::MAX {
        if pairs == 1_000 {
            break;
        }
        // Another thread may have been faster.
        if let Ok(permit) = pool.take(&mut pass) {
            pool.give(&mut pass, permit);
            pairs += 1;
        }
    }
    pass
}

#[test]
fn two_threads_take_and_give(rt: HostRuntime) -> Result<(), Fail> {
    let (pool, mut pass) = CommandPool::<2>::new(rt.alloc())?;
    let one = pool.split(&mut pass)?;
    let two = pool.split(&mut pass)?;
    let (one, two) = thread::join(
        &rt,
        || thousand_pairs(&pool, one),
        || thousand_pairs(&pool, two),
    );
    pool.join(&mut pass, one);
    pool.join(&mut pass, two);
    let mut ids = Vec::new(rt.alloc());
    assert!(rt; all_taken(&pool, &mut pass, 3, &mut ids)?);
    assert_eq!(rt; ids.as_slice(), [0, 1].as_slice());
    Ok(())
}
