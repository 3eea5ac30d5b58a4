//! The rule over the pool's word and its passes, and the kinds of step that keep it.

ghost use Rattle.command_pool.specs.Hands.{hand, nothing, noted};
ghost use Rattle.command_pool.specs.Rule.{EachOnce};
ghost use Rattle.command_pool.specs.Kinds.{Loads, Clears, Sets};
ghost use Rattle.command_pool.specs.declared.hand.PoolStep.TheVariants as steps;

use crate::hand::Hand;
use atomic_table::{Join, Play, Split, TableRule};

/// Each number below the table's key is free or held by one pass, once.
pub struct Numbers;

impl TableRule<(), Hand, usize> for Numbers {
    ghost holds = { EachOnce };

    ghost first = { λ _. nothing };
}

/// A load of the word.
pub struct Load<const POOL: usize>;

impl<const POOL: usize> Play<(), Hand> for Load<POOL> {
    ghost then = { Loads POOL };
}

/// A fetch_and that clears one number's bit.
pub struct Clear;

impl Play<(), Hand> for Clear {
    ghost then = { Clears };
}

/// A fetch_or that sets the bit of a number that the pass holds.
pub struct Set;

impl Play<(), Hand> for Set {
    ghost then = { Sets };
}

/// The new pass of a split holds nothing, and nor does a pass that is left behind by a join.
pub struct Apart;

impl Split<Hand> for Apart {
    ghost left = { λ v. noted steps.Split v };

    ghost right = { λ _. nothing };
}

impl Join<Hand> for Apart {
    ghost both = { λ v _. noted steps.Joined v };

    ghost spent = { nothing };
}
