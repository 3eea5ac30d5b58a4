//! The pool, and the calls on it.

ghost use Rattle.std.specs.Prelude.{◌≡◌, ◌≢◌, ℕ, ◌<◌, ◌≤◌, ◌+◌, [], ◌∷◌, ◌++◌, length, IfOk, OnErr, IsOkAnd, IfSome, IfNone};
ghost use Rattle.std.specs.Bool.{OnTrue, OnFalse};
ghost use Rattle.std.specs.Int.{bit_at};
ghost use Rattle.command_pool.specs.Kinds.{FitsPool};
ghost use Rattle.command_pool.specs.Hands.{times, without};
ghost use Rattle.command_pool.specs.Passes.{Holds};
ghost use Rattle.command_pool.specs.Takes.{TakeSteps, IsOnward, empties, empties_in, misses};
ghost use Rattle.command_pool.specs.declared.hand.PoolStep.TheVariants as steps;

use crate::bits::{all_but, bit_of, is_set};
use crate::hand::Hand;
use crate::pass::PoolPass;
use crate::permit::{Permit, TakeFault};
use crate::rule::{Apart, Clear, Load, Numbers, Set};
use atomic_table::{Seat, Table};
use std::alloc::{AllocError, Global};
use std::marker::Model;
use std::snapshot::Snapshot;

/// The command numbers 0 to POOL-1, POOL from 1 to 64. At any moment each is free or held by one pass:
/// the law `each_moment_is_lawful`. No call waits, and none but `new` takes memory. Contracts see a pool
/// as its name.
#[derive(Drop)]
pub struct CommandPool<const POOL: usize> {
    table: Table<(), Hand, usize, Numbers, Global>,
}

impl<const POOL: usize> Model for CommandPool<POOL> {
    ghost use Rattle.std.specs.Prelude.{◌≡◌, ◌<◌, ◌≤◌};
    ghost use Rattle.atomic_table.specs.Seated.{TableId};

    ghost Value = { TableId };

    ghost view = { λ p. p.table.shared.table_id };

    ghost invariant = { λ p. (p.table.shared.table_id.words ≡ 1) × (p.table.shared.key ≡ POOL) };
}

impl<const POOL: usize> CommandPool<POOL> {
    /// A pool whose numbers are all free, and its first pass. `Err` where memory runs out.
    pub fn new(alloc: Global) -> Result<(CommandPool<POOL>, PoolPass), AllocError>
        requires size { (0 < POOL) × (POOL ≤ 64) }
        ensures pool { IfOk result (λ r. r.1.pool ≡ r.0) }
        ensures pass { IfOk result (λ r. (r.1.held ≡ []) × (r.1.steps ≡ [])) }
    {
        let all = u64::MAX >> (64 - POOL);
        let (table, seat) = Table::of_words(alloc, &[all], &POOL)?;
        Ok((CommandPool { table }, PoolPass { seat }))
    }

    /// Another pass of this pool, which holds nothing. It takes no memory, so it is always `Ok`.
    pub fn split(&self, pass: &mut PoolPass) -> Result<PoolPass, AllocError>
        requires own { pass.old.pool ≡ self.now }
        ensures pass { pass.new ≡ record pass.old { steps = steps.Split ∷ pass.old.steps } }
        ensures new { IsOkAnd result (λ p. p ≡ record { pool = pass.old.pool; held = []; steps = [] }) }
    {
        Ok(PoolPass {
            seat: self.table.shared.split_seat::<Apart>(&mut pass.seat),
        })
    }

    /// Takes a number: after one look at the word it reaches once for each number that was free then,
    /// from the lowest up, until it has one. `Empty` where that look found none free, `Busy` where
    /// each that it found free was taken when this call reached for it. Who tries again until the answer is
    /// another than `Busy` has one more load that found none free exactly where it ends with `Empty`.
    pub fn take(&self, pass: &mut PoolPass) -> Result<Permit, TakeFault>
        requires own { pass.old.pool ≡ self.now }
        ensures pool { pass.new.pool ≡ pass.old.pool }
        ensures number { IfOk result (λ p. p.id < POOL) }
        ensures fresh { IfOk result (λ p. times p.id pass.old.held ≡ 0) }
        ensures taken { IfOk result (λ p. pass.new.held ≡ p.id ∷ pass.old.held) }
        ensures held { IfOk result (λ p. Holds pass.new p) }
        ensures refused { OnErr result (pass.new.held ≡ pass.old.held) }
        ensures steps { TakeSteps POOL result pass.old.steps pass.new.steps }
        ensures bound { length pass.new.steps ≤ length pass.old.steps + (1 + POOL) }
        ensures onward { IsOnward pass.old.steps pass.new.steps }
        ensures empties { empties pass.new.steps ≡ empties pass.old.steps + empties_in result }
    {
        let seen = self.load(pass);
        if seen == 0 {
            return Err(TakeFault::Empty);
        }
        match self.take_one_of(pass, seen) {
            Some(id) => Ok(Permit {
                id,
                from: Snapshot::of(pass),
            }),
            None => Err(TakeFault::Busy { seen }),
        }
    }

    /// Gives a number back, in one step.
    pub fn give(&self, pass: &mut PoolPass, permit: Permit)
        requires own { pass.old.pool ≡ self.now }
        requires held { Holds pass.old permit }
        ensures given { pass.new ≡ record pass.old { held = without permit.id pass.old.held; steps = steps.Given permit.id ∷ pass.old.steps } }
        ensures gone { times permit.id pass.new.held ≡ 0 }
        ensures others { (x : ℕ) → x ≢ permit.id → times x pass.new.held ≡ times x pass.old.held }
    {
        let Permit { id, from: _ } = permit;
        self.table
            .shared
            .fetch_or::<Set>(&mut pass.seat, 0, bit_of(id));
    }

    /// Lets another pass go, which holds nothing.
    pub fn join(&self, pass: &mut PoolPass, other: PoolPass)
        requires own { (pass.old.pool ≡ self.now) × (other.pool ≡ self.now) }
        requires empty { other.held ≡ [] }
        ensures joined { pass.new ≡ record pass.old { steps = steps.Joined ∷ pass.old.steps } }
    {
        self.table
            .shared
            .join_seat::<Apart>(&mut pass.seat, other.seat);
    }

    /// The word, as it is found by one step.
    fn load(&self, pass: &mut PoolPass) -> u64
        requires own { pass.old.pool ≡ self.now }
        ensures loaded { pass.new ≡ record pass.old { steps = steps.Loaded result ∷ pass.old.steps } }
        ensures fits { FitsPool POOL result }
    {
        self.table.shared.load::<Load<POOL>>(&mut pass.seat, 0)
    }

    /// Reaches for each number that `seen` has, from the lowest up, until one is taken.
    fn take_one_of(&self, pass: &mut PoolPass, seen: u64) -> Option<u32>
        requires own { pass.old.pool ≡ self.now }
        requires fits { FitsPool POOL seen }
        ensures pool { pass.new.pool ≡ pass.old.pool }
        ensures id { IfSome result (λ id. (id < 64) × (id < POOL) × (bit_at seen id ≡ 1)) }
        ensures some { IfSome result (λ id. (pass.new.held ≡ id ∷ pass.old.held) × (times id pass.old.held ≡ 0)
            × (pass.new.steps ≡ steps.Taken id ∷ misses seen id ++ pass.old.steps)) }
        ensures none { IfNone result ((pass.new.held ≡ pass.old.held) × (pass.new.steps ≡ misses seen POOL ++ pass.old.steps)) }
    {
        let mut left = seen;
        while left != 0 {
            let id = left.trailing_zeros();
            if self.reach(pass, id) {
                return Some(id);
            }
            left &= all_but(id);
        }
        None
    }

    /// Clears the number's bit, and says whether that took the number.
    fn reach(&self, pass: &mut PoolPass, id: u32) -> bool
        requires own { pass.old.pool ≡ self.now }
        requires small { id < 64 }
        ensures fresh { OnTrue result (times id pass.old.held ≡ 0) }
        ensures hit { OnTrue result (pass.new ≡ record pass.old { held = id ∷ pass.old.held; steps = steps.Taken id ∷ pass.old.steps }) }
        ensures miss { OnFalse result (pass.new ≡ record pass.old { steps = steps.Missed id ∷ pass.old.steps }) }
    {
        let found = self
            .table
            .shared
            .fetch_and::<Clear>(&mut pass.seat, 0, all_but(id));
        is_set(found, id)
    }
}
