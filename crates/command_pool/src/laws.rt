//! Laws of the definitions, each the contract of a function that does nothing.

ghost use Rattle.command_pool.specs.Laws.{EachMomentIsLawful};

/// At any moment each number of a pool is free or held by one pass, once, and not both; no other number
/// is free or held.
#[tactic(auto, using(crate::proofs::Moments::each_moment_is_lawful))]
pub fn each_moment_is_lawful()
    ensures { EachMomentIsLawful }
{}
