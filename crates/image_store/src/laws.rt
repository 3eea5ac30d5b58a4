//! What a writer stands for, each law the contract of a function that does nothing.

ghost use Rattle.image_store.specs.Standing as standing;

/// A new writer stands for no blocks.
#[tactic(auto, using(crate::proofs::Standing::new_stands))]
pub fn new_stands()
    ensures { standing.NewStands }
{}

/// Where no block is missing, the bank's bytes are the image of the blocks that were put.
#[tactic(auto, using(crate::proofs::Standing::whole_stands))]
pub fn whole_stands()
    ensures { standing.WholeStands }
{}

/// A block that was missing and is put in its place is one more of those blocks.
pub fn put_stands()
    ensures { standing.PutStands }
{}

/// A repeat of a block is one more of those blocks.
pub fn again_stands()
    ensures { standing.AgainStands }
{}

/// A fault of the bank at a block that is missing changes nothing of what the writer stands for.
pub fn fault_stands()
    ensures { standing.FaultStands }
{}
