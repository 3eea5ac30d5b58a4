//! What a pass knows: the numbers that it holds and the steps that it made. It exists in proofs alone.

use std::collections::LinkedList;

/// One atomic step of a pass. No value of it is made: contracts tell what a call did by it.
pub enum PoolStep {
    /// A load, which found this word. Bit x of it is set where number x was free.
    Loaded(u64),
    /// The bit of this number was cleared, and had been set: from here on the pass holds the number.
    Taken(u32),
    /// The bit of this number was cleared, but had been clear: another pass held the number.
    Missed(u32),
    /// The bit of this number was set: from here on the pass doesn't hold it.
    Given(u32),
    /// Another pass was split off this one.
    Split,
    /// Another pass was joined into this one.
    Joined,
}

/// The view of a pass. No value of it is made.
pub struct Hand {
    pub held: LinkedList<u32>,
    pub steps: LinkedList<PoolStep>,
}
