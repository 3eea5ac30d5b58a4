//! Laws of the definitions, each the contract of a function that does nothing.

ghost use Rattle.stream_blocks.specs.Laws as laws;

/// A data message that is written is read back, where its payload has room.
#[tactic(auto, using(crate::proofs::ReadBack::blocks_are_read_back))]
pub fn blocks_are_read_back()
    ensures { laws.BlocksAreReadBack }
{}

/// A request that is written is read back.
#[tactic(auto, using(crate::proofs::ReadBack::requests_are_read_back))]
pub fn requests_are_read_back()
    ensures { laws.RequestsAreReadBack }
{}

/// A head of the grammar is read as its argument, whatever stands behind it.
pub fn heads_are_read()
    ensures { laws.HeadsAreRead }
{}

/// A string of the grammar, whole or in chunks, is read to its end and as what it holds.
pub fn strings_are_read()
    ensures { laws.StringsAreRead }
{}

/// A value of the grammar is passed as a whole.
pub fn values_are_read()
    ensures { laws.ValuesAreRead }
{}

/// Bytes are a data message of the grammar exactly where they read as it.
pub fn blocks_are_read()
    ensures { laws.BlocksAreRead }
{}

/// Bytes are a request of the grammar exactly where they read as it, its fields in their ranges.
pub fn requests_are_read()
    ensures { laws.RequestsAreRead }
{}
