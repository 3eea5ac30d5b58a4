//! What a link tells, at once.

use agent_link::Link;

/// What a link tells: the bytes that each connection took and gave, and its counts.
pub trait Telling: Link {
    ghost use Rattle.agent_line.specs.Told.{Told};

    ghost told: { Self → Told };
}

impl<L: Link> Telling for L {
    ghost told = { λ l. record { taken = L.taken l; given = L.given l; counts = record { faults = L.faults l; ends = L.ends l; nothings = L.nothings l } } };
}
