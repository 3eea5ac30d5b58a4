//! The two slots of a file, of which one counts.

ghost use Rattle.std.specs.Prelude.{◌≡◌, ◌<◌, ◌^◌};
ghost use Rattle.disk_slots.specs.Slots.{gate_of, named, other, start};

/// A slot of a file.
#[derive(Clone, Copy, Debug)]
pub enum Slot {
    First,
    Second,
}

impl Slot {
    /// The slot that a gate names.
    pub fn named(gate: u8) -> Slot
        ensures { result ≡ named gate }
    {
        if gate.is_multiple_of(2) {
            Slot::First
        } else {
            Slot::Second
        }
    }

    /// The gate that names the slot.
    pub fn gate(self) -> u8
        ensures { result ≡ gate_of self }
    {
        match self {
            Slot::First => 0,
            Slot::Second => 1,
        }
    }

    pub fn other(self) -> Slot
        ensures { result ≡ other self }
    {
        match self {
            Slot::First => Slot::Second,
            Slot::Second => Slot::First,
        }
    }

    /// Where the slot begins in a file whose slots have `slot_len` bytes.
    pub fn start(self, slot_len: u64) -> u64
        requires { slot_len < 2 ^ 32 }
        ensures { result ≡ start slot_len self }
    {
        match self {
            Slot::First => 1,
            Slot::Second => 1 + slot_len,
        }
    }
}
