//! Where callers come from.

ghost use Rattle.std.specs.Prelude.{◌≡◌, ℕ, ◌<◌, ◌-◌, List, IfOk};
ghost use Rattle.std.specs.declared.option.Option.{Option};
ghost use Rattle.agent_link.specs.Counts.{counted};
ghost use Rattle.agent_listen.specs.Callers.{with_caller, out_behind, IsFresh};

use agent_link::{Fault, Link};

/// Waits for callers at an address. A caller is a link with one connection, which is open when it is given. It comes
/// back when it was served: who has one can neither drop nor copy it.
pub trait Listen {
    type Caller: Link;

    /// The callers that came back, in the order in which they came, where the listener tells them.
    ghost served: { Self → Option (List Self.Caller) };

    /// How many callers were given that didn't come back yet.
    ghost out: { Self → ℕ };

    /// How often a call answered `Failed`.
    ghost faults: { Self → ℕ };

    /// Begins to listen at an address.
    fn bind(&mut self, at: &str) -> Result<(), Fault>
        ensures served { served self.new ≡ served self.old }
        ensures out { out self.new ≡ out self.old }
        ensures cause { faults self.new ≡ counted result (faults self.old) };

    /// The next caller. Nothing was sent or received on its connection, and it has counted nothing.
    fn next(&mut self) -> Result<Self::Caller, Fault>
        ensures taken { IfOk result (λ caller. IsFresh (Self.Caller.taken caller)) }
        ensures given { IfOk result (λ caller. IsFresh (Self.Caller.given caller)) }
        ensures faults { IfOk result (λ caller. Self.Caller.faults caller ≡ 0) }
        ensures ends { IfOk result (λ caller. Self.Caller.ends caller ≡ 0) }
        ensures nothings { IfOk result (λ caller. Self.Caller.nothings caller ≡ 0) }
        ensures served { served self.new ≡ served self.old }
        ensures out { out self.new ≡ out_behind result (out self.old) }
        ensures cause { faults self.new ≡ counted result (faults self.old) };

    /// Takes back a caller, once it was served. It takes no memory.
    fn back(&mut self, caller: Self::Caller)
        requires { 0 < out self.old }
        ensures served { served self.new ≡ with_caller (served self.old) caller }
        ensures out { out self.new ≡ out self.old - 1 }
        ensures faults { faults self.new ≡ faults self.old };
}
