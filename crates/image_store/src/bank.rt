//! Where images are kept.

ghost use Rattle.std.specs.Prelude.{◌≡◌, ℕ, ◌+◌, List, length, true, false, IsSome, IsErrOf, OnOk, Some};
ghost use Rattle.std.specs.List.{slice_range};
ghost use Rattle.std.specs.declared.option.Option.{Option};
ghost use Rattle.agent_link.specs.Counts.{Counted};
ghost use Rattle.image_store.specs.Banks.{Shape, Contents, Agree, IsInside, Written, fresh_of, is_testing, after_create, created, after_activate, after_end, accepted, dropped};

use agent_link::Fault;

/// A device that keeps one image, and may have a new one besides. A new image is written in pieces. Once
/// it is whole it is Testing, and from then on it is accepted, and replaces the kept one, or is rejected.
/// After a fault of any call but `write_at` the bank is as it was.
pub trait Bank {
    /// The new image: its size, and whether it is Testing. It is always told.
    ghost shape: { Self → Option Shape };

    /// The bytes of the kept image and of the new one, where the bank tells them.
    ghost contents: { Self → Option Contents };

    /// How often a call answered `Failed`.
    ghost faults: { Self → ℕ };

    /// Makes a new image of so many zero bytes, not Testing. An earlier new one is gone.
    fn create(&mut self, size: u32) -> Result<(), Fault>
        ensures shape { shape self.new ≡ after_create result size (shape self.old) }
        ensures contents { contents self.new ≡ created result size (contents self.old) }
        ensures cause { Counted (IsErrOf result Fault.Failed) (faults self.old) (faults self.new) };

    /// Writes a range of the new image. After a fault the range may hold anything.
    fn write_at(&mut self, at: u32, bytes: &[u8]) -> Result<(), Fault>
        requires inside { IsInside at (length bytes.now) (shape self.old) }
        requires idle { is_testing (shape self.old) ≡ false }
        ensures shape { shape self.new ≡ shape self.old }
        ensures contents { Written result at bytes.now (contents self.old) (contents self.new) }
        ensures cause { Counted (IsErrOf result Fault.Failed) (faults self.old) (faults self.new) };

    /// Reads a range of the new image.
    fn read_at(&mut self, at: u32, buf: &mut [u8]) -> Result<(), Fault>
        requires inside { IsInside at (length buf.old) (shape self.old) }
        ensures len { length buf.new ≡ length buf.old }
        ensures bytes { OnOk result ((bytes : List ℕ) → fresh_of (contents self.old) ≡ Some bytes → buf.new ≡ slice_range bytes at (at + length buf.old)) }
        ensures shape { shape self.new ≡ shape self.old }
        ensures contents { contents self.new ≡ contents self.old }
        ensures cause { Counted (IsErrOf result Fault.Failed) (faults self.old) (faults self.new) };

    /// The new image is Testing from now on.
    fn activate(&mut self) -> Result<(), Fault>
        requires { IsSome (shape self.old) }
        ensures shape { shape self.new ≡ after_activate result (shape self.old) }
        ensures contents { contents self.new ≡ contents self.old }
        ensures cause { Counted (IsErrOf result Fault.Failed) (faults self.old) (faults self.new) };

    /// The new image, which is Testing, is the kept one from now on. The older one is gone.
    fn accept(&mut self) -> Result<(), Fault>
        requires { is_testing (shape self.old) ≡ true }
        ensures shape { shape self.new ≡ after_end result (shape self.old) }
        ensures contents { contents self.new ≡ accepted result (contents self.old) }
        ensures cause { Counted (IsErrOf result Fault.Failed) (faults self.old) (faults self.new) };

    /// Drops the new image, which is Testing.
    fn reject(&mut self) -> Result<(), Fault>
        requires { is_testing (shape self.old) ≡ true }
        ensures shape { shape self.new ≡ after_end result (shape self.old) }
        ensures contents { contents self.new ≡ dropped result (contents self.old) }
        ensures cause { Counted (IsErrOf result Fault.Failed) (faults self.old) (faults self.new) };

    /// Drops the new image.
    fn abort(&mut self) -> Result<(), Fault>
        requires { IsSome (shape self.old) }
        ensures shape { shape self.new ≡ after_end result (shape self.old) }
        ensures contents { contents self.new ≡ dropped result (contents self.old) }
        ensures cause { Counted (IsErrOf result Fault.Failed) (faults self.old) (faults self.new) };

    /// What is told of the new image's size is the length of what is told of its bytes.
    ghost agrees: { (bank : Self) → Agree (shape bank) (contents bank) };
}
