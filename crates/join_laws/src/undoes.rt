//! Values that take an operation back.
ghost use Rattle.std.specs.Prelude.{◌≡◌, OnOk, OnErr, IfOk};

use crate::summary::Summary;
use std::alloc::AllocError;

/// A value that can take back the operation that it took in last, without memory.
///
/// So several values can take in one operation together: where one of them is refused memory, the
/// others take it back. The last of them need not be able to.
pub trait Undoes<O>: Summary<O> {
    /// What takes an operation back.
    type Undo: Drop;

    // With this the operation is taken back, and the value is what it was.
    ghost TakesBack: { Self → O → Self.Undo → Type 0 };

    /// Takes in an operation, and answers what takes it back. Where memory is refused, the value
    /// stays as it was.
    fn add_with_undo(&mut self, op: &O) -> Result<Self::Undo, AllocError>
        ensures ok { OnOk result (self.new ≡ Self.joined self.old (Self.of_one op.now)) }
        ensures undo { IfOk result (λ undo. TakesBack self.old op.now undo) }
        ensures refused { OnErr result (self.new ≡ self.old) };

    /// Takes back the operation that was taken in last. This takes no memory.
    fn undo(&mut self, op: &O, undo: Self::Undo)
        ensures { (before : Self) → Self.IsHeld before → TakesBack before op.now undo →
            self.old ≡ Self.joined before (Self.of_one op.now) → self.new ≡ before };
}
