//! What can be joined.
ghost use Rattle.std.specs.Prelude.{◌≡◌, OnOk, OnErr};
ghost use Rattle.join_laws.specs.Laws.{JoinLaws};

use std::alloc::AllocError;

/// A value that takes in another of its type.
pub trait Join: Drop {
    // What is true of every value that the type holds, as that its keys ascend.
    ghost IsHeld: { Self → Type 0 };

    // What two values come to together.
    ghost joined: { Self → Self → Self };

    /// Takes in what the other holds. Where memory is refused, the value stays as it was.
    fn join_with(&mut self, other: &Self) -> Result<(), AllocError>
        ensures ok { OnOk result (self.new ≡ joined self.old other.now) }
        ensures refused { OnErr result (self.new ≡ self.old) };

    /// Does nothing. Its contract says that the value is one that the type holds.
    fn held(&self)
        ensures { IsHeld self.now };

    // The order of joins is free, and so are repeats.
    ghost laws: { JoinLaws IsHeld joined };
}
