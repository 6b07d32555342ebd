//! Values of lists of operations.
ghost use Rattle.std.specs.Prelude.{◌≡◌, List, OnOk, OnErr, IfOk};
ghost use Rattle.join_laws.specs.Laws.{SummaryLaws, summary_of, HasSameMembers};

use crate::join::Join;
use std::alloc::{AllocError, Global};

/// A value that takes in operations, one after another.
pub trait Summary<O>: Join {
    // The value of no operation.
    ghost nothing: { Self };

    // The value of one operation.
    ghost of_one: { O → Self };

    /// The value of no operation.
    fn empty(alloc: Global) -> Self
        ensures { result ≡ nothing };

    /// Takes in an operation. Where memory is refused, the value stays as it was.
    fn add(&mut self, op: &O) -> Result<(), AllocError>
        ensures ok { OnOk result (self.new ≡ Self.joined self.old (of_one op.now)) }
        ensures refused { OnErr result (self.new ≡ self.old) };

    // To join with nothing changes nothing.
    ghost summary_laws: { SummaryLaws Self.IsHeld Self.joined nothing of_one };
}

/// The value of a list of operations. Their order is not seen in it, and neither are repeats.
pub fn fold_ops<O, S: Summary<O>>(alloc: Global, list: &[O]) -> Result<S, AllocError>
    ensures value { IfOk result (λ value. value ≡ summary_of S.joined S.nothing S.of_one list.now) }
    ensures set_alone { IfOk result (λ value. (other : List O) → HasSameMembers other list.now →
        value ≡ summary_of S.joined S.nothing S.of_one other) }
{
    let mut value = S::empty(alloc);
    for op in list {
        value.add(op)?;
    }
    Ok(value)
}
