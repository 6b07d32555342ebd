//! Operations.

ghost use Rattle.std.specs.Prelude.{◌≡◌, ◌↔◌, IfOk, IsTrue};
ghost use Rattle.operation.specs.Reading.{IsOp};
ghost use Rattle.operation.specs.Spelling.{digest_of, hash_of};

use crate::content::Content;
use crate::correction::Correction;
use std::alloc::{AllocError, Global};

/// A content or a correction: what a site takes.
#[derive(Debug, Drop)]
pub enum Op {
    Content(Content),
    Correction(Correction),
}

impl Op {
    /// A second owner of the same operation. The bytes of a data set are shared.
    pub fn copy(&self, alloc: Global) -> Result<Op, AllocError>
        ensures { IfOk result (λ copy. copy ≡ self.now) }
    {
        match self {
            Op::Content(content) => Ok(Op::Content(content.copy(alloc)?)),
            Op::Correction(correction) => Ok(Op::Correction(correction.copy(alloc)?)),
        }
    }

    /// It can be taken, and its digest is the hash of its spelling. Nothing is done: this is a fact
    /// for callers.
    pub fn see_lawful(&self)
        ensures lawful { IsOp self.now }
        ensures digest { digest_of self.now ≡ hash_of self.now }
    {
        match self {
            Op::Content(content) => {
                let _ = content.body();
            }
            Op::Correction(correction) => {
                let _ = correction.stamp();
            }
        }
    }

    /// Whether both are one operation.
    pub fn equals(&self, other: &Op) -> bool
        ensures { IsTrue result ↔ (self.now ≡ other.now) }
    {
        match (self, other) {
            (Op::Content(a), Op::Content(b)) => a.equals(b),
            (Op::Correction(a), Op::Correction(b)) => a.equals(b),
            (Op::Content(_), Op::Correction(_)) => false,
            (Op::Correction(_), Op::Content(_)) => false,
        }
    }
}
