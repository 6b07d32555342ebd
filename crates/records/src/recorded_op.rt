//! Operations of which the record alone is held.

ghost use Rattle.std.specs.Prelude.{◌≡◌, ◌↔◌, IfOk, IsTrue};
ghost use Rattle.std.specs.Option.{option_copied};
ghost use Rattle.operation.specs.Spelling.{digest_of};
ghost use Rattle.operation.specs.declared.op.Op.TheVariants.{Content as a_content, Correction as a_correction};
ghost use Rattle.records.specs.Parts.{content_in, correction_in};
ghost use Rattle.records.specs.Kinds.{op_of};
ghost use Rattle.records.specs.StandIn.{IsOpIn, op_in};

use crate::recorded_content::RecordedContent;
use crate::recorded_correction::RecordedCorrection;
use operation::{Correction, Digest, Digested, Op};
use std::alloc::{AllocError, Global};
use std::marker::Model;

/// Of which kind a recorded operation is.
#[derive(Debug, Drop)]
pub enum Parts {
    Content(RecordedContent),
    Correction(RecordedCorrection),
}

/// An operation of which the record alone is held, with its digest: of a content all but its bytes,
/// and of a correction all.
///
/// Contracts see the operation that stands for those of this record. Where no two operations have
/// one digest, it is the operation that was recorded.
#[derive(Debug)]
pub struct RecordedOp {
    parts: Parts,
}

impl Model for RecordedOp {
    ghost use Rattle.operation.specs.declared.op.Op.{Op};

    ghost Value = { Op };

    ghost use Rattle.operation.specs.OpCode.{op_code};

    ghost coded = { op_code };

    ghost use Rattle.records.specs.Kinds.{op_of};

    ghost view = { λ r. op_of r.parts };
}

// It is written out, so that a caller does not prove again how each part is dropped.
impl Drop for RecordedOp {
    fn drop(self) {
        let RecordedOp { parts: _ } = self;
    }
}

impl RecordedOp {
    /// The record of an operation. Nothing is hashed, and no byte of a data set is copied.
    pub fn of(alloc: Global, op: &Digested) -> Result<RecordedOp, AllocError>
        ensures stands { IfOk result (λ recorded. recorded ≡ op_in op.now) }
        // It has the digest of the operation.
        ensures digest { digest_of (op_in op.now) ≡ digest_of op.now }
    {
        let digest = op.digest();
        let parts = match op.op() {
            Op::Content(content) => Parts::Content(RecordedContent::of(alloc, digest, content)?),
            Op::Correction(correction) => {
                Parts::Correction(RecordedCorrection::of(alloc, digest, correction)?)
            }
        };
        Ok(RecordedOp { parts })
    }

    /// A content of which the record is held.
    pub fn of_content(content: RecordedContent) -> RecordedOp
        ensures { result ≡ a_content content }
    {
        RecordedOp {
            parts: Parts::Content(content),
        }
    }

    /// A correction, which is hashed.
    pub fn of_correction(alloc: Global, correction: Correction) -> Result<RecordedOp, AllocError>
        ensures { IfOk result (λ recorded. recorded ≡ a_correction correction) }
    {
        let (digest, op) = Digested::of(Op::Correction(correction)).into_parts();
        match op {
            Op::Correction(correction) => Ok(RecordedOp {
                parts: Parts::Correction(RecordedCorrection::under(alloc, digest, correction)?),
            }),
            Op::Content(_) => unreachable!(),
        }
    }

    /// A second owner of the same record.
    pub fn copy(&self, alloc: Global) -> Result<RecordedOp, AllocError>
        ensures { IfOk result (λ copy. copy ≡ self.now) }
    {
        let parts = match &self.parts {
            Parts::Content(content) => Parts::Content(content.copy()?),
            Parts::Correction(recorded) => Parts::Correction(RecordedCorrection::of(
                alloc,
                recorded.digest(),
                recorded.correction(),
            )?),
        };
        Ok(RecordedOp { parts })
    }

    /// The digest of the operation.
    pub fn digest(&self) -> &Digest
        ensures { result.now ≡ digest_of self.now }
    {
        match &self.parts {
            Parts::Content(content) => content.digest(),
            Parts::Correction(recorded) => recorded.digest(),
        }
    }

    /// The content or the correction that it is.
    pub fn parts(&self) -> &Parts
        ensures { op_of result.now ≡ self.now }
    {
        &self.parts
    }

    /// The content, if it is one.
    pub fn content(&self) -> Option<&RecordedContent>
        ensures { option_copied result ≡ content_in self.now }
    {
        match &self.parts {
            Parts::Content(content) => Some(content),
            Parts::Correction(_) => None,
        }
    }

    /// The correction, if it is one.
    pub fn correction(&self) -> Option<&Correction>
        ensures { option_copied result ≡ correction_in self.now }
    {
        match &self.parts {
            Parts::Content(_) => None,
            Parts::Correction(recorded) => Some(recorded.correction()),
        }
    }

    /// Whether both are one operation.
    pub fn equals(&self, other: &RecordedOp) -> bool
        ensures { IsTrue result ↔ (self.now ≡ other.now) }
    {
        match (&self.parts, &other.parts) {
            (Parts::Content(a), Parts::Content(b)) => a.equals(b),
            (Parts::Correction(a), Parts::Correction(b)) => a.correction().equals(b.correction()),
            (Parts::Content(_), Parts::Correction(_)) => false,
            (Parts::Correction(_), Parts::Content(_)) => false,
        }
    }

    /// It stands for the operations of its record. Nothing is done: this is a fact for callers.
    pub fn see_recorded(&self)
        ensures { IsOpIn self.now }
    {
        match &self.parts {
            Parts::Content(content) => content.see_recorded(),
            Parts::Correction(recorded) => {
                let _ = recorded.correction().stamp();
            }
        }
    }
}
