//! What is kept of an operation.

ghost use Rattle.std.specs.Prelude.{◌≡◌, ◌↔◌, IfOk, IsTrue};
ghost use Rattle.operation.specs.Records.{record_of};

use crate::content_record::ContentRecord;
use crate::{Correction, Digested, Op};
use std::alloc::{AllocError, Global};

/// An operation without the bytes of a data set: what is kept of a content, and a correction, which
/// has no such bytes.
#[derive(Debug, Drop)]
pub enum Record {
    Content(ContentRecord),
    Correction(Correction),
}

impl Record {
    /// What is kept of an operation. Nothing is hashed, and no byte of a data set is copied.
    pub fn of(alloc: Global, op: &Digested) -> Result<Record, AllocError>
        ensures { IfOk result (λ kept. kept ≡ record_of op.now) }
    {
        match op.op() {
            Op::Content(content) => Ok(Record::Content(ContentRecord::of(op.digest(), content)?)),
            Op::Correction(correction) => Ok(Record::Correction(correction.copy(alloc)?)),
        }
    }

    /// Whether both are one record.
    pub fn equals(&self, other: &Record) -> bool
        ensures { IsTrue result ↔ (self.now ≡ other.now) }
    {
        match (self, other) {
            (Record::Content(a), Record::Content(b)) => a.equals(b),
            (Record::Correction(a), Record::Correction(b)) => a.equals(b),
            (Record::Content(_), Record::Correction(_)) => false,
            (Record::Correction(_), Record::Content(_)) => false,
        }
    }

    /// Whether this is what is kept of an operation that was read from elsewhere.
    pub fn is_of(&self, alloc: Global, op: &Digested) -> Result<bool, AllocError>
        ensures { IfOk result (λ is. IsTrue is ↔ (self.now ≡ record_of op.now)) }
    {
        let kept = Record::of(alloc, op)?;
        Ok(self.equals(&kept))
    }
}
