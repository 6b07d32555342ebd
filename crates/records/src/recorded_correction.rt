//! Corrections with their digests.

ghost use Rattle.std.specs.Prelude.{◌≡◌, ◌↔◌, IfOk, IsTrue};
ghost use Rattle.operation.specs.Spelling.{digest_of};
ghost use Rattle.operation.specs.declared.op.Op.TheVariants.{Correction as a_correction};

use operation::{Correction, Digest};
use std::alloc::{AllocError, Global};
use std::marker::Model;
use std::sync::Arc;

/// A digest, and a correction under it.
#[derive(Debug, Drop)]
struct UnderDigest {
    digest: Digest,
    correction: Correction,
}

/// A correction with its own digest. Contracts see the correction.
///
/// It stands apart, so that an operation of either kind takes no more than that of a content.
#[derive(Debug)]
pub struct RecordedCorrection {
    kept: Arc<UnderDigest, Global>,
}

impl Model for RecordedCorrection {
    ghost use Rattle.std.specs.Prelude.{◌≡◌};
    ghost use Rattle.operation.specs.Parts.{CorrectionParts};
    ghost use Rattle.operation.specs.Code.{correction_code};
    ghost use Rattle.operation.specs.Spelling.{digest_of};
    ghost use Rattle.operation.specs.declared.op.Op.TheVariants.{Correction as a_correction};

    ghost Value = { CorrectionParts };

    ghost coded = { correction_code };

    ghost use Rattle.std.specs.Arc.{arc_value};

    ghost view = { λ k. (arc_value k.kept).correction };

    ghost invariant = { λ k.
        (arc_value k.kept).digest ≡ digest_of (a_correction (arc_value k.kept).correction) };
}

// It is written out, so that a caller does not prove again how each part is dropped.
impl Drop for RecordedCorrection {
    fn drop(self) {
        let RecordedCorrection { kept: _ } = self;
    }
}

impl RecordedCorrection {
    /// A second owner of a correction, under its digest.
    pub fn of(
        alloc: Global,
        digest: &Digest,
        correction: &Correction,
    ) -> Result<RecordedCorrection, AllocError>
        requires own { digest.now ≡ digest_of (a_correction correction.now) }
        ensures { IfOk result (λ recorded. recorded ≡ correction.now) }
    {
        RecordedCorrection::under(alloc, *digest, correction.copy(alloc)?)
    }

    /// A correction under its digest.
    pub fn under(
        alloc: Global,
        digest: Digest,
        correction: Correction,
    ) -> Result<RecordedCorrection, AllocError>
        requires own { digest ≡ digest_of (a_correction correction) }
        ensures { IfOk result (λ recorded. recorded ≡ correction) }
    {
        Ok(RecordedCorrection {
            kept: Arc::new(alloc, UnderDigest { digest, correction })?,
        })
    }

    pub fn digest(&self) -> &Digest
        ensures { result.now ≡ digest_of (a_correction self.now) }
    {
        &self.kept.digest
    }

    pub fn correction(&self) -> &Correction
        ensures { result.now ≡ self.now }
    {
        &self.kept.correction
    }
}
