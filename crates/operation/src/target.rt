//! What a correction is about.

ghost use Rattle.std.specs.Prelude.{◌≡◌, ◌↔◌, IfOk, IsTrue};

use octets::Octets;
use std::alloc::{AllocError, Global};

/// The study, the patient or the series whose attribute is corrected.
#[derive(Debug, Drop)]
pub enum Target {
    /// The study of this Study Instance UID.
    Study(Octets),
    /// The patient of this stored Patient ID.
    Patient(Octets),
    /// The series of this Series Instance UID.
    Series(Octets),
}

impl Target {
    /// A second owner of the same target.
    pub fn copy(&self, alloc: Global) -> Result<Target, AllocError>
        ensures { IfOk result (λ copy. copy ≡ self.now) }
    {
        match self {
            Target::Study(key) => Ok(Target::Study(key.copy(alloc)?)),
            Target::Patient(key) => Ok(Target::Patient(key.copy(alloc)?)),
            Target::Series(key) => Ok(Target::Series(key.copy(alloc)?)),
        }
    }

    /// Whether both are one target.
    pub fn equals(&self, other: &Target) -> bool
        ensures { IsTrue result ↔ (self.now ≡ other.now) }
    {
        match (self, other) {
            (Target::Study(a), Target::Study(b)) => a.equals(b),
            (Target::Patient(a), Target::Patient(b)) => a.equals(b),
            (Target::Series(a), Target::Series(b)) => a.equals(b),
            (Target::Study(_), Target::Patient(_) | Target::Series(_)) => false,
            (Target::Patient(_), Target::Study(_) | Target::Series(_)) => false,
            (Target::Series(_), Target::Study(_) | Target::Patient(_)) => false,
        }
    }
}
