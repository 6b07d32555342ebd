//! Why a data set is no rejection note, though its class and title say so.

ghost use Rattle.std.specs.Prelude.{◌≡◌};
ghost use Rattle.rejection_note.specs.declared.fault.NoteFault.TheVariants.{Memory};
ghost use Rattle.rejection_note.specs.Fault.{number_of};

use std::alloc::{AllocError, AllocFailed};
use thiserror::Error;

/// What a Key Object Selection lacks, and want of memory.
#[derive(Clone, Copy, Debug, PartialEq, Eq, Drop, Error)]
pub enum NoteFault {
    /// The document has no title: (0040,A043) is missing or has no item.
    #[error("the document has no title")]
    NoTitle,
    /// A rejection title, and no UID is named, or something that is no UID.
    #[error("no UID is named, or something that is no UID")]
    NoReference,
    /// Memory was refused: no fault of the document.
    #[error("memory was refused")]
    Memory,
}

impl NoteFault {
    /// The public number of the fault, from 1 to 3.
    pub fn number(self) -> u8
        ensures { result ≡ number_of self }
    {
        match self {
            NoteFault::NoTitle => 1,
            NoteFault::NoReference => 2,
            NoteFault::Memory => 3,
        }
    }
}

impl From<AllocError> for NoteFault {
    ghost from_gives = { λ _ e. e ≡ Memory };

    fn from(_e: AllocError) -> NoteFault {
        NoteFault::Memory
    }
}

impl<T: Drop> From<AllocFailed<T>> for NoteFault {
    ghost from_gives = { λ _ e. e ≡ Memory };

    fn from(_e: AllocFailed<T>) -> NoteFault {
        NoteFault::Memory
    }
}
