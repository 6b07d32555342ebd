//! Why fragments or a command set are not taken.

ghost use Rattle.std.specs.Prelude.{◌≡◌};
ghost use Rattle.dimse.specs.Fault.{number_of};
ghost use Rattle.dimse.specs.declared.fault.DimseFault.TheVariants.{Memory};

use std::alloc::{AllocError, AllocFailed};
use thiserror::Error;

/// Why fragments are no message, or bytes no command set (PS3.7, section 6.3; PS3.8, annex E).
#[derive(Clone, Copy, Debug, PartialEq, Eq, Error)]
pub enum DimseFault {
    #[error("a fragment is on a presentation context that was not accepted")]
    BadContext,
    #[error("a fragment is of another message or of the wrong kind")]
    Interleaved,
    #[error("the command set is malformed")]
    BadCommand,
    #[error("the command set or the data set is longer than is read")]
    TooLong,
    #[error("out of memory")]
    Memory,
    #[error("an earlier fragment was refused")]
    Failed,
}

impl DimseFault {
    /// The number that the program prints.
    pub fn number(self) -> u8
        ensures { result ≡ number_of self }
    {
        match self {
            DimseFault::BadContext => 1,
            DimseFault::Interleaved => 2,
            DimseFault::BadCommand => 3,
            DimseFault::TooLong => 4,
            DimseFault::Memory => 5,
            DimseFault::Failed => 6,
        }
    }
}

impl From<AllocError> for DimseFault {
    ghost from_gives = { λ _ e. e ≡ Memory };

    fn from(_error: AllocError) -> Self {
        DimseFault::Memory
    }
}

impl<T: Drop> From<AllocFailed<T>> for DimseFault {
    ghost from_gives = { λ _ e. e ≡ Memory };

    fn from(_error: AllocFailed<T>) -> Self {
        DimseFault::Memory
    }
}
