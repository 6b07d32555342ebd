//! Why bytes are no PDU.

ghost use Rattle.std.specs.Prelude.{◌≡◌};
ghost use Rattle.pdu.specs.Fault.{number_of};
ghost use Rattle.pdu.specs.declared.fault.PduFault.TheVariants.{Memory};

use std::alloc::{AllocError, AllocFailed};
use thiserror::Error;

/// Why the front of a stream is no PDU (PS3.8, section 9.3), or could not be read.
///
/// The first, the second and the fourth are told by the six bytes of the header, the third once
/// the body is whole.
#[derive(Clone, Copy, Debug, PartialEq, Eq, Hash, Error)]
pub enum PduFault {
    #[error("the first byte names no PDU")]
    UnknownType,
    #[error("the length is not one of the PDU's type")]
    BadLength,
    #[error("the body is malformed")]
    BadItem,
    #[error("the body is longer than is read")]
    TooLong,
    #[error("out of memory")]
    Memory,
}

impl PduFault {
    /// The number that the program prints.
    pub fn number(self) -> u8
        ensures { result ≡ number_of self }
    {
        match self {
            PduFault::UnknownType => 1,
            PduFault::BadLength => 2,
            PduFault::BadItem => 3,
            PduFault::TooLong => 4,
            PduFault::Memory => 5,
        }
    }
}

impl From<AllocError> for PduFault {
    ghost from_gives = { λ _ e. e ≡ Memory };

    fn from(_error: AllocError) -> Self {
        PduFault::Memory
    }
}

impl<T: Drop> From<AllocFailed<T>> for PduFault {
    ghost from_gives = { λ _ e. e ≡ Memory };

    fn from(_error: AllocFailed<T>) -> Self {
        PduFault::Memory
    }
}
