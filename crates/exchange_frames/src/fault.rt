//! Why bytes are no frame, or a frame could not be read or written.

ghost use Rattle.std.specs.Prelude.{◌≡◌};
ghost use Rattle.exchange_frames.specs.Fault.{number_of};
ghost use Rattle.exchange_frames.specs.declared.fault.FrameFault.TheVariants.{Memory};

use std::alloc::{AllocError, AllocFailed};
use thiserror::Error;

/// Why bytes are no frame, or a frame could not be read or written. `TooLong` is told before
/// `BadFrame`, save that an unknown kind is told first.
#[derive(Clone, Copy, Debug, PartialEq, Eq, Hash, Error)]
pub enum FrameFault {
    #[error("the bytes are no frame")]
    BadFrame,
    #[error("the frame is longer than is read or written")]
    TooLong,
    #[error("out of memory")]
    Memory,
}

impl FrameFault {
    /// The number that the program prints.
    pub fn number(self) -> u8
        ensures { result ≡ number_of self }
    {
        match self {
            FrameFault::BadFrame => 1,
            FrameFault::TooLong => 2,
            FrameFault::Memory => 5,
        }
    }
}

impl From<AllocError> for FrameFault {
    ghost from_gives = { λ _ e. e ≡ Memory };

    fn from(_error: AllocError) -> Self {
        FrameFault::Memory
    }
}

impl<T: Drop> From<AllocFailed<T>> for FrameFault {
    ghost from_gives = { λ _ e. e ≡ Memory };

    fn from(_error: AllocFailed<T>) -> Self {
        FrameFault::Memory
    }
}
