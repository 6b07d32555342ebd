//! Why a holder did not answer, and why an exchange ended early.

ghost use Rattle.std.specs.Prelude.{◌≡◌};
ghost use Rattle.exchange.specs.Fault.{number_of_holder, number_of_exchange, of_frame, of_holder};

use exchange_frames::FrameFault;
use std::alloc::{AllocError, AllocFailed};
use thiserror::Error;

/// Why a holder did not answer.
#[derive(Clone, Copy, Debug, PartialEq, Eq, Hash, Error)]
pub enum HolderFault {
    #[error("out of memory")]
    Memory,
    /// It refused for another cause, such as an equal digest with another operation.
    #[error("the holder refused")]
    Refused,
    /// The operation is held, and can't be read. Only a load answers so.
    #[error("the operation can't be read")]
    Unreadable,
}

impl HolderFault {
    /// The public number of the fault.
    pub fn number(self) -> u8
        ensures { result ≡ number_of_holder self }
    {
        match self {
            HolderFault::Memory => 1,
            HolderFault::Refused => 2,
            HolderFault::Unreadable => 3,
        }
    }
}

impl From<AllocError> for HolderFault {
    ghost use Rattle.exchange.specs.declared.fault.HolderFault.TheVariants as holders;

    ghost from_gives = { λ _ e. e ≡ holders.Memory };

    fn from(_error: AllocError) -> Self {
        HolderFault::Memory
    }
}

impl<T: Drop> From<AllocFailed<T>> for HolderFault {
    ghost use Rattle.exchange.specs.declared.fault.HolderFault.TheVariants as holders;

    ghost from_gives = { λ _ e. e ≡ holders.Memory };

    fn from(_error: AllocFailed<T>) -> Self {
        HolderFault::Memory
    }
}

/// Why a round or an exchange ended early. What was taken before stands.
#[derive(Clone, Copy, Debug, PartialEq, Eq, Hash, Error)]
pub enum ExchangeFault {
    /// No frame came, or one out of its turn.
    #[error("the bytes are no frame, or one out of its turn")]
    BadFrame,
    #[error("a frame is longer than is read or written")]
    TooLong,
    /// An operation came that was not asked for. It was not taken.
    #[error("an operation was not asked for")]
    Stranger,
    #[error("the connection failed")]
    Io,
    #[error("out of memory")]
    Memory,
    /// The exchange did not end within the greatest number of frames.
    #[error("the exchange does not end")]
    Turns,
    #[error("the holder refused")]
    Refused,
}

impl ExchangeFault {
    /// The number that the program prints, from 1 to 7.
    pub fn number(self) -> u8
        ensures { result ≡ number_of_exchange self }
    {
        match self {
            ExchangeFault::BadFrame => 1,
            ExchangeFault::TooLong => 2,
            ExchangeFault::Stranger => 3,
            ExchangeFault::Io => 4,
            ExchangeFault::Memory => 5,
            ExchangeFault::Turns => 6,
            ExchangeFault::Refused => 7,
        }
    }
}

impl From<FrameFault> for ExchangeFault {
    ghost from_gives = { λ fault e. e ≡ of_frame fault };

    fn from(fault: FrameFault) -> Self {
        match fault {
            FrameFault::BadFrame => ExchangeFault::BadFrame,
            FrameFault::TooLong => ExchangeFault::TooLong,
            FrameFault::Memory => ExchangeFault::Memory,
        }
    }
}

impl From<HolderFault> for ExchangeFault {
    ghost from_gives = { λ fault e. e ≡ of_holder fault };

    fn from(fault: HolderFault) -> Self {
        match fault {
            HolderFault::Memory => ExchangeFault::Memory,
            HolderFault::Refused | HolderFault::Unreadable => ExchangeFault::Refused,
        }
    }
}

impl From<AllocError> for ExchangeFault {
    ghost use Rattle.exchange.specs.declared.fault.ExchangeFault.TheVariants as exchanges;

    ghost from_gives = { λ _ e. e ≡ exchanges.Memory };

    fn from(_error: AllocError) -> Self {
        ExchangeFault::Memory
    }
}

impl<T: Drop> From<AllocFailed<T>> for ExchangeFault {
    ghost use Rattle.exchange.specs.declared.fault.ExchangeFault.TheVariants as exchanges;

    ghost from_gives = { λ _ e. e ≡ exchanges.Memory };

    fn from(_error: AllocFailed<T>) -> Self {
        ExchangeFault::Memory
    }
}
