//! Why a log of operations refuses.

ghost use Rattle.std.specs.Prelude.{◌≡◌};
ghost use Rattle.op_log.specs.declared.fault.LogFault.TheVariants.{Memory};
ghost use Rattle.op_log.specs.Fault.{number_of, fault_of_heads, fault_of_bodies};

use body_log::BodyFault;
use head_log::HeadFault;
use std::alloc::{AllocError, AllocFailed};
use thiserror::Error;

/// Why a log of operations did not do what it was asked for.
#[derive(Clone, Copy, Debug, PartialEq, Eq, Hash, Error)]
pub enum LogFault {
    /// The disk refused.
    #[error("the disk refused")]
    Disk,
    /// An earlier refusal closed the log: the files have to be opened anew.
    #[error("the files have to be opened anew")]
    Closed,
    /// A group or a file would be longer than is written.
    #[error("the group or a file is too long")]
    TooLong,
    /// At this byte of their file the heads are none that a log writes.
    #[error("the heads at byte {0} are damaged")]
    DamagedHeads(usize),
    /// The data set at this byte of its file is none of the operation.
    #[error("the data set at byte {0} is damaged")]
    DamagedBody(usize),
    /// Another operation has the digest.
    #[error("another operation has the digest")]
    Collision,
    /// Memory was refused.
    #[error("memory was refused")]
    Memory,
}

impl LogFault {
    /// The public number of the fault.
    pub fn number(self) -> u8
        ensures { result ≡ number_of self }
    {
        match self {
            LogFault::Disk => 1,
            LogFault::Closed => 2,
            LogFault::TooLong => 3,
            LogFault::DamagedHeads(_) => 4,
            LogFault::DamagedBody(_) => 5,
            LogFault::Collision => 6,
            LogFault::Memory => 7,
        }
    }
}

impl From<AllocError> for LogFault {
    ghost from_gives = { λ _ fault. fault ≡ Memory };

    fn from(_error: AllocError) -> LogFault {
        LogFault::Memory
    }
}

impl<T: Drop> From<AllocFailed<T>> for LogFault {
    ghost from_gives = { λ _ fault. fault ≡ Memory };

    fn from(_error: AllocFailed<T>) -> LogFault {
        LogFault::Memory
    }
}

impl From<HeadFault> for LogFault {
    ghost from_gives = { λ fault told. told ≡ fault_of_heads fault };

    fn from(fault: HeadFault) -> LogFault {
        match fault {
            HeadFault::Disk => LogFault::Disk,
            HeadFault::Closed => LogFault::Closed,
            HeadFault::TooLong => LogFault::TooLong,
            HeadFault::Damaged(at) => LogFault::DamagedHeads(at),
            HeadFault::Memory => LogFault::Memory,
        }
    }
}

impl From<BodyFault> for LogFault {
    ghost from_gives = { λ fault told. told ≡ fault_of_bodies fault };

    fn from(fault: BodyFault) -> LogFault {
        match fault {
            BodyFault::Disk => LogFault::Disk,
            BodyFault::Closed => LogFault::Closed,
            BodyFault::TooLong => LogFault::TooLong,
        }
    }
}
