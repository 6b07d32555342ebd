//! Why something is no operation.

ghost use Rattle.std.specs.Prelude.{◌≡◌};
ghost use Rattle.operation.specs.declared.fault.OpFault.TheVariants.{Memory};
ghost use Rattle.operation.specs.Fault.{number_of, fault_of_set, fault_of_note};

use data_set::SetFault;
use rejection_note::NoteFault;
use std::alloc::{AllocError, AllocFailed};
use thiserror::Error;

/// The fault of a content, of a correction or of a spelling, and want of memory.
///
/// Of a content the order is `TooLong`, `BadSet`, `NoUid`, `Mismatch`, `BadNote`. Of a spelling it
/// is `UnknownKind`, `Shape`, and then that of the operation. No bytes at all are `Shape`.
#[derive(Clone, Copy, Debug, PartialEq, Eq, Drop, Error)]
pub enum OpFault {
    /// Class, instance, or one of the four UIDs of the data set is missing or no UID.
    #[error("a UID is missing, or is none")]
    NoUid,
    /// The data set names another class or instance.
    #[error("the data set names another class or instance")]
    Mismatch,
    /// The bytes are no data set.
    #[error("the bytes are no data set")]
    BadSet,
    /// The data set is of the class of rejection notes, and a faulty one.
    #[error("the rejection note is faulty")]
    BadNote,
    /// A correction has a part that it may not have.
    #[error("the correction has a part that it may not have")]
    BadCorrection,
    /// A data set has more than 67,108,864 bytes.
    #[error("the data set is longer than is kept")]
    TooLong,
    /// A spelling begins with a byte of no known kind.
    #[error("the kind of operation is unknown")]
    UnknownKind,
    /// Memory was refused: no fault of the operation.
    #[error("memory was refused")]
    Memory,
    /// A spelling is cut short, has bytes left over or an unknown byte, or pads a UID.
    #[error("the bytes are no spelling of an operation")]
    Shape,
}

impl OpFault {
    /// The public number of the fault, from 1 to 9.
    pub fn number(self) -> u8
        ensures { result ≡ number_of self }
    {
        match self {
            OpFault::NoUid => 1,
            OpFault::Mismatch => 2,
            OpFault::BadSet => 3,
            OpFault::BadNote => 4,
            OpFault::BadCorrection => 5,
            OpFault::TooLong => 6,
            OpFault::UnknownKind => 7,
            OpFault::Memory => 8,
            OpFault::Shape => 9,
        }
    }
}

impl From<AllocError> for OpFault {
    ghost from_gives = { λ _ e. e ≡ Memory };

    fn from(_e: AllocError) -> OpFault {
        OpFault::Memory
    }
}

impl<T: Drop> From<AllocFailed<T>> for OpFault {
    ghost from_gives = { λ _ e. e ≡ Memory };

    fn from(_e: AllocFailed<T>) -> OpFault {
        OpFault::Memory
    }
}

impl From<SetFault> for OpFault {
    ghost from_gives = { λ fault e. e ≡ fault_of_set fault };

    fn from(fault: SetFault) -> OpFault {
        match fault {
            SetFault::Memory => OpFault::Memory,
            SetFault::Truncated
            | SetFault::Order
            | SetFault::Depth
            | SetFault::Undefined
            | SetFault::BadVr
            | SetFault::Group => OpFault::BadSet,
        }
    }
}

impl From<NoteFault> for OpFault {
    ghost from_gives = { λ fault e. e ≡ fault_of_note fault };

    fn from(fault: NoteFault) -> OpFault {
        match fault {
            NoteFault::Memory => OpFault::Memory,
            NoteFault::NoTitle | NoteFault::NoReference => OpFault::BadNote,
        }
    }
}
